ghost use Rattle.std.specs.Prelude.{◌≡◌, ◌<◌, IfSome, vec_items};
ghost use Rattle.std.specs.Cow.{cow_slice_items};
ghost use Rattle.dy_script.specs.{
  Members.{allow_only, seen},
  Orders.{command_parts, write_parts, put_names, node_named, lone_node, mode_of, session_of},
  Orders.{bytes_of, value_of, write_of, put_of, delete_of, get_of, set_mode_of, show_of, at_node},
  Orders.{command_of},
  inside.Documents.{view},
  inside.Fields.{place_of, name_at, name_text, source_data},
  inside.Readings.{IsReadingOf},
};

use crate::commands::{Command, Payload, Write};
use crate::scripts::MAX_SCRIPT_SESSIONS;
use crate::sources::{Order, Source};
use dy_dots::Fault;
use dy_modes::Mode;
use json::Value;
use std::alloc::Global;
use std::borrow::CowSlice;

/// The name of a member that some command has, in the order of their texts.
#[derive(Clone, Copy, Debug)]
pub(crate) enum Name {
    Context,
    Do,
    Key,
    Mode,
    Node,
    Session,
    Value,
    Valuehex,
    W,
}

/// How many names there are.
pub(crate) const PLACES: usize = 9;

impl Name {
    /// The name that has this text.
    pub(crate) fn named(text: &str) -> Option<Name>
        ensures { IfSome result (λ name. text.now ≡ name_text name) }
    {
        // Those of puts and gets come first.
        match text {
            "do" => Some(Name::Do),
            "key" => Some(Name::Key),
            "value" => Some(Name::Value),
            "context" => Some(Name::Context),
            "session" => Some(Name::Session),
            "w" => Some(Name::W),
            "node" => Some(Name::Node),
            "mode" => Some(Name::Mode),
            "valuehex" => Some(Name::Valuehex),
            _ => None,
        }
    }

    /// Its place in an object of fields.
    pub(crate) fn place(self) -> usize
        ensures place { result ≡ place_of self }
        ensures within { result < PLACES }
    {
        match self {
            Name::Context => 0,
            Name::Do => 1,
            Name::Key => 2,
            Name::Mode => 3,
            Name::Node => 4,
            Name::Session => 5,
            Name::Value => 6,
            Name::Valuehex => 7,
            Name::W => 8,
        }
    }

    /// Its text.
    pub(crate) fn text(self) -> &'static str
        ensures { result.now ≡ name_text self }
    {
        text_at(self.place())
    }
}

/// The text of the name at this place.
pub(crate) fn text_at(place: usize) -> &'static str
    requires { place < PLACES }
    ensures { result.now ≡ name_at place }
{
    match place {
        0 => "context",
        1 => "do",
        2 => "key",
        3 => "mode",
        4 => "node",
        5 => "session",
        6 => "value",
        7 => "valuehex",
        _ => "w",
    }
}

/// The command that the value says, on a ring of so many nodes. The value is dropped at once.
pub(crate) fn command_of<'a>(
    alloc: Global,
    value: Value<'a>,
    number: u32,
    nodes: usize,
) -> Result<Command<'a>, Fault>
    ensures { IsReadingOf command_parts result (command_of nodes number (view value.entry)) }
{
    let order = Order {
        source: Source::Tree(&value),
        command: number,
    };
    command_in(alloc, order, nodes)
}

/// The command that the members say, on a ring of so many nodes.
#[inline(always)]
#[tactic(auto, unfolding(crate::specs::Orders::command_of, crate::specs::Orders::command_named))]
pub(crate) fn command_in<'a>(
    alloc: Global,
    order: Order<'_, 'a>,
    nodes: usize,
) -> Result<Command<'a>, Fault>
    ensures { IsReadingOf command_parts result
        (command_of nodes order.entry.command (source_data order.entry.source)) }
{
    let word = order.text(Name::Do)?;
    match word {
        "put" => put_of(alloc, order),
        "delete" => delete_of(order),
        "get" => get_of(order),
        "fault" => set_mode_of(order, nodes),
        "show" => show_of(order, nodes),
        _ => at_node(word, order, nodes),
    }
}

/// The command of this word that names a node alone.
#[tactic(auto, unfolding(crate::specs::Orders::at_node))]
fn at_node<'a>(word: &str, order: Order<'_, 'a>, nodes: usize) -> Result<Command<'a>, Fault>
    ensures { seen command_parts result
        ≡ at_node nodes order.entry.command (source_data order.entry.source) word.now }
{
    match word {
        "down" => Ok(Command::Down {
            node: lone_node(order, nodes)?,
        }),
        "up" => Ok(Command::Up {
            node: lone_node(order, nodes)?,
        }),
        "deliver" => Ok(Command::Deliver {
            node: lone_node(order, nodes)?,
        }),
        "handoff" => Ok(Command::Handoff {
            node: lone_node(order, nodes)?,
        }),
        _ => Err(Fault::UnknownCommand {
            command: order.command,
        }),
    }
}

/// The node of a command that names nothing else.
#[tactic(auto, unfolding(crate::specs::Orders::lone_node))]
fn lone_node(order: Order, nodes: usize) -> Result<usize, Fault>
    ensures { result ≡ lone_node nodes order.entry.command (source_data order.entry.source) }
{
    order.allow_only(&["do", "node"])?;
    node_named(order, nodes)
}

/// The number of the node, which the ring must have.
#[tactic(auto, unfolding(crate::specs::Orders::node_named))]
fn node_named(order: Order, nodes: usize) -> Result<usize, Fault>
    ensures { result ≡ node_named nodes order.entry.command (source_data order.entry.source) }
{
    match order.whole(Name::Node) {
        Some(number) if number < nodes as u64 => Ok(number as usize),
        _ => Err(order.fault()),
    }
}

/// The mode that the command names.
#[tactic(auto, unfolding(crate::specs::Orders::mode_of))]
fn mode_of(order: Order) -> Result<Mode, Fault>
    ensures { result ≡ mode_of order.entry.command (source_data order.entry.source) }
{
    match Mode::named(order.text(Name::Mode)?) {
        Some(mode) => Ok(mode),
        None => Err(order.fault()),
    }
}

/// The number of the session, 0 where none is named.
#[inline(always)]
#[tactic(auto, unfolding(crate::specs::Orders::session_of))]
fn session_of(order: Order) -> Result<u8, Fault>
    ensures { result ≡ session_of order.entry.command (source_data order.entry.source) }
{
    match order.optional_small(Name::Session)? {
        Some(number) if number >= MAX_SCRIPT_SESSIONS => Err(order.fault()),
        Some(number) => Ok(number),
        None => Ok(0),
    }
}

/// A put, whose value is a text or hexadecimal digits.
#[inline(always)]
#[tactic(auto, unfolding(crate::specs::Orders::put_of))]
fn put_of<'a>(alloc: Global, order: Order<'_, 'a>) -> Result<Command<'a>, Fault>
    ensures { IsReadingOf command_parts result
        (put_of order.entry.command (source_data order.entry.source)) }
{
    allow_put(order)?;
    let value = value_of(alloc, order)?;
    let write = write_of(order)?;
    Ok(Command::Put { write, value })
}

/// Refuses a member that a put doesn't have.
#[tactic(auto, unfolding(crate::specs::Orders::put_names))]
fn allow_put(order: Order) -> Result<(), Fault>
    ensures { result ≡ allow_only order.entry.command put_names (source_data order.entry.source) }
{
    order.allow_only(&["do", "key", "value", "valuehex", "context", "session", "w"])
}

/// A delete, which has no value.
#[tactic(auto, unfolding(crate::specs::Orders::delete_of))]
fn delete_of<'a>(order: Order<'_, 'a>) -> Result<Command<'a>, Fault>
    ensures { seen command_parts result
        ≡ delete_of order.entry.command (source_data order.entry.source) }
{
    order.allow_only(&["do", "key", "context", "session", "w"])?;
    let write = write_of(order)?;
    Ok(Command::Delete { write })
}

/// A get of a session.
#[inline(always)]
#[tactic(auto, unfolding(crate::specs::Orders::get_of))]
fn get_of<'a>(order: Order<'_, 'a>) -> Result<Command<'a>, Fault>
    ensures { seen command_parts result
        ≡ get_of order.entry.command (source_data order.entry.source) }
{
    order.allow_only(&["do", "key", "session"])?;
    let session = session_of(order)?;
    let key = order.text(Name::Key)?;
    Ok(Command::Get { key, session })
}

/// A node's new mode.
#[tactic(auto, unfolding(crate::specs::Orders::set_mode_of))]
fn set_mode_of<'a>(order: Order<'_, 'a>, nodes: usize) -> Result<Command<'a>, Fault>
    ensures { seen command_parts result
        ≡ set_mode_of nodes order.entry.command (source_data order.entry.source) }
{
    order.allow_only(&["do", "node", "mode"])?;
    let node = node_named(order, nodes)?;
    let mode = mode_of(order)?;
    Ok(Command::SetMode { node, mode })
}

/// A question for what a node holds of a key.
#[tactic(auto, unfolding(crate::specs::Orders::show_of))]
fn show_of<'a>(order: Order<'_, 'a>, nodes: usize) -> Result<Command<'a>, Fault>
    ensures { seen command_parts result
        ≡ show_of nodes order.entry.command (source_data order.entry.source) }
{
    order.allow_only(&["do", "node", "key"])?;
    let node = node_named(order, nodes)?;
    let key = order.text(Name::Key)?;
    Ok(Command::Show { node, key })
}

/// The value of a put, given as a text or as hexadecimal digits.
#[tactic(auto, unfolding(crate::specs::Orders::value_of, crate::specs::Orders::value_given))]
fn value_of<'a>(alloc: Global, order: Order<'_, 'a>) -> Result<Payload<'a>, Fault>
    ensures { IsReadingOf cow_slice_items result
        (value_of order.entry.command (source_data order.entry.source)) }
{
    let text = order.optional_text(Name::Value)?;
    let digits = order.optional_text(Name::Valuehex)?;
    match (text, digits) {
        (Some(text), None) => Ok(CowSlice::Borrowed(text.as_bytes())),
        (None, Some(digits)) => Ok(CowSlice::Owned(bytes_of(alloc, order, digits)?)),
        _ => Err(order.fault()),
    }
}

/// The bytes of hexadecimal digits.
#[tactic(auto, unfolding(crate::specs::Orders::bytes_of))]
fn bytes_of(alloc: Global, order: Order, digits: &str) -> Result<Vec<u8>, Fault>
    ensures { IsReadingOf vec_items result (bytes_of order.entry.command digits.now) }
{
    match hex::decode(alloc, digits) {
        Ok(bytes) => Ok(bytes),
        Err(hex::FromHexError::OutOfMemory) => Err(Fault::OutOfMemory),
        Err(_) => Err(order.fault()),
    }
}

/// What a put and a delete say beside the value.
#[inline(always)]
#[tactic(auto, unfolding(crate::specs::Orders::write_of))]
fn write_of<'a>(order: Order<'_, 'a>) -> Result<Write<'a>, Fault>
    ensures { seen write_parts result
        ≡ write_of order.entry.command (source_data order.entry.source) }
{
    let session = session_of(order)?;
    let w = order.optional_small(Name::W)?;
    let context = order.optional_text(Name::Context)?;
    let key = order.text(Name::Key)?;
    Ok(Write {
        key,
        context,
        session,
        w,
    })
}
