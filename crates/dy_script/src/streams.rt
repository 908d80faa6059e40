ghost use Rattle.std.specs.Prelude.{◌≡◌, ◌<◌, ◌∷◌, [], Ok, length, map};
ghost use Rattle.std.specs.Prelude.{IfOk, IfErr, IfSome, IsTrue};
ghost use Rattle.json.specs.Token as token;
ghost use Rattle.json.specs.Value.{value_view};
ghost use Rattle.dy_script.specs.{
  Orders.{command_parts},
  Reading.{script_parts, script_of_text},
  inside.Streams.{IsRead, OpensScript, IsOwnScript, IsCommand, AreCommands, IsRun},
  inside.Fields.{AreTold, IsField, members_told},
};

use crate::commands::Command;
use crate::documents::{MAX_DEPTH, WRONG_SCRIPT, are_members_in_range, fault_of};
use crate::fields::{Field, Fields};
use crate::numbers::number_of;
use crate::orders::{Name, command_in};
use crate::reading::script_of;
use crate::scripts::{MAX_COMMANDS, Script};
use crate::sources::{Order, Source};
use dy_dots::Fault;
use json::{Reader, Scratch, Token, Value};
use simdutf8::compat::from_utf8;
use std::alloc::Global;

/// The script that the bytes spell, each command read by itself. A refusal, here and below, is for
/// want of memory, or the whole is to be read: the commands don't stand last, or something is bad.
pub(crate) fn streamed<'a>(
    alloc: Global,
    bytes: &'a [u8],
    scratch: &'a mut Scratch,
) -> Result<Script<'a>, Fault>
    ensures ok { IfOk result (λ script. script_of_text bytes.now ≡ Ok (script_parts script)) }
    ensures memory { IfErr result (λ fault. fault ≡ Fault.OutOfMemory → 0 < length bytes.now) }
{
    if bytes.is_empty() {
        return Err(WRONG_SCRIPT);
    }
    let Ok(text) = from_utf8(bytes) else {
        return Err(WRONG_SCRIPT);
    };
    script_in(alloc, text, scratch)
}

/// The script that the text spells.
fn script_in<'a>(
    alloc: Global,
    text: &'a str,
    scratch: &'a mut Scratch,
) -> Result<Script<'a>, Fault>
    ensures { IfOk result (λ script. script_of_text text.now ≡ Ok (script_parts script)) }
{
    let Ok(mut reader) = Reader::new(text, scratch) else {
        return Err(Fault::OutOfMemory);
    };
    let own = own_members(alloc, &mut reader)?;
    let script = own_script(alloc, own)?;
    let run = run_at(alloc, &mut reader, script.layout.nodes())?;
    Ok(Script { run, ..script })
}

/// The members of a script before its commands. A list of commands begins behind them.
fn own_members<'a>(
    alloc: Global,
    reader: &mut Reader<'a>,
) -> Result<Vec<(&'a str, Value<'a>)>, Fault>
    ensures { IfOk result (λ own. OpensScript reader.old own.items reader.new) }
{
    if !begins_object(reader) {
        return Err(WRONG_SCRIPT);
    }
    let mut own = Vec::new(alloc);
    'members: while let Some(name) = key_at(reader) {
        if name == "run" {
            if !begins_list(reader) {
                return Err(WRONG_SCRIPT);
            }
            return Ok(own);
        }
        let value = value_at(alloc, reader, MAX_DEPTH - 1)?;
        own.push((name, value))?;
    }
    Err(WRONG_SCRIPT)
}

/// The script that has these members and no command.
fn own_script<'a>(alloc: Global, own: Vec<(&'a str, Value<'a>)>) -> Result<Script<'a>, Fault>
    ensures { IfOk result (λ script. IsOwnScript own.entry.items (script_parts script)) }
{
    if !are_members_in_range(own.as_slice()) {
        return Err(WRONG_SCRIPT);
    }
    script_of(alloc, Value::Object(own))
}

/// The commands to the end of the script, on a ring of so many nodes.
fn run_at<'a>(
    alloc: Global,
    reader: &mut Reader<'a>,
    nodes: usize,
) -> Result<Vec<Command<'a>>, Fault>
    ensures { IfOk result (λ run. IsRun nodes reader.old (map command_parts run.items)) }
{
    let run = commands_at(alloc, reader, nodes)?;
    if ends(reader) {
        Ok(run)
    } else {
        Err(WRONG_SCRIPT)
    }
}

/// The commands to the end of their list, numbered from 1. What a command was read from is dropped
/// at once.
fn commands_at<'a>(
    alloc: Global,
    reader: &mut Reader<'a>,
    nodes: usize,
) -> Result<Vec<Command<'a>>, Fault>
    ensures { IfOk result
        (λ run. AreCommands nodes reader.old (map command_parts run.items) reader.new) }
{
    let mut found = Vec::new(alloc);
    let mut fields = Fields::new();
    let mut number = 0u32;
    'commands: while !reader.take_end_array() {
        if number as usize >= MAX_COMMANDS {
            return Err(WRONG_SCRIPT);
        }
        number += 1;
        let command = command_at(alloc, reader, &mut fields, number, nodes)?;
        found.push(command)?;
    }
    Ok(found)
}

/// The command that comes next, of this number. Its members are read into the fields.
fn command_at<'a>(
    alloc: Global,
    reader: &mut Reader<'a>,
    fields: &mut Fields<'a>,
    number: u32,
    nodes: usize,
) -> Result<Command<'a>, Fault>
    ensures { IfOk result
        (λ command. IsCommand nodes number reader.old (command_parts command) reader.new) }
{
    let Some(()) = read_fields(reader, fields) else {
        return Err(WRONG_SCRIPT);
    };
    let order = Order {
        source: Source::Told(&*fields),
        command: number,
    };
    command_in(alloc, order, nodes)
}

/// Reads the members of the object that comes next, where each is one that some command has.
pub(crate) fn read_fields<'a>(reader: &mut Reader<'a>, fields: &mut Fields<'a>) -> Option<()>
    ensures { IfSome result (λ _. AreTold reader.old (members_told fields.new) reader.new) }
{
    if !begins_object(reader) {
        return None;
    }
    fields.clear();
    'members: loop {
        match reader.next() {
            Some(Token::Key(text)) => {
                let name = Name::named(text)?;
                let field = field_at(reader)?;
                fields.set(name, field);
            }
            Some(Token::EndObject) => return Some(()),
            _ => return None,
        }
    }
}

/// The text or the whole number that comes next.
fn field_at<'a>(reader: &mut Reader<'a>) -> Option<Field<'a>>
    ensures { IfSome result (λ field. IsField reader.old field reader.new) }
{
    match reader.next() {
        Some(Token::String(text)) => Some(Field::Text(text)),
        Some(Token::Number(text)) => Some(Field::Whole(number_of(text)?.as_u64()?)),
        _ => None,
    }
}

/// The value that comes next, nested at most so deep.
fn value_at<'a>(alloc: Global, reader: &mut Reader<'a>, depth: usize) -> Result<Value<'a>, Fault>
    ensures { IfOk result (λ value. IsRead depth reader.old (value_view value) reader.new) }
{
    match Value::read(alloc, reader, depth) {
        Ok(value) => Ok(value),
        Err(error) => Err(fault_of(error)),
    }
}

/// The key that comes next.
fn key_at<'a>(reader: &mut Reader<'a>) -> Option<&'a str>
    ensures { IfSome result (λ name. reader.old ≡ token.key name.now ∷ reader.new) }
{
    match reader.next() {
        Some(Token::Key(name)) => Some(name),
        _ => None,
    }
}

/// Whether an object begins next.
#[inline(always)]
fn begins_object(reader: &mut Reader) -> bool
    ensures { IsTrue result → reader.old ≡ token.begin_object ∷ reader.new }
{
    matches!(reader.next(), Some(Token::BeginObject))
}

/// Whether a list begins next.
fn begins_list(reader: &mut Reader) -> bool
    ensures { IsTrue result → reader.old ≡ token.begin_array ∷ reader.new }
{
    matches!(reader.next(), Some(Token::BeginArray))
}

/// Whether the object ends next, and the text with it.
fn ends(reader: &mut Reader) -> bool
    ensures { IsTrue result → reader.old ≡ token.end_object ∷ [] }
{
    match reader.next() {
        Some(Token::EndObject) => reader.next().is_none(),
        _ => false,
    }
}
