ghost use Rattle.std.specs.Prelude.{◌≡◌, ◌⊎◌, ◌<◌, length, Ok, Err, IfOk, IfErr};
ghost use Rattle.dy_script.specs.{
  Requests.{request_of, request_of_text, request_parts},
  inside.Fields.{source_data},
  inside.Readings.{IsReadingOf},
};

use crate::buffers::Buffers;
use crate::commands::Command;
use crate::documents::{WRONG_SCRIPT, value_of};
use crate::fields::Fields;
use crate::orders::{Name, command_in};
use crate::sources::{Order, Source};
use crate::streams::read_fields;
use dy_dots::Fault;
use json::{Reader, Scratch};
use simdutf8::compat::from_utf8;
use std::alloc::Global;

/// What a line asks of a store that serves lines.
#[derive(Debug, Drop)]
pub enum Request<'a> {
    /// To do the command.
    Do(Command<'a>),
    /// To close the cluster, and to go on with a new one that has what was present.
    Renew,
}

/// What the line of this number asks of a store with so many nodes, or its first fault. The request
/// borrows from the line and the buffers.
pub fn read_request<'a>(
    alloc: Global,
    buffers: &'a mut Buffers,
    bytes: &'a [u8],
    number: u32,
    nodes: usize,
) -> Result<Request<'a>, Fault>
    ensures ok { IfOk result (λ request.
        request_of_text nodes number bytes.now ≡ Ok (request_parts request)) }
    ensures err { IfErr result (λ fault. (fault ≡ Fault.OutOfMemory)
        ⊎ (request_of_text nodes number bytes.now ≡ Err fault)) }
    ensures memory { IfErr result (λ fault. fault ≡ Fault.OutOfMemory → 0 < length bytes.now) }
{
    let Buffers { told, whole } = buffers;
    match request_told(alloc, told, bytes, number, nodes) {
        Ok(request) => Ok(request),
        Err(Fault::OutOfMemory) => Err(Fault::OutOfMemory),
        Err(_) => request_in_tree(alloc, whole, bytes, number, nodes),
    }
}

/// What the line asks for, its members read one by one. A refusal is for want of memory, or the
/// line is to be read into a tree: something is bad, or more than a text or a whole number.
fn request_told<'a>(
    alloc: Global,
    scratch: &'a mut Scratch,
    bytes: &'a [u8],
    number: u32,
    nodes: usize,
) -> Result<Request<'a>, Fault>
    ensures ok { IfOk result (λ request.
        request_of_text nodes number bytes.now ≡ Ok (request_parts request)) }
    ensures memory { IfErr result (λ fault. fault ≡ Fault.OutOfMemory → 0 < length bytes.now) }
{
    if bytes.is_empty() {
        return Err(WRONG_SCRIPT);
    }
    let Ok(text) = from_utf8(bytes) else {
        return Err(WRONG_SCRIPT);
    };
    let Ok(mut reader) = Reader::new(text, scratch) else {
        return Err(Fault::OutOfMemory);
    };
    let mut fields = Fields::new();
    let Some(()) = read_fields(&mut reader, &mut fields) else {
        return Err(WRONG_SCRIPT);
    };
    if reader.next().is_some() {
        return Err(WRONG_SCRIPT);
    }
    let order = Order {
        source: Source::Told(&fields),
        command: number,
    };
    request_of(alloc, order, nodes)
}

/// What the line asks for, by a tree of it.
#[tactic(auto, unfolding(crate::specs::Requests::request_of_text))]
fn request_in_tree<'a>(
    alloc: Global,
    scratch: &'a mut Scratch,
    bytes: &'a [u8],
    number: u32,
    nodes: usize,
) -> Result<Request<'a>, Fault>
    ensures ok { IfOk result (λ request.
        request_of_text nodes number bytes.now ≡ Ok (request_parts request)) }
    ensures err { IfErr result (λ fault. (fault ≡ Fault.OutOfMemory)
        ⊎ (request_of_text nodes number bytes.now ≡ Err fault)) }
    ensures memory { IfErr result (λ fault. fault ≡ Fault.OutOfMemory → 0 < length bytes.now) }
{
    match value_of(alloc, bytes, scratch) {
        Ok(value) => {
            let order = Order {
                source: Source::Tree(&value),
                command: number,
            };
            request_of(alloc, order, nodes)
        }
        Err(Fault::OutOfMemory) => Err(Fault::OutOfMemory),
        Err(_) => Err(Fault::ScriptSyntax { command: number }),
    }
}

/// What the members ask for.
#[tactic(auto, unfolding(crate::specs::Requests::request_of, crate::specs::Requests::request_by))]
fn request_of<'a>(alloc: Global, order: Order<'_, 'a>, nodes: usize) -> Result<Request<'a>, Fault>
    ensures { IsReadingOf request_parts result
        (request_of nodes order.entry.command (source_data order.entry.source)) }
{
    match order.text(Name::Do)? {
        "renew" => {
            order.allow_only(&["do"])?;
            Ok(Request::Renew)
        }
        _ => Ok(Request::Do(command_in(alloc, order, nodes)?)),
    }
}
