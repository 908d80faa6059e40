ghost use Rattle.std.specs.Prelude.{◌≡◌, ◌⊎◌, ◌<◌, length, Some, None, IfOk, IfErr, OnOk};
ghost use Rattle.json.specs.Value.{value_view};
ghost use Rattle.json.specs.Value as json_value;
ghost use Rattle.dy_script.specs.{
  Reading.{data_of},
  inside.Documents.{view, document, fault_of, in_range, items_in_range, members_in_range},
};

use crate::numbers::number_of;
use dy_dots::Fault;
use json::{Error, Reader, Scratch, Value};
use simdutf8::compat::from_utf8;
use std::alloc::Global;

/// How deep lists and objects nest at most.
pub(crate) const MAX_DEPTH: usize = 127;

/// The fault of what is no JSON, and of a script whose own members are wrong.
pub(crate) const WRONG_SCRIPT: Fault = Fault::ScriptSyntax { command: 0 };

/// The JSON value that the bytes spell, its texts borrowed.
#[tactic(auto, unfolding(crate::specs::Reading::data_of))]
pub(crate) fn value_of<'a>(
    alloc: Global,
    bytes: &'a [u8],
    scratch: &'a mut Scratch,
) -> Result<Value<'a>, Fault>
    ensures ok { IfOk result (λ value. data_of bytes.now ≡ Some (view value)) }
    ensures err { IfErr result (λ fault. (fault ≡ Fault.OutOfMemory)
        ⊎ ((fault ≡ Fault.ScriptSyntax 0) × (data_of bytes.now ≡ None))) }
    ensures memory { IfErr result (λ fault. fault ≡ Fault.OutOfMemory → 0 < length bytes.now) }
    ensures some { OnOk result (0 < length bytes.now) }
{
    let Ok(text) = from_utf8(bytes) else {
        return Err(WRONG_SCRIPT);
    };
    let value = tree_of(alloc, text, scratch)?;
    if is_in_range(&value) {
        Ok(value)
    } else {
        Err(WRONG_SCRIPT)
    }
}

/// The tree of the JSON value that the text is, whatever its numbers.
fn tree_of<'a>(alloc: Global, text: &'a str, scratch: &'a mut Scratch) -> Result<Value<'a>, Fault>
    ensures ok { IfOk result (λ value. document text.now ≡ Some (value_view value)) }
    ensures err { IfErr result (λ fault. (fault ≡ Fault.OutOfMemory)
        ⊎ ((fault ≡ Fault.ScriptSyntax 0) × (document text.now ≡ None))) }
    ensures memory { IfErr result (λ fault. fault ≡ Fault.OutOfMemory → 0 < length text.now) }
{
    let Ok(mut reader) = Reader::new(text, scratch) else {
        return Err(Fault::OutOfMemory);
    };
    let value = match Value::read(alloc, &mut reader, MAX_DEPTH) {
        Ok(value) => value,
        Err(error) => return Err(fault_of(error)),
    };
    match reader.next() {
        Some(_) => Err(WRONG_SCRIPT),
        None => Ok(value),
    }
}

/// The fault of a text that was not read.
pub(crate) fn fault_of(error: Error) -> Fault
    ensures { result ≡ fault_of error }
{
    match error {
        Error::OutOfMemory => Fault::OutOfMemory,
        _ => WRONG_SCRIPT,
    }
}

/// Whether each number of the value is in range.
#[cycle(ranges)]
fn is_in_range(value: &Value) -> bool
    ensures { result ≡ in_range (value_view value.now) }
{
    match value {
        Value::Number(text) => number_of(text).is_some(),
        Value::Array(items) => are_items_in_range(items.as_slice()),
        Value::Object(members) => are_members_in_range(members.as_slice()),
        _ => true,
    }
}

/// Whether each number of the items is in range.
#[cycle(ranges)]
fn are_items_in_range(items: &[Value]) -> bool
    ensures { result ≡ items_in_range (json_value.items_view items.now) }
{
    for item in items {
        if !is_in_range(item) {
            return false;
        }
    }
    true
}

/// Whether each number of the members is in range.
#[cycle(ranges)]
pub(crate) fn are_members_in_range(members: &[(&str, Value)]) -> bool
    ensures { result ≡ members_in_range (json_value.members_view members.now) }
{
    for member in members {
        if !is_in_range(&member.1) {
            return false;
        }
    }
    true
}
