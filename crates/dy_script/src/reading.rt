ghost use Rattle.std.specs.Prelude.{◌≡◌, ◌⊎◌, ◌<◌, ◌≤◌, length, Ok, Err, IfOk, IfErr};
ghost use Rattle.std.specs.Prelude.{vec_items, map, ℕ};
ghost use Rattle.dy_script.specs.{
  Members.{allow_only, each_of, seen},
  Orders.{command_parts},
  Reading.{layout_parts, script_parts, script_names, token_at, token_list, tokens_at, token_lists},
  Reading.{derived_of, tokens_given, limits_of, key_at, keys_of, command_at, commands_given},
  Reading.{run_of, script_of, script_of_text},
  declared.scripts.TheConstants.{MAX_COMMANDS},
  inside.Documents.{view, items_view},
  inside.Readings.{IsReadingOf},
};

use crate::buffers::Buffers;
use crate::commands::Command;
use crate::documents::{WRONG_SCRIPT, value_of};
use crate::members::{Members, list_of, taken_list, text_of};
use crate::orders::command_of;
use crate::scripts::{Layout, Limits, MAX_COMMANDS, Script};
use crate::streams::streamed;
use crate::tokens::token;
use dy_dots::Fault;
use dy_siblings::Key;
use json::{Scratch, Value};
use std::alloc::Global;

/// The script that the bytes spell, or its first fault: that of the script itself before those of
/// its commands. It borrows from the bytes and the buffers.
pub fn read<'a>(
    alloc: Global,
    buffers: &'a mut Buffers,
    bytes: &'a [u8],
) -> Result<Script<'a>, Fault>
    ensures ok { IfOk result (λ script. script_of_text bytes.now ≡ Ok (script_parts script)) }
    ensures err { IfErr result (λ fault. (fault ≡ Fault.OutOfMemory)
        ⊎ (script_of_text bytes.now ≡ Err fault)) }
    ensures memory { IfErr result (λ fault. fault ≡ Fault.OutOfMemory → 0 < length bytes.now) }
{
    let Buffers { told, whole } = buffers;
    match streamed(alloc, bytes, told) {
        Ok(script) => Ok(script),
        Err(Fault::OutOfMemory) => Err(Fault::OutOfMemory),
        Err(_) => read_whole(alloc, bytes, whole),
    }
}

/// The same, by a tree of the whole.
#[tactic(auto, unfolding(crate::specs::Reading::script_of_text))]
fn read_whole<'a>(
    alloc: Global,
    bytes: &'a [u8],
    scratch: &'a mut Scratch,
) -> Result<Script<'a>, Fault>
    ensures ok { IfOk result (λ script. script_of_text bytes.now ≡ Ok (script_parts script)) }
    ensures err { IfErr result (λ fault. (fault ≡ Fault.OutOfMemory)
        ⊎ (script_of_text bytes.now ≡ Err fault)) }
    ensures memory { IfErr result (λ fault. fault ≡ Fault.OutOfMemory → 0 < length bytes.now) }
{
    let value = value_of(alloc, bytes, scratch)?;
    script_of(alloc, value)
}

/// The script that the value says.
#[tactic(auto, unfolding(crate::specs::Reading::script_of))]
pub(crate) fn script_of<'a>(alloc: Global, value: Value<'a>) -> Result<Script<'a>, Fault>
    ensures { IsReadingOf script_parts result (script_of (view value.entry)) }
{
    let members = Members {
        value: &value,
        command: 0,
    };
    allow_script(members)?;
    let n = members.small("n")?;
    let r = members.small("r")?;
    let w = members.small("w")?;
    let layout = tokens_given(alloc, members)?;
    let limits = limits_of(members)?;
    let keys = keys_of(alloc, members)?;
    let settled = members.flag("settled")?;
    let run = run_of(alloc, value, layout.nodes())?;
    Ok(Script {
        n,
        r,
        w,
        layout,
        limits,
        keys,
        settled,
        run,
    })
}

/// Refuses a member that a script doesn't have.
#[tactic(auto, unfolding(crate::specs::Reading::script_names))]
fn allow_script(members: Members) -> Result<(), Fault>
    ensures { result
        ≡ allow_only members.entry.command script_names (view members.entry.value.now) }
{
    members.allow_only(&[
        "n", "r", "w", "tokens", "derived", "limits", "keys", "settled", "run",
    ])
}

/// The tokens, given or derived, of a script.
#[tactic(auto, unfolding(crate::specs::Reading::tokens_given, crate::specs::Reading::layout_given))]
fn tokens_given(alloc: Global, members: Members) -> Result<Layout, Fault>
    requires { members.command ≡ 0 }
    ensures { IsReadingOf layout_parts result (tokens_given (view members.entry.value.now)) }
{
    let lists = members.optional_list("tokens")?;
    let derived = members.get("derived");
    match (lists, derived) {
        (Some(lists), None) => Ok(Layout::Tokens(token_lists(alloc, lists)?)),
        (None, Some(derived)) => derived_of(derived),
        _ => Err(WRONG_SCRIPT),
    }
}

/// The numbers that tokens are derived from.
#[tactic(auto, unfolding(crate::specs::Reading::derived_of))]
fn derived_of(value: &Value) -> Result<Layout, Fault>
    ensures { seen layout_parts result ≡ derived_of (view value.now) }
{
    let members = Members { value, command: 0 };
    members.allow_only(&["nodes", "per_node"])?;
    let nodes = members.small("nodes")?;
    let per_node = members.small("per_node")?;
    Ok(Layout::Derived { nodes, per_node })
}

/// Each node's tokens.
#[tactic(auto, unfolding(crate::specs::Reading::token_lists))]
fn token_lists(alloc: Global, lists: &[Value]) -> Result<Vec<Vec<u128>>, Fault>
    ensures { IsReadingOf (λ found. map vec_items found.items) result
        (token_lists (items_view lists.now)) }
{
    let mut found = Vec::new(alloc);
    for list in lists {
        let tokens = tokens_at(alloc, list)?;
        found.push(tokens)?;
    }
    Ok(found)
}

/// One node's tokens.
#[tactic(auto, unfolding(crate::specs::Reading::tokens_at))]
fn tokens_at(alloc: Global, value: &Value) -> Result<Vec<u128>, Fault>
    ensures { (i : ℕ) → IsReadingOf vec_items result (tokens_at i (view value.now)) }
{
    match list_of(value) {
        Some(texts) => token_list(alloc, texts),
        None => Err(WRONG_SCRIPT),
    }
}

/// The tokens of a list.
#[tactic(auto, unfolding(crate::specs::Reading::token_list))]
fn token_list(alloc: Global, texts: &[Value]) -> Result<Vec<u128>, Fault>
    ensures { IsReadingOf vec_items result (token_list (items_view texts.now)) }
{
    let mut found = Vec::new(alloc);
    for text in texts {
        let position = token_at(text)?;
        found.push(position)?;
    }
    Ok(found)
}

/// The position that a token names.
#[tactic(auto, unfolding(crate::specs::Reading::token_at))]
fn token_at(value: &Value) -> Result<u128, Fault>
    ensures { (i : ℕ) → result ≡ token_at i (view value.now) }
{
    match text_of(value) {
        Some(text) => match token(text) {
            Some(position) => Ok(position),
            None => Err(WRONG_SCRIPT),
        },
        None => Err(WRONG_SCRIPT),
    }
}

/// The limits that the script sets.
#[tactic(auto, unfolding(crate::specs::Reading::limits_of, crate::specs::Reading::limits_given))]
fn limits_of(members: Members) -> Result<Limits, Fault>
    ensures { result ≡ limits_of (view members.entry.value.now) }
{
    let Some(value) = members.get("limits") else {
        return Ok(Limits {
            counter: None,
            versions: None,
            steps: None,
        });
    };
    let members = Members { value, command: 0 };
    members.allow_only(&["counter", "versions", "steps"])?;
    let counter = members.optional_whole("counter")?;
    let versions = members.optional_whole("versions")?;
    let steps = members.optional_whole("steps")?;
    Ok(Limits {
        counter,
        versions,
        steps,
    })
}

/// The keys whose lists are asked for.
#[tactic(auto, unfolding(crate::specs::Reading::keys_of, crate::specs::Reading::keys_given))]
fn keys_of(alloc: Global, members: Members) -> Result<Vec<Key>, Fault>
    requires { members.command ≡ 0 }
    ensures { IsReadingOf vec_items result (keys_of (view members.entry.value.now)) }
{
    match members.optional_list("keys")? {
        Some(list) => keys_in(alloc, list),
        None => Ok(Vec::new(alloc)),
    }
}

/// The keys of a list.
fn keys_in(alloc: Global, list: &[Value]) -> Result<Vec<Key>, Fault>
    ensures { IsReadingOf vec_items result (each_of key_at 0 (items_view list.now)) }
{
    let mut found = Vec::new(alloc);
    for value in list {
        let key = key_at(alloc, value)?;
        found.push(key)?;
    }
    Ok(found)
}

/// The key that the value spells.
#[tactic(auto, unfolding(crate::specs::Reading::key_at, crate::specs::Reading::sized_key))]
fn key_at(alloc: Global, value: &Value) -> Result<Key, Fault>
    ensures { (i : ℕ) → IsReadingOf (λ key. key) result (key_at i (view value.now)) }
{
    let Some(text) = text_of(value) else {
        return Err(WRONG_SCRIPT);
    };
    match Key::new(alloc, text.as_bytes()) {
        Ok(key) => Ok(key),
        Err(Fault::KeySize) => Err(WRONG_SCRIPT),
        Err(_) => Err(Fault::OutOfMemory),
    }
}

/// The commands of a script, on a ring of so many nodes.
#[tactic(auto, unfolding(crate::specs::Reading::run_of, crate::specs::Reading::run_given))]
fn run_of<'a>(alloc: Global, value: Value<'a>, nodes: usize) -> Result<Vec<Command<'a>>, Fault>
    ensures { IsReadingOf (λ run. map command_parts run.items) result
        (run_of nodes (view value.entry)) }
{
    match taken_list(value, "run")? {
        Some(list) => commands_given(alloc, list, nodes),
        None => Ok(Vec::new(alloc)),
    }
}

/// The commands of a list, unless they are too many.
#[tactic(auto, using(crate::proofs::ListsRead::items_len_view))]
fn commands_given<'a>(
    alloc: Global,
    list: Vec<Value<'a>>,
    nodes: usize,
) -> Result<Vec<Command<'a>>, Fault>
    ensures { IsReadingOf (λ run. map command_parts run.items) result
        (commands_given nodes (items_view list.entry.items)) }
{
    if list.len() > MAX_COMMANDS {
        return Err(WRONG_SCRIPT);
    }
    commands_in(alloc, list, nodes)
}

/// The commands of a list, numbered from 1.
fn commands_in<'a>(
    alloc: Global,
    list: Vec<Value<'a>>,
    nodes: usize,
) -> Result<Vec<Command<'a>>, Fault>
    requires { length list.items ≤ MAX_COMMANDS }
    ensures { IsReadingOf (λ run. map command_parts run.items) result
        (each_of (command_at nodes) 0 (items_view list.entry.items)) }
{
    let mut found = Vec::with_capacity(alloc, list.len())?;
    let mut number = 0u32;
    for value in list {
        number += 1;
        let command = command_of(alloc, value, number, nodes)?;
        found.push(command)?;
    }
    Ok(found)
}
