// What a command is given, its texts judged: the sizes of the key and of the value first.
ghost use Rattle.std.specs.Prelude.{◌≡◌, ◌<◌, ◌⊎◌, ◌↔◌, Some, None, IfOk, IfErr, IsErrOf};
ghost use Rattle.std.specs.Prelude.{length, IsTrue, option_map};
ghost use Rattle.dy_siblings.specs.{Sizes.{IsKey}, declared.values.TheConstants.{MAX_VALUE_BYTES}};
ghost use Rattle.dy_commands.specs.Texts.{IsGiven, IsGivenRefused, IsKeyJudged};

use dy_dots::{Context, Fault};
use dy_script::Write;
use dy_siblings::{Key, MAX_KEY_BYTES, Value};
use std::alloc::Global;

/// What a put or a delete is given.
#[derive(Drop)]
pub(crate) struct Given {
    pub key: Key,
    pub context: Context,
    pub value: Option<Value>,
}

/// What a put is given.
#[inline(always)]
pub(crate) fn read_put(alloc: Global, write: &Write, value: &[u8]) -> Result<Given, Fault>
    ensures ok { IfOk result (λ given. IsGiven write.now.key.now
        (option_map (λ s. s.now) write.now.context) (Some value.now) given) }
    ensures key_size { IsErrOf result Fault.KeySize ↔ ¬ (IsKey write.now.key.now) }
    ensures value_size { IsErrOf result Fault.ValueSize
        ↔ (IsKey write.now.key.now × (MAX_VALUE_BYTES < length value.now)) }
    ensures only { IfErr result (λ fault. (fault ≡ Fault.ValueSize)
        ⊎ IsGivenRefused write.now.key.now
        (option_map (λ s. s.now) write.now.context) fault) }
{
    if !is_key(write.key.as_bytes()) {
        return Err(Fault::KeySize);
    }
    let value = Value::new(alloc, value)?;
    read_given(alloc, write, Some(value))
}

/// What a delete is given.
pub(crate) fn read_delete(alloc: Global, write: &Write) -> Result<Given, Fault>
    ensures ok { IfOk result (λ given. IsGiven write.now.key.now
        (option_map (λ s. s.now) write.now.context) None given) }
    ensures key_size { IsErrOf result Fault.KeySize ↔ ¬ (IsKey write.now.key.now) }
    ensures only { IfErr result (IsGivenRefused write.now.key.now
        (option_map (λ s. s.now) write.now.context)) }
{
    read_given(alloc, write, None)
}

/// The key of a get or a show.
pub(crate) fn read_key(alloc: Global, text: &str) -> Result<Key, Fault>
    ensures { IsKeyJudged text.now result }
{
    Key::new(alloc, text.as_bytes())
}

// Whether the bytes are a key's.
fn is_key(bytes: &[u8]) -> bool
    ensures { IsTrue result ↔ IsKey bytes.now }
{
    !bytes.is_empty() && bytes.len() <= MAX_KEY_BYTES
}

// What is given beside the value.
#[inline(always)]
fn read_given(alloc: Global, write: &Write, value: Option<Value>) -> Result<Given, Fault>
    ensures ok { IfOk result (λ given. IsGiven write.now.key.now
        (option_map (λ s. s.now) write.now.context) value given) }
    ensures key_size { IsErrOf result Fault.KeySize ↔ ¬ (IsKey write.now.key.now) }
    ensures only { IfErr result (IsGivenRefused write.now.key.now
        (option_map (λ s. s.now) write.now.context)) }
{
    let key = Key::new(alloc, write.key.as_bytes())?;
    let context = match write.context {
        Some(text) => Context::read_text(alloc, text)?,
        None => Context::new(alloc),
    };
    Ok(Given {
        key,
        context,
        value,
    })
}
