use dy_dots::Context;
use dy_siblings::{Key, Value};

// What a put is to do: at w homes, it writes the value of the key, or none for a deletion, behind
// what the context names.
#[derive(Drop)]
pub(crate) struct PutTask<'a> {
    pub w: u8,
    pub key: &'a Key,
    pub context: &'a Context,
    pub value: Option<Value>,
}
