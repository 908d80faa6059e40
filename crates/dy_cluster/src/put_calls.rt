use dy_dots::Context;
use dy_siblings::{Key, Value};

// What a put is called with: the key, what it names, the value, or none for a deletion, and at how
// many homes.
#[derive(Drop)]
pub(crate) struct PutCall<'a> {
    pub key: &'a Key,
    pub context: &'a Context,
    pub value: Option<Value>,
    pub w: u8,
}
