// What a client writes: its keys and its values.
ghost use Rattle.std.specs.Prelude.{◌≡◌, IfOk};
ghost use Rattle.dy_storm.specs.Words.{key_text, value_text};

use dy_clients::{Fault, Key, Value};
use std::alloc::Global;

/// The keys and the values of a client. Their texts are written in one room, turn after turn.
#[derive(Drop)]
pub(crate) struct Words {
    alloc: Global,
    text: String,
}

impl Words {
    /// No text yet. Takes no memory.
    pub fn new(alloc: Global) -> Words {
        Words {
            alloc,
            text: String::new(alloc),
        }
    }

    /// The key of this number.
    pub fn key_of(&mut self, number: u32) -> Result<Key, Fault>
        ensures { IfOk result (λ key. key ≡ key_text number) }
    {
        self.text.clear();
        write!(self.text, "k{number}")?;
        Key::new(self.alloc, self.text.as_bytes())
    }

    /// What a client puts in a turn.
    pub fn value_of(&mut self, client: usize, turn: u32) -> Result<Value, Fault>
        ensures { IfOk result (λ value. value ≡ value_text client turn) }
    {
        self.text.clear();
        write!(self.text, "t{client}-{turn}")?;
        Value::new(self.alloc, self.text.as_bytes())
    }
}
