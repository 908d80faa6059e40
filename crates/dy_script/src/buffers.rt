use json::Scratch;
use std::alloc::Global;

/// What reading takes beside the bytes, to be kept from line to line. Texts with escapes are
/// written there, and what was read borrows them.
#[derive(Drop)]
pub struct Buffers {
    // Of what is read member by member.
    pub(crate) told: Scratch,
    // Of what is read into a tree.
    pub(crate) whole: Scratch,
}

impl Buffers {
    /// Takes no memory. They grow to the longest bytes that are read.
    pub fn new(alloc: Global) -> Buffers {
        Buffers {
            told: Scratch::new(alloc),
            whole: Scratch::new(alloc),
        }
    }
}
