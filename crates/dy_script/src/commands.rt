use dy_modes::Mode;
use std::borrow::CowSlice;

/// The value of a put, of any size: the bytes of a text, or those that hexadecimal digits spelled.
pub type Payload<'a> = CowSlice<'a, u8>;

/// What a put and a delete say beside the value.
#[derive(Debug, Drop)]
pub struct Write<'a> {
    pub key: &'a str,
    /// The text of the context, where one is given.
    pub context: Option<&'a str>,
    pub session: u8,
    /// How many homes must have it, where the script's own number is not to hold.
    pub w: Option<u8>,
}

/// One command of a script. It borrows its texts from where it was read. Sizes of keys and values
/// and the syntax of contexts are judged when the command runs.
#[derive(Debug, Drop)]
pub enum Command<'a> {
    Put {
        write: Write<'a>,
        value: Payload<'a>,
    },
    Delete {
        write: Write<'a>,
    },
    Get {
        key: &'a str,
        session: u8,
    },
    Down {
        node: usize,
    },
    Up {
        node: usize,
    },
    SetMode {
        node: usize,
        mode: Mode,
    },
    Deliver {
        node: usize,
    },
    Handoff {
        node: usize,
    },
    Show {
        node: usize,
        key: &'a str,
    },
}
