use dy_core::Place;
use dy_dots::Dot;
use dy_siblings::{Key, Row, Version};

// What a step says, its parts lent.
#[derive(Clone, Copy, Drop)]
pub enum Said<'a> {
    Issued {
        version: &'a Version,
    },
    Held {
        place: Place,
        row: &'a Row,
    },
    Released {
        place: Place,
        key: &'a Key,
        dot: Dot,
    },
    Fetched {
        place: Place,
        key: &'a Key,
    },
    Acked {
        key: &'a Key,
        dot: Dot,
        w: u8,
    },
}
