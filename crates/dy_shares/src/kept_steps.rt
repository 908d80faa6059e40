use dy_core::Place;
use dy_dots::{Context, Dot, Run};
use dy_siblings::{Key, Version};

/// A step as the trail keeps it, in 32 bytes: fields lie in their order here, so the small ones
/// come first. Of a row it keeps the dots alone: of one key and one dot a log makes one version.
#[derive(Debug, Drop)]
pub enum KeptStep {
    /// The node of its dot made the version.
    Issued {
        version: Version,
    },
    /// The holder merged the row of this one run of dots into what it holds for the home.
    Held {
        place: Place,
        run: Run,
        key: Key,
    },
    /// The same of a row whose dots are several runs, or none.
    HeldRuns {
        place: Place,
        key: Key,
        dots: Box<Context>,
    },
    /// The holder gave up one dot of the hint that it keeps for the home.
    Released {
        place: Place,
        dot: Dot,
        key: Key,
    },
    /// The holder answered the row that it holds for the home.
    Fetched {
        place: Place,
        key: Key,
    },
    /// A put was told that w homes have its version.
    Acked {
        w: u8,
        dot: Dot,
        key: Key,
    },
}
