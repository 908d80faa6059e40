ghost use Rattle.std.specs.Prelude.{◌↔◌, true, ◌≡◌};
ghost use Rattle.dy_dots.specs.declared.dots.TheConstants.{MAX_COUNTER};
ghost use Rattle.dy_book.specs.declared.options.TheConstants.{MAX_VERSIONS, MAX_STEPS};

use dy_dots::MAX_COUNTER;

/// How many versions a book issues at most.
pub const MAX_VERSIONS: usize = 100_000;

/// How many steps a book makes at most.
pub const MAX_STEPS: usize = 1_000_000;

/// The numbers of a quorum and the limits of a book. A key has `n` homes, and a get needs `r`
/// answers. `w` is the number of homes of a put that names none of its own.
#[derive(Clone, Copy, Debug, PartialEq, Eq)]
pub struct Options {
    pub n: u8,
    pub r: u8,
    pub w: u8,
    pub counter_limit: u32,
    pub versions_limit: usize,
    pub steps_limit: usize,
}

impl Options {
    ghost use Rattle.dy_book.specs.Limits.{AreLimits, IsQuorum};

    /// The options with these numbers of homes a key, answers a get and homes a put, and the
    /// greatest limits.
    pub const fn of(n: u8, r: u8, w: u8) -> Options
        ensures numbers { (result.n ≡ n) × (result.r ≡ r) × (result.w ≡ w) }
        ensures counters { result.counter_limit ≡ MAX_COUNTER }
        ensures versions { result.versions_limit ≡ MAX_VERSIONS }
        ensures steps { result.steps_limit ≡ MAX_STEPS }
    {
        Options {
            n,
            r,
            w,
            counter_limit: MAX_COUNTER,
            versions_limit: MAX_VERSIONS,
            steps_limit: MAX_STEPS,
        }
    }

    /// Whether each limit is in its range. Takes no memory.
    pub fn has_limits(&self) -> bool
        ensures { (result ≡ true) ↔ AreLimits self.now }
    {
        1 <= self.counter_limit
            && self.counter_limit <= MAX_COUNTER
            && 1 <= self.versions_limit
            && self.versions_limit <= MAX_VERSIONS
            && 1 <= self.steps_limit
            && self.steps_limit <= MAX_STEPS
    }

    /// Whether w and r are from 1 to n, and n is no more than these nodes. Takes no memory.
    pub fn is_quorum(&self, nodes: u8) -> bool
        ensures { (result ≡ true) ↔ IsQuorum self.now nodes }
    {
        1 <= self.w && self.w <= self.n && self.n <= nodes && 1 <= self.r && self.r <= self.n
    }
}
