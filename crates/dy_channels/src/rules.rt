ghost use Rattle.std.specs.Prelude.{◌≡◌, ◌+◌, ⊤};

use crossbeam_channel::protocol::{Lesson, Outcome, Protocol, Split};

/// The rule of these channels. It forbids nothing, and each pass counts what went by it.
pub struct Counted;

impl<T> Protocol<T, u64> for Counted {
    ghost holds = { λ items views. ⊤ };

    ghost first = { 0 };
}

impl<T> Outcome<T, u64> for Counted {
    ghost then = { λ before item after. after ≡ before + 1 };
}

impl<T> Lesson<T, u64> for Counted {
    ghost fact = { λ count items. ⊤ };
}

/// Splits a pass off another one. The new one has sent nothing.
pub struct Apart;

impl Split<u64> for Apart {
    ghost left = { λ count. count };

    ghost right = { λ count. 0 };
}
