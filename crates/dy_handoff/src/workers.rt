ghost use Rattle.std.specs.Prelude.{◌≡◌, ◌<◌, ◌≤◌, ◌+◌, ◌^◌, ℕ, IfOk};

use crate::counts::Pass;
use dy_dots::Fault;
use std::sync::Wait;

/// What a worker makes its passes with: each pass wants a transport of its own.
pub trait Passing {
    // How many passes were made, those that were refused among them.
    ghost made: { Self → ℕ };

    /// Makes a pass, which counts whether it is refused or not. May wait for locks and for answers.
    fn pass_once<R: Wait>(&mut self, rt: &R) -> Result<Pass, Fault>
        requires few { made self.old + 1 < 2 ^ 64 }
        ensures made { made self.new ≡ made self.old + 1 }
        ensures fewer { IfOk result (λ done. done.stored ≤ done.offers) };
}

/// Makes so many passes, one after another. What a pass was refused for is not told: the next one
/// tries again. May wait for locks and for answers.
pub fn worker<P: Passing, R: Wait>(rt: &R, passing: &mut P, passes: u64)
    requires { P.made passing.old + passes < 2 ^ 64 }
    ensures { P.made passing.new ≡ P.made passing.old + passes }
{
    for _ in 0..passes {
        let _done = passing.pass_once(rt);
    }
}
