ghost use Rattle.std.specs.Prelude.{◌≡◌, ◌≤◌, ◌+◌, ◌*◌};

use dy_book::Audit;
use dy_plans::Storm;
use std::fmt;

/// How many puts were acknowledged, how many gets were answered, and how many of both were refused.
#[derive(Clone, Copy, Debug, PartialEq, Eq)]
pub struct Counts {
    pub acked: u128,
    pub gets: u128,
    pub refused: u128,
}

impl Counts {
    /// What the audit of the storm's cluster counts. What its turns made beside it was refused.
    pub(crate) fn of(plan: Storm, audit: &Audit) -> Counts
        requires most { audit.now.acks + audit.now.gets ≤ 2 * plan.threads * plan.puts }
        ensures acked { result.acked ≡ audit.now.acks }
        ensures gets { result.gets ≡ audit.now.gets }
        ensures all { result.acked + result.gets + result.refused
            ≡ 2 * plan.threads * plan.puts }
    {
        let all = 2 * u128::from(plan.threads) * u128::from(plan.puts);
        Counts {
            acked: audit.acks,
            gets: audit.gets,
            refused: all - audit.acks - audit.gets,
        }
    }
}

impl fmt::Display for Counts {
    ghost use Rattle.std.specs.Prelude.{Some};
    ghost use Rattle.dy_storm.specs.Lines.{counts_text};

    ghost output = { λ counts. Some (counts_text counts.acked counts.gets counts.refused) };

    fn fmt<W: fmt::Write>(&self, f: &mut fmt::Formatter<W>) -> fmt::Result {
        write!(f, "end acked {} gets {}", self.acked, self.gets)?;
        write!(f, " refused {}", self.refused)
    }
}
