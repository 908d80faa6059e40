ghost use Rattle.std.specs.Prelude.{◌≡◌, IfOk, IsOkUnless};
ghost use Rattle.dy_core.specs.declared.steps.Step.TheVariants.{Issue, Hold, Release, Fetch, Ack};
ghost use Rattle.dy_dots.specs.{Dots.{IsDot}, Runs.{single}};
ghost use Rattle.dy_shares.specs.Trails.{Keeps};

use crate::kept_steps::KeptStep;
use crate::said::Said;
use dy_core::Place;
use dy_dots::{Dot, Fault, Run};
use dy_siblings::{Key, Row, Version};
use std::alloc::Global;
use std::marker::Model;

/// A step whose parts are lent.
#[derive(Drop)]
pub struct StepRef<'a> {
    said: Said<'a>,
}

impl<'a> Model for StepRef<'a> {
    ghost use Rattle.dy_core.specs.declared.steps.Step.{Step};
    ghost use Rattle.dy_shares.specs.{Codes.{step_code}, inside.Said.{step_said}};

    ghost Value = { Step };

    ghost coded = { step_code };

    ghost view = { λ s. step_said s.said };
}

// The run that has this dot alone.
fn run_of(dot: Dot) -> Run
    ensures value { result ≡ single dot }
    ensures valid { IsDot dot }
{
    Run {
        node: dot.node(),
        first: dot.counter(),
        last: dot.counter(),
    }
}

// The hold of the row in the form that is kept.
fn keep_hold(alloc: Global, place: Place, row: &Row) -> Result<KeptStep, Fault>
    ensures ok { IfOk result (λ kept. Keeps kept (Hold place row.now)) }
    ensures memory { IsOkUnless result Fault.OutOfMemory }
{
    // Each version of a row is of its key.
    let versions = row.versions();
    let key = row.key().try_clone(alloc)?;
    if let [version] = versions {
        let run = run_of(version.dot());
        return Ok(KeptStep::Held { place, run, key });
    }
    let dots = row.dots(alloc)?;
    if let [run] = dots.runs() {
        return Ok(KeptStep::Held {
            place,
            run: *run,
            key,
        });
    }
    let dots = Box::new(alloc, dots)?;
    Ok(KeptStep::HeldRuns { place, key, dots })
}

impl<'a> StepRef<'a> {
    /// The node of its dot makes the version; the context is its whole past. Takes no memory.
    pub fn issue(version: &'a Version) -> StepRef<'a>
        ensures { result ≡
            Issue version.now.dot.node version.now.key version.now.past version.now.value }
    {
        StepRef {
            said: Said::Issued { version },
        }
    }

    /// The holder merges the row into what it holds for the home. Takes no memory.
    pub fn hold(place: Place, row: &'a Row) -> StepRef<'a>
        ensures { result ≡ Hold place row.now }
    {
        StepRef {
            said: Said::Held { place, row },
        }
    }

    /// The holder gives up one dot of the hint that it keeps for the home. Takes no memory.
    pub fn release(place: Place, key: &'a Key, dot: Dot) -> StepRef<'a>
        ensures { result ≡ Release place key.now dot }
    {
        StepRef {
            said: Said::Released { place, key, dot },
        }
    }

    /// The holder answers the row that it holds for the home. Takes no memory.
    pub fn fetch(place: Place, key: &'a Key) -> StepRef<'a>
        ensures { result ≡ Fetch place key.now }
    {
        StepRef {
            said: Said::Fetched { place, key },
        }
    }

    /// A put is told that w homes have its version. Takes no memory.
    pub fn ack(key: &'a Key, dot: Dot, w: u8) -> StepRef<'a>
        ensures { result ≡ Ack key.now dot w }
    {
        StepRef {
            said: Said::Acked { key, dot, w },
        }
    }

    // The step in the form that is kept.
    pub(crate) fn kept(&self, alloc: Global) -> Result<KeptStep, Fault>
        ensures ok { IfOk result (λ kept. Keeps kept self.now) }
        ensures memory { IsOkUnless result Fault.OutOfMemory }
    {
        match &self.said {
            Said::Issued { version } => {
                let version = version.try_clone(alloc)?;
                Ok(KeptStep::Issued { version })
            }
            Said::Held { place, row } => keep_hold(alloc, *place, row),
            Said::Released { place, key, dot } => {
                let key = key.try_clone(alloc)?;
                Ok(KeptStep::Released {
                    place: *place,
                    dot: *dot,
                    key,
                })
            }
            Said::Fetched { place, key } => {
                let key = key.try_clone(alloc)?;
                Ok(KeptStep::Fetched { place: *place, key })
            }
            Said::Acked { key, dot, w } => {
                let key = key.try_clone(alloc)?;
                Ok(KeptStep::Acked {
                    key,
                    w: *w,
                    dot: *dot,
                })
            }
        }
    }
}
