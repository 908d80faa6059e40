// Copies of steps as a book keeps them.
ghost use Rattle.std.specs.Prelude.{◌≡◌, ◌≤◌, IfOk, IsOkUnless, drop, length};
ghost use Rattle.dy_cluster.specs.inside.Copies.{AreCopies, IsCopy};

use dy_dots::Fault;
use dy_shares::KeptStep;
use std::alloc::Global;

// A copy of the step.
fn copy_of(alloc: Global, step: &KeptStep) -> Result<KeptStep, Fault>
    ensures ok { IfOk result (IsCopy step.now) }
    ensures memory { IsOkUnless result Fault.OutOfMemory }
{
    match step {
        KeptStep::Issued { version } => {
            let version = version.try_clone(alloc)?;
            Ok(KeptStep::Issued { version })
        }
        KeptStep::Held { place, run, key } => {
            let (place, run) = (*place, *run);
            let key = key.try_clone(alloc)?;
            Ok(KeptStep::Held { place, run, key })
        }
        KeptStep::HeldRuns { place, key, dots } => {
            let place = *place;
            let key = key.try_clone(alloc)?;
            let dots = dots.try_clone(alloc)?;
            let dots = Box::new(alloc, dots)?;
            Ok(KeptStep::HeldRuns { place, key, dots })
        }
        KeptStep::Released { place, dot, key } => {
            let (place, dot) = (*place, *dot);
            let key = key.try_clone(alloc)?;
            Ok(KeptStep::Released { place, dot, key })
        }
        KeptStep::Fetched { place, key } => {
            let place = *place;
            let key = key.try_clone(alloc)?;
            Ok(KeptStep::Fetched { place, key })
        }
        KeptStep::Acked { w, dot, key } => {
            let (w, dot) = (*w, *dot);
            let key = key.try_clone(alloc)?;
            Ok(KeptStep::Acked { w, dot, key })
        }
    }
}

// Copies of the steps.
pub(crate) fn copies_of(alloc: Global, steps: &[KeptStep]) -> Result<Vec<KeptStep>, Fault>
    ensures ok { IfOk result (λ copies. AreCopies steps.now copies.items) }
    ensures memory { IsOkUnless result Fault.OutOfMemory }
{
    let mut copies = Vec::with_capacity(alloc, steps.len())?;
    for step in steps {
        copies.push(copy_of(alloc, step)?)?;
    }
    Ok(copies)
}

// The steps behind so many.
pub(crate) fn rest_of(steps: &[KeptStep], count: usize) -> &[KeptStep]
    requires { count ≤ length steps.now }
    ensures { result.now ≡ drop count steps.now }
{
    &steps[count..]
}
