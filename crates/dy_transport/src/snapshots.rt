ghost use Rattle.std.specs.Prelude.{◌≡◌};
ghost use Rattle.dy_transport.specs.Snapshots.{snapshot_of};

use std::snapshot::Snapshot;

// A snapshot of what is borrowed, for contracts alone: it has no bytes.
pub(crate) fn show<T>(x: &T) -> Snapshot<T>
    ensures { result ≡ snapshot_of x.now }
{
    Snapshot::of(x)
}
