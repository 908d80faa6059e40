ghost use Rattle.std.specs.Prelude.{◌≡◌, IfOk, IsOkUnless};
ghost use Rattle.dy_core.specs.{
  Orders.{place_cmp, gathered},
  Listings.{is_covering, place_of},
  declared.holdings.Holding.{Holding as HoldingParts},
};

use crate::lists;
use crate::places::Place;
use dy_dots::{Dot, Fault};
use dy_siblings::Key;
use std::alloc::Global;

/// What stands at a place: what its holder holds for its home, of one key.
pub trait Placed {
    ghost holding: { Self → HoldingParts };

    /// Its holder and its home.
    fn place(&self) -> Place
        ensures { result ≡ place_of (holding self.now) };

    /// Whether it is of the key and covers the dot. Takes no memory.
    fn is_covering(&self, key: &Key, dot: Dot) -> bool
        ensures { result ≡ is_covering key.now dot (holding self.now) };
}

/// The places whose row covers the dot, by home and holder.
pub fn covering<T: Placed>(
    alloc: Global,
    held: &[T],
    key: &Key,
    dot: Dot,
) -> Result<Vec<Place>, Fault>
    ensures ok { IfOk result (λ places. places.items ≡ gathered place_cmp
        (λ t. is_covering key.now dot (T.holding t)) (λ t. place_of (T.holding t)) held.now) }
    ensures memory { IsOkUnless result Fault.OutOfMemory }
{
    let mut places = Vec::new(alloc);
    for item in held {
        if item.is_covering(key, dot) {
            lists::put(&mut places, item.place())?;
        }
    }
    Ok(places)
}
