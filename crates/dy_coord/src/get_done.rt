ghost use Rattle.std.specs.{Prelude.{◌≡◌, ◌↔◌, map, IfOk, IsOkUnless, IsTrue}, List.{All}};
ghost use Rattle.dy_siblings.specs.Siblings.{IsSiblingSet, present_values};
ghost use Rattle.dy_coord.specs.Sure.{IsSureOf};

use crate::put_results::PutDone;
use dy_book::Options;
use dy_core::{AnswerVec, Place, PlaceVec};
use dy_dots::{Context, Dot, Fault};
use dy_shares::{Naming, Receipt, Seen};
use dy_siblings::{Key, Row, Value};
use std::alloc::Global;

/// A get that was answered. It has the merged row and its context, and how many steps its session
/// knew of before it. `from` says where the used rows come from, `seen` has each row that came, and
/// `answers` each answer that was read.
#[derive(Drop)]
pub struct GetDone<J: Naming> {
    pub row: Row,
    pub context: Context,
    pub since: usize,
    pub from: PlaceVec,
    pub seen: Vec<Seen<J>>,
    pub answers: AnswerVec,
}

impl<J: Naming> GetDone<J> {
    /// The present values, each with its dot, in the order of the dots.
    pub fn values(&self, alloc: Global) -> Result<Vec<(Dot, &Value)>, Fault>
        ensures ok { IfOk result (λ values.
            map (λ p. (p.0, p.1.now)) values.items ≡ present_values self.now.row.versions) }
        ensures order { IsSiblingSet self.now.row.key self.now.row.versions }
        ensures memory { IsOkUnless result Fault.OutOfMemory }
    {
        // The versions of a row lie in the order of their dots.
        let _versions = self.row.versions();
        self.row.values(alloc)
    }

    /// Whether homes themselves gave the rows that it used, and no stand-in. Takes no memory.
    pub fn is_of_homes(&self) -> bool
        ensures { IsTrue result ↔ All (λ place. place.holder ≡ place.home) self.now.from.items }
    {
        are_of_homes(self.from.as_slice())
    }

    /// Whether it is sure to have the put's version, or one that causally follows it, in a cluster
    /// of these options. If not, it may have it all the same. Takes no memory.
    pub fn sees(&self, put: &PutDone<J>, options: &Options) -> bool
        ensures { IsTrue result ↔ IsSureOf options.now.n self.now put.now }
    {
        let homes = self.from.len().saturating_add(put.homes_themselves());
        usize::from(options.n) < homes
            && put.at <= self.since
            && self.is_of_homes()
            && are_of_key(put.spent.as_slice(), self.row.key())
    }
}

// Whether each of these places is of a home itself.
fn are_of_homes(places: &[Place]) -> bool
    ensures { IsTrue result ↔ All (λ place. place.holder ≡ place.home) places.now }
{
    for place in places {
        if place.holder != place.home {
            return false;
        }
    }
    true
}

// Whether each of these receipts is of the key.
fn are_of_key<J: Naming>(receipts: &[Receipt<J>], key: &Key) -> bool
    ensures { IsTrue result ↔ All (λ receipt. receipt.key ≡ key.now) receipts.now }
{
    for receipt in receipts {
        if receipt.key() != key {
            return false;
        }
    }
    true
}
