ghost use Rattle.std.specs.Prelude.{◌≡◌, ◌<◌, ◌≤◌, ◌++◌, ◌∷◌, [], ◌↔◌, ℕ, length, IsTrue, IfOk};
ghost use Rattle.std.specs.Prelude.{IsOkUnless, MatchBool};
ghost use Rattle.dy_dots.specs.declared.nodes.TheConstants.{MAX_NODES};
ghost use Rattle.dy_quorum.specs.{
  Tallies.{Counted, Agrees, DoAgree, FitsAll, IsChoice, CanChoose},
  declared.tallies.TheConstants.{MAX_RECEIPTS},
  inside.Counting.{firsts},
};

use arrayvec::ArrayVec;
use dy_dots::{Fault, MAX_NODES, NodeId};
use dy_shares::{Naming, Receipt};
use std::alloc::Global;
use std::marker::Model;

/// How many receipts a tally has room for: a put reads two answers of each node at most.
pub const MAX_RECEIPTS: usize = 64;

// Distinct homes, which lie in place: there are as many as nodes, at most.
type Homes = ArrayVec<NodeId, 32>;

/// The receipts of one put, and the homes among them. Among receipts that fit, a holder holds for
/// one home, so receipts of distinct homes have distinct holders, and it is enough to count homes.
#[derive(Drop)]
pub struct Tally<J: Naming> {
    w: usize,
    room: usize,
    added: Vec<Receipt<J>>,
    homes: Homes,
}

impl<J: Naming> Model for Tally<J> {
    ghost use Rattle.std.specs.{Prelude.{◌≡◌, ◌<◌, ◌≤◌, length, map, vec_capacity}, List.{All}};
    ghost use Rattle.dy_dots.specs.declared.nodes.TheConstants.{MAX_NODES};
    ghost use Rattle.dy_quorum.specs.{
      Tallies.{Counted, DoAgree},
      declared.tallies.TheConstants.{MAX_RECEIPTS},
      inside.Counting.{IsCount, firsts},
    };

    ghost Value = { Counted };

    ghost view = { λ t. record { w = t.w; room = t.room; added = t.added.items } };

    ghost invariant = { λ t.
        (t.homes.items ≡ map (λ r. r.home) (firsts t.added.items))
        × IsCount t.added.items (firsts t.added.items)
        × (length t.added.items ≤ t.room)
        × (t.room ≤ vec_capacity t.added)
        × All (λ r. r.home < MAX_NODES) t.added.items
        × DoAgree t.added.items };
}

fn agrees<J: Naming>(one: &Receipt<J>, other: &Receipt<J>) -> bool
    ensures { IsTrue result ↔ Agrees one.now other.now }
{
    one.key() == other.key()
        && one.dot() == other.dot()
        && (one.holder() != other.holder() || one.home() == other.home())
}

fn all_agree<J: Naming>(list: &[Receipt<J>], receipt: &Receipt<J>) -> bool
    ensures { IsTrue result ↔ FitsAll list.now receipt.now }
{
    for one in list {
        if !agrees(one, receipt) {
            return false;
        }
    }
    true
}

// Leaves the first receipt of each home, in their order.
fn first_of_each<J: Naming>(mut added: Vec<Receipt<J>>) -> Vec<Receipt<J>>
    ensures { result.items ≡ firsts added.items }
{
    let mut homes = Homes::new();
    let mut at = 0;
    while at < added.len() {
        let home = added[at].home();
        // It is a node's, so there are no more homes than places.
        let _number = home.number();
        if homes.contains(&home) {
            added.remove(at);
        } else {
            homes.push(home);
            at += 1;
        }
    }
    added
}

impl<J: Naming> Tally<J> {
    /// No receipts yet, of a put that needs w homes, and room for 64 of them.
    pub fn new(alloc: Global, w: usize) -> Result<Tally<J>, Fault>
        ensures memory { IsOkUnless result Fault.OutOfMemory }
        ensures value { IfOk result (λ t. t ≡ record { w = w; room = MAX_RECEIPTS; added = [] }) }
    {
        Tally::with_room(alloc, w, MAX_RECEIPTS)
    }

    /// The same, with room for so many of them.
    pub fn with_room(alloc: Global, w: usize, room: usize) -> Result<Tally<J>, Fault>
        ensures memory { IsOkUnless result Fault.OutOfMemory }
        ensures value { IfOk result (λ t. t ≡ record { w = w; room = room; added = [] }) }
    {
        let added = Vec::with_capacity(alloc, room)?;
        Ok(Tally {
            w,
            room,
            added,
            homes: Homes::new(),
        })
    }

    /// Whether each receipt added has this one's key and dot, and none has its holder with another
    /// home. Takes no memory.
    pub fn fits(&self, receipt: &Receipt<J>) -> bool
        ensures { IsTrue result ↔ FitsAll self.now.added receipt.now }
    {
        all_agree(&self.added, receipt)
    }

    /// Whether there is no room for one more. Takes no memory.
    pub fn is_full(&self) -> bool
        ensures { MatchBool result
            (length self.now.added ≡ self.now.room) (length self.now.added < self.now.room) }
    {
        self.added.len() == self.room
    }

    /// Adds the receipt. Takes no memory.
    pub fn add(&mut self, receipt: Receipt<J>)
        requires fits { FitsAll self.old.added receipt }
        requires room { length self.old.added < self.old.room }
        ensures value { self.new ≡ record {
          w = self.old.w;
          room = self.old.room;
          added = self.old.added ++ receipt ∷ [];
        } }
        ensures agree { DoAgree self.new.added }
    {
        let home = receipt.home();
        // It is a node's, so there are no more homes than places.
        let _number = home.number();
        if !self.homes.contains(&home) {
            self.homes.push(home);
        }
        self.added.push_reserved(receipt);
    }

    /// Whether w receipts of distinct homes and distinct holders can be chosen from those added.
    /// Takes no memory.
    pub fn ready(&self) -> bool
        ensures { IsTrue result ↔ CanChoose self.now.w self.now.added }
    {
        if self.w <= self.homes.len() {
            return true;
        }
        false
    }

    /// Such w receipts. Takes no memory.
    pub fn into_receipts(self) -> Vec<Receipt<J>>
        requires { CanChoose self.w self.added }
        ensures choice { IsChoice self.w self.added result.items }
        ensures agree { DoAgree result.items }
    {
        let Tally {
            w,
            room: _,
            added,
            homes: _,
        } = self;
        let mut first = first_of_each(added);
        first.truncate(w);
        first
    }
}
