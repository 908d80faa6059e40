ghost use Rattle.std.specs.Prelude.{◌≡◌, ◌≤◌, ◌↔◌, [], length, IsTrue, IfOk, IsOk};
ghost use Rattle.dy_core.specs.{
  Worlds.{is_issued, layout_of},
  Logs.{IsLegal, world_after},
  Listings.{ListsHoldings, ListsAcks},
};

use crate::acks::Acked;
use crate::holdings::Holding;
use crate::issuing;
use crate::steps::Step;
use dy_dots::{Dot, Fault, NodeId};
use dy_ring::Ring;
use dy_siblings::{Key, Version};
use std::alloc::Global;
use std::marker::Model;

/// The world after a legal log, kept as plain lists. It is seen as its ring, the number of homes of
/// a key, and the log's steps.
#[derive(Debug, Drop)]
pub struct World {
    pub(crate) ring: Ring,
    pub(crate) n: u8,
    pub(crate) versions: Vec<Version>,
    pub(crate) held: Vec<Holding>,
    pub(crate) acked: Vec<Acked>,
    pub(crate) steps: Vec<Step>,
}

impl Model for World {
    ghost use Rattle.dy_core.specs.Logs.{Log, log_code};

    ghost Value = { Log };

    ghost coded = { log_code };

    ghost use Rattle.dy_core.specs.inside.Meanings.{IsInside};

    ghost view = { λ w. record { ring = w.ring; n = w.n; steps = w.steps.items } };

    ghost invariant = { λ w.
        IsInside w.ring w.n w.steps.items w.versions.items w.held.items w.acked.items };
}

impl World {
    /// The empty world of a ring on which each key has n homes.
    pub fn new(alloc: Global, ring: Ring, n: u8) -> Result<World, Fault>
        requires some { 1 ≤ n }
        requires enough { n ≤ ring.nodes }
        ensures ok { IsOk result }
        ensures value { IfOk result (λ world. world ≡ record { ring = ring; n = n; steps = [] }) }
    {
        Ok(World {
            ring,
            n,
            versions: Vec::new(alloc),
            held: Vec::new(alloc),
            acked: Vec::new(alloc),
            steps: Vec::new(alloc),
        })
    }

    /// The ring. Takes no memory.
    pub fn ring(&self) -> &Ring
        ensures { result.now ≡ self.now.ring }
    {
        &self.ring
    }

    /// How many homes a key has. Takes no memory.
    pub fn n(&self) -> u8
        ensures value { result ≡ self.now.n }
        ensures some { 1 ≤ self.now.n }
        ensures enough { self.now.n ≤ self.now.ring.nodes }
        ensures legal { IsLegal (layout_of self.now.ring self.now.n) self.now.steps }
    {
        self.n
    }

    /// How many steps were applied. Takes no memory.
    pub fn steps(&self) -> usize
        ensures { result ≡ length self.now.steps }
    {
        self.steps.len()
    }

    /// What is held, by holder, home and the bytes of the key. Takes no memory.
    pub fn held(&self) -> &[Holding]
        ensures { ListsHoldings (world_after self.now.steps) result.now }
    {
        self.held.as_slice()
    }

    /// The acks, by the bytes of the key, dot and w. Takes no memory.
    pub fn acked(&self) -> &[Acked]
        ensures { ListsAcks (world_after self.now.steps) result.now }
    {
        self.acked.as_slice()
    }

    /// Whether a version of this key and dot was made. Takes no memory.
    pub fn is_issued(&self, key: &Key, dot: Dot) -> bool
        ensures { result ≡ is_issued (world_after self.now.steps).versions key.now dot }
    {
        issuing::is_among(self.versions.as_slice(), key, dot)
    }
}
