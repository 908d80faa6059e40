ghost use Rattle.std.specs.{
  Prelude.{◌≡◌, ◌<◌, ◌≤◌, ◌++◌, ◌∷◌, [], length, map, take, IfOk, IsOkUnless, MatchBool, ◌==◌},
  Prelude.{◌↔◌, IsTrue},
  List.{list_any},
};
ghost use Rattle.dy_quorum.specs.Gatherings.{answer_place, first_answers};

use dy_core::{Place, PlaceVec};
use dy_dots::{Fault, NodeId};
use dy_shares::{Naming, Seen};
use std::alloc::Global;
use std::marker::Model;

/// The answers of one get, and the first of each home among them: a home that answers twice, as by
/// a stand-in and then itself, counts once.
#[derive(Drop)]
pub struct Gathering<J: Naming> {
    r: usize,
    room: usize,
    seens: Vec<Seen<J>>,
    places: PlaceVec,
}

impl<J: Naming> Model for Gathering<J> {
    ghost use Rattle.std.specs.{Prelude.{◌≡◌, ◌<◌, ◌≤◌, length, map, vec_capacity}, List.{All}};
    ghost use Rattle.dy_dots.specs.declared.nodes.TheConstants.{MAX_NODES};
    ghost use Rattle.dy_quorum.specs.{
      Firsts.{AreFirstsBy},
      Gatherings.{Gathered, answer_place, first_answers, gathered_code},
    };

    ghost Value = { Gathered };

    ghost coded = { gathered_code };

    ghost view = { λ g. record { r = g.r; room = g.room; seens = g.seens.items } };

    ghost invariant = { λ g.
        (g.places.items ≡ map answer_place (first_answers g.seens.items))
        × AreFirstsBy (λ a. a.home) g.seens.items (first_answers g.seens.items)
        × (length g.seens.items ≤ g.room)
        × (g.room ≤ vec_capacity g.seens)
        × All (λ a. a.home < MAX_NODES) g.seens.items };
}

// Whether one of the places is for the home.
fn has_home(places: &[Place], home: NodeId) -> bool
    ensures { result ≡ list_any (λ p. p.home == home) places.now }
{
    places.iter().any(|place| place.home == home)
}

// Whether one of the answers is of the home.
fn has_answer<J: Naming>(seens: &[Seen<J>], home: NodeId) -> bool
    ensures { result ≡ list_any (λ a. a.home == home) seens.now }
{
    seens.iter().any(|seen| seen.home() == home)
}

// Copies the first answer of each home.
fn copy_firsts<J: Naming>(
    alloc: Global,
    seens: &[Seen<J>],
    chosen: &mut Vec<Seen<J>>,
) -> Result<(), Fault>
    requires none_chosen { chosen.old.items ≡ [] }
    ensures value { IfOk result (λ _. chosen.new.items ≡ first_answers seens.now) }
    ensures memory { IsOkUnless result Fault.OutOfMemory }
{
    for seen in seens {
        if !has_answer(chosen, seen.home()) {
            chosen.push(seen.try_clone(alloc)?)?;
        }
    }
    Ok(())
}

impl<J: Naming> Gathering<J> {
    /// No answers yet, of a get that needs r homes, and room for so many.
    pub fn new(alloc: Global, r: usize, room: usize) -> Result<Gathering<J>, Fault>
        ensures value { IfOk result (λ g. g ≡ record { r = r; room = room; seens = [] }) }
        ensures memory { IsOkUnless result Fault.OutOfMemory }
    {
        let seens = Vec::with_capacity(alloc, room)?;
        Ok(Gathering {
            r,
            room,
            seens,
            places: PlaceVec::new(),
        })
    }

    /// Adds the answer. Takes no memory.
    pub fn add(&mut self, seen: Seen<J>)
        requires { length self.old.seens < self.old.room }
        ensures { self.new ≡ record {
          r = self.old.r;
          room = self.old.room;
          seens = self.old.seens ++ seen ∷ [];
        } }
    {
        let home = seen.home();
        let holder = seen.holder();
        // It is a node's, so there are no more homes than places.
        let _number = home.number();
        if !has_home(self.places.as_slice(), home) {
            self.places.push(Place { holder, home });
        }
        self.seens.push_reserved(seen);
    }

    /// Whether r homes have answered. Takes no memory.
    pub fn is_ready(&self) -> bool
        ensures { MatchBool result
            (self.now.r ≤ length (first_answers self.now.seens))
            (length (first_answers self.now.seens) < self.now.r) }
    {
        self.r <= self.places.len()
    }

    /// All answers, in the order in which they were added. Takes no memory.
    pub fn seens(&self) -> &Vec<Seen<J>>
        ensures { result.now.items ≡ self.now.seens }
    {
        &self.seens
    }

    /// Whether no home answered twice: then all answers are used, and none need be copied. Takes no
    /// memory.
    pub fn has_firsts_alone(&self) -> bool
        ensures { IsTrue result ↔ (first_answers self.now.seens ≡ self.now.seens) }
    {
        self.places.len() == self.seens.len()
    }

    /// Copies of the first answer of each home, in the order in which they were added.
    pub fn chosen(&self, alloc: Global) -> Result<Vec<Seen<J>>, Fault>
        ensures value { IfOk result (λ v. v.items ≡ first_answers self.now.seens) }
        ensures memory { IsOkUnless result Fault.OutOfMemory }
    {
        let mut chosen = Vec::with_capacity(alloc, self.places.len())?;
        copy_firsts(alloc, &self.seens, &mut chosen)?;
        Ok(chosen)
    }

    /// All answers, and where the first of each home comes from, both in the order in which they
    /// were added. Takes no memory.
    pub fn into_parts(self) -> (Vec<Seen<J>>, PlaceVec)
        ensures seens { result.0.items ≡ self.seens }
        ensures places { result.1.items ≡ map answer_place (first_answers self.seens) }
    {
        let Gathering {
            r: _,
            room: _,
            seens,
            places,
        } = self;
        (seens, places)
    }
}
