ghost use Rattle.std.specs.{
  Prelude.{◌≡◌, ℕ, ◌+◌, ◌<◌, ◌≤◌, ◌++◌, max, nat_eq, map, length, List, [], OnOk, OnErr},
  Prelude.{IsOkUnless, vec_len, vec_capacity},
  List.{All, IsDistinct},
};
ghost use mathlib.Core.List.{IsPrefix};
ghost use Rattle.dy_core.specs.Logs.{Answer, IsAnswer};
ghost use Rattle.std.specs.Prelude.{slice_set};
ghost use Rattle.dy_shares.specs.{
  inside.Agreeing.{retired},
  inside.Parts.{AgreesAsSession, held},
  Numbers.{AreNumbersOf},
  Shares.{first_session, greatest, since_of, steps_of, with_get},
};

use crate::chronicles::{Chronicle, Front};
use crate::names::Naming;
use crate::parts::{Roll, Share};
use crate::receipts::Receipt;
use crate::seen::Seen;
use crate::since::Since;
use crate::step_numbers::StepNumbers;
use dy_dots::Fault;
use std::alloc::Global;
use std::marker::Model;
use std::snapshot::Snapshot;

// What was spent for an ack that the session was told. It has no bytes.
#[derive(Drop)]
pub struct Spent<J: Naming> {
    receipts: Snapshot<Vec<Receipt<J>>>,
}

impl<J: Naming> Model for Spent<J> {
    ghost use Rattle.std.specs.Prelude.{List};
    ghost use Rattle.dy_shares.specs.{Shares.{ReceiptParts}, Codes.{spent_code}};

    ghost Value = { List ReceiptParts };

    ghost coded = { spent_code };

    ghost view = { λ s. s.receipts.value.items };
}

impl<J: Naming> Spent<J> {
    // Just these receipts.
    pub(crate) fn of(receipts: &Vec<Receipt<J>>) -> Spent<J>
        ensures { result ≡ receipts.now.items }
    {
        Spent {
            receipts: Snapshot::of(receipts),
        }
    }
}

// A get as the session was told it, behind so many acks. It has no bytes.
#[derive(Drop)]
pub struct Get<J: Naming> {
    since: Snapshot<usize>,
    seens: Snapshot<Vec<Seen<J>>>,
    acks: Snapshot<usize>,
}

impl<J: Naming> Model for Get<J> {
    ghost use Rattle.dy_shares.specs.{Shares.{GetTold}, Codes.{get_told_code}};

    ghost Value = { GetTold };

    ghost coded = { get_told_code };

    ghost view = { λ g.
        record { since = g.since.value; answers = g.seens.value.items; acks = g.acks.value } };
}

impl<J: Naming> Get<J> {
    // Just these answers.
    fn of(since: usize, seens: &Vec<Seen<J>>, acks: usize) -> Get<J>
        ensures { result ≡ record { since = since; answers = seens.now.items; acks = acks } }
    {
        Get {
            since: Snapshot::of(&since),
            seens: Snapshot::of(seens),
            acks: Snapshot::of(&acks),
        }
    }
}

/// A session's share of a book: the acks and the gets that the session was told, each with its step
/// numbers. It can't be dropped or copied, and must be handed in.
pub struct SessionShare<J: Naming> {
    pub(crate) number: usize,
    pub(crate) share: Share<J>,
    pub(crate) spent: Vec<Spent<J>>,
    gets: Vec<Get<J>>,
    pub(crate) numbers: StepNumbers,
    pub(crate) since: usize,
    // A front at which receipts were seen to be spent for each ack, and each get to match the log.
    pub(crate) front: Front<J>,
}

impl<J: Naming> Model for SessionShare<J> {
    ghost use Rattle.dy_shares.specs.{
      inside.Parts.{IsSessionShare, told_parts},
      Shares.{SessionPart},
      Numbers.{AreNumbersOf},
      Codes.{session_part_code},
    };

    ghost Value = { SessionPart };

    ghost coded = { session_part_code };

    ghost view = { λ s. told_parts s.number s.share.part s.spent.items s.gets.items };

    ghost invariant = { λ s.
        IsSessionShare J.ring.nodes J.r s.share.index s.since s.front
        (told_parts s.number s.share.part s.spent.items s.gets.items)
        × AreNumbersOf s.numbers (told_parts s.number s.share.part s.spent.items s.gets.items) };
}

impl<J: Naming> SessionShare<J> {
    ghost use Rattle.dy_shares.specs.Shares.{AreSpent, GetMatches};

    // The share of a seat as its session's, which was told nothing yet.
    pub(crate) fn new(
        alloc: Global,
        number: usize,
        share: Share<J>,
        front: Front<J>,
    ) -> SessionShare<J>
        requires { share ≡ held (J.ring.nodes + number) [] }
        ensures { result ≡ first_session number }
    {
        SessionShare {
            number,
            share,
            spent: Vec::new(alloc),
            gets: Vec::new(alloc),
            numbers: StepNumbers::new(alloc),
            since: 0,
            front,
        }
    }

    /// The greatest step number that the session was told. Takes no memory.
    pub fn since(&self) -> Since<J>
        ensures { result ≡ since_of self.now }
    {
        Since::new(self.since, self.front.copied())
    }

    /// The number of the session, from 0. Takes no memory.
    pub fn session(&self) -> usize
        ensures { result ≡ self.now.session }
    {
        self.number
    }

    /// How many acks the session was told. Takes no memory.
    pub fn acks(&self) -> usize
        ensures { result ≡ length self.now.acks }
    {
        self.spent.len()
    }

    /// How many gets the session was told. Takes no memory.
    pub fn gets(&self) -> usize
        ensures { result ≡ length self.now.gets }
    {
        self.gets.len()
    }

    /// The step numbers that the session was told. Takes no memory.
    pub fn numbers(&self) -> &StepNumbers
        ensures { AreNumbersOf result.now self.now }
    {
        &self.numbers
    }

    /// Tells the session a get: its answers, as many as a get needs, of one key and distinct homes,
    /// each later than what the session was told before. It keeps their step numbers.
    pub fn note_get(&mut self, seens: Vec<Seen<J>>) -> Result<(), Fault>
        requires count { length seens.items ≡ J.r }
        requires one_key { (key : List ℕ) × All (λ a. a.key ≡ key) seens.items }
        requires homes { IsDistinct nat_eq (map (λ a. a.home) seens.items) }
        requires later { All (λ a. since_of self.old < a.at) seens.items }
        ensures ok { OnOk result
            (self.new ≡ with_get self.old (since_of self.old) seens.items) }
        ensures err { OnErr result (self.new ≡ self.old) }
        ensures memory { IsOkUnless result Fault.OutOfMemory }
    {
        self.note_get_lent(&seens)
    }

    /// `note_get` of answers that the caller goes on to use.
    pub fn note_get_lent(&mut self, seens: &Vec<Seen<J>>) -> Result<(), Fault>
        requires count { length seens.now.items ≡ J.r }
        requires one_key { (key : List ℕ) × All (λ a. a.key ≡ key) seens.now.items }
        requires homes { IsDistinct nat_eq (map (λ a. a.home) seens.now.items) }
        requires later { All (λ a. since_of self.old < a.at) seens.now.items }
        ensures ok { OnOk result
            (self.new ≡ with_get self.old (since_of self.old) seens.now.items) }
        ensures err { OnErr result (self.new ≡ self.old) }
        ensures memory { IsOkUnless result Fault.OutOfMemory }
    {
        self.gets.reserve(1)?;
        self.numbers.fetches.reserve(seens.len())?;
        let since = self.since;
        self.since = learn_all(&mut self.front, since, seens.as_slice());
        let acks = self.spent.len();
        push_numbers(&mut self.numbers.fetches, seens.as_slice());
        self.gets.push_reserved(Get::of(since, seens, acks));
        Ok(())
    }

    // The log as it stood, at which receipts were spent for each ack, and each get matches it.
    pub(crate) fn front(&self) -> &Front<J>
        ensures spent { AreSpent (steps_of result.now) self.now.acks self.now.spent }
        ensures gets { All (GetMatches (steps_of result.now) J.r) self.now.gets }
    {
        &self.front
    }

    // Compares the share with its seat of the roll, for the last time, and marks the seat; and what
    // was spent and its gets with the log.
    pub(crate) fn end(self, roll: &mut Roll<J>, chronicle: &mut Chronicle<J>)
        ensures chronicle { chronicle.new ≡ chronicle.old }
        ensures agrees { (a : AgreesAsSession J.ring.nodes J.r roll.old chronicle.old self)
            × (roll.new ≡ slice_set roll.old (J.ring.nodes + self.session) (retired a.part)) }
    {
        let SessionShare {
            number: _,
            share,
            spent: _,
            gets: _,
            numbers: _,
            since: _,
            front,
        } = self;
        roll.end(share);
        chronicle.learn(&front);
    }

    // Only a ledger that ends lets a share go.
    pub(crate) fn abandon(self) {
        let SessionShare {
            number: _,
            share,
            spent: _,
            gets: _,
            numbers: _,
            since: _,
            front: _,
        } = self;
        share.abandon();
    }
}

// Puts the numbers of the answers behind those that are there.
fn push_numbers<J: Naming>(numbers: &mut Vec<usize>, seens: &[Seen<J>])
    requires { vec_len numbers.old + length seens.now ≤ vec_capacity numbers.old }
    ensures { numbers.new.items ≡ numbers.old.items ++ map (λ a. a.at) seens.now }
{
    for seen in seens {
        numbers.push_reserved(seen.at());
    }
}

// Makes the front one at which all of the answers hold, and gives the greatest number.
fn learn_all<J: Naming>(front: &mut Front<J>, since: usize, seens: &[Seen<J>]) -> usize
    requires { since ≤ length front.old }
    ensures front { IsPrefix front.old front.new }
    ensures are { All (IsAnswer (steps_of front.new)) seens.now }
    ensures since { result ≡ max since (greatest (map (λ a. a.at) seens.now)) }
    ensures reached { result ≤ length front.new }
{
    let mut latest = since;
    for seen in seens {
        front.join(seen.front());
        latest = latest.max(seen.at());
    }
    latest
}
