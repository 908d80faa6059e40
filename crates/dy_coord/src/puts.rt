ghost use Rattle.std.specs.Prelude.{◌≡◌, ◌<◌, ◌≤◌, ◌+◌, ◌*◌, [], ℕ, length, IsTrue, IfOk};
ghost use Rattle.std.specs.Prelude.{◌≢◌, IsOkUnless, IfErr, OnErr};
ghost use Rattle.dy_dots.specs.declared.faults.Fault.TheVariants as Fault;
ghost use Rattle.dy_dots.specs.{
  declared.faults.Fault.TheVariants.{NotEnough},
  declared.nodes.TheConstants.{MAX_NODES},
};
ghost use Rattle.dy_siblings.specs.Siblings.{has_dot};
ghost use Rattle.dy_preference.specs.Preferences.{IsPreferred, home_for, preference_of};
ghost use Rattle.dy_shares.specs.Shares.{receipt_parts};
ghost use Rattle.dy_book.specs.Books.{AreOf};
ghost use Rattle.dy_transport.specs.{Told.{Told}, declared.transports.TheConstants.{SPARE_TRIES}};
ghost use Rattle.dy_coord.specs.{
  Calls.{IsFresh},
  inside.PutReads.{with_tries},
  Puts.{Spreads},
  PutEnds.{EndsAfter, PutEnds, PutRuns},
  PutDones.{IsPutDone},
};
ghost use Rattle.dy_reads.specs.Lists.{homes_in};

use crate::put_reads::{most_answers, read_put};
use crate::put_results::{PutDone, PutFault};
use crate::put_tasks::PutTask;
use dy_core::{AnswerKind, AnswerRead, AnswerVec, Place};
use dy_dots::{Context, Dot, Fault, NodeId};
use dy_node::Begun;
use dy_preference::{Assign, Preference};
use dy_quorum::Tally;
use dy_reads::{Request, Somewhere, ask_homes, begin_somewhere};
use dy_shares::{Naming, SessionShare};
use dy_siblings::{Key, Value};
use dy_transport::Transport;
use std::alloc::Global;
use std::sync::Wait;

// What is made before the first try.
fn prepare<J: Naming>(
    alloc: Global,
    list: &Preference,
    w: u8,
) -> Result<(AnswerVec, Tally<J>), Fault>
    ensures ok { IfOk result (λ p. (p.0.items ≡ []) × (2 * length list.now.nodes ≤ p.0.capacity)
        × (p.1 ≡ record { w = w; room = 2 * length list.now.nodes; added = [] })) }
    ensures memory { IsOkUnless result Fault.OutOfMemory }
{
    let most = most_answers(list);
    let answers = AnswerVec::with_capacity(alloc, most)?;
    let tally = Tally::with_room(alloc, w as usize, most)?;
    Ok((answers, tally))
}

// Asks the homes to hold the row that was begun, and reads every answer.
fn spread<J: Naming, T: Transport<J>, R: Wait>(
    rt: &R,
    transport: &mut T,
    list: &Preference,
    coordinator: NodeId,
    begun: Begun<J>,
    tally: &mut Tally<J>,
    answers: &mut AnswerVec,
)
    requires fresh_asks { (T.told transport.old).asks ≡ [] }
    requires fresh_replies { (T.told transport.old).replies ≡ [] }
    requires room { MAX_NODES ≤ (T.told transport.old).room }
    requires valid { IsPreferred list.now }
    requires nodes { list.now.nodes ≡ preference_of J.ring begun.row.key }
    requires homes { list.now.n ≡ J.n }
    requires dot { IsTrue (has_dot begun.row.versions begun.dot) }
    requires own { begun.receipt ≡ receipt_parts begun.row.key begun.dot coordinator
        (home_for (homes_in list.now) coordinator) }
    requires none { tally.old.added ≡ [] }
    requires no_answers { answers.old.items ≡ [] }
    requires answers_room { 2 * length list.now.nodes ≤ answers.old.capacity }
    requires tally_room { 2 * length list.now.nodes ≤ tally.old.room }
    ensures spreads { Spreads list.now begun.row begun.dot coordinator
        (T.told transport.new) tally.new.added answers.new.items }
    ensures tries { (T.told transport.new).tries ≡ (T.told transport.old).tries }
    ensures room { (T.told transport.new).room ≡ (T.told transport.old).room }
    ensures w { tally.new.w ≡ tally.old.w }
{
    let Begun { dot, row, receipt } = begun;
    // Brings the clause that each version of a row is of its key.
    let _versions = row.versions();
    let held = list.home_for(coordinator);
    answers.push_reserved(AnswerRead {
        place: Place {
            holder: coordinator,
            home: held,
        },
        kind: AnswerKind::Stored,
    });
    tally.add(receipt);
    ask_homes(rt, transport, &Request::Store(&row), held, list);
    let mut assign = Assign::new(list, coordinator);
    read_put(rt, transport, &row, dot, &mut assign, tally, answers);
}

impl PutTask<'_> {
    // Decides, after every answer was read.
    fn conclude<J: Naming, T: Transport<J>, R: Wait>(
        &self,
        rt: &R,
        alloc: Global,
        transport: &mut T,
        dot: Dot,
        tally: Tally<J>,
        answers: AnswerVec,
        session: &mut SessionShare<J>,
    ) -> Result<PutDone<J>, PutFault>
        requires room { length (T.told transport.old).tries
            < (T.told transport.old).room + SPARE_TRIES }
        requires some { 1 ≤ self.now.w }
        requires few { self.now.w ≤ J.n }
        requires w { tally.w ≡ self.now.w }
        requires of_one { AreOf self.now.key.now dot tally.added }
        ensures told { T.told transport.new
            ≡ with_tries (T.told transport.old) (T.told transport.new).tries }
        ensures ends { EndsAfter {J = J} self.now.key.now dot self.now.w tally.added
            answers.items (T.told transport.old).tries (T.told transport.new).tries
            session.old session.new result }
    {
        if !tally.ready() {
            return Err(PutFault {
                fault: Fault::NotEnough,
                dot: Some(dot),
                answers,
            });
        }
        let receipts = tally.into_receipts();
        match transport.record(rt, session, self.w, &receipts) {
            Ok(()) => {
                // The ack is the last step in the session's list.
                let last = session.since().at();
                Ok(PutDone {
                    dot,
                    at: last,
                    spent: receipts,
                    answers,
                })
            }
            Err(fault) => Err(PutFault {
                fault,
                dot: Some(dot),
                answers: AnswerVec::new(alloc),
            }),
        }
    }

    // A put whose w is from 1 to n.
    fn put_in_range<J: Naming, T: Transport<J>, R: Wait>(
        &self,
        rt: &R,
        alloc: Global,
        transport: &mut T,
        list: &Preference,
        session: &mut SessionShare<J>,
    ) -> Result<PutDone<J>, PutFault>
        requires fresh { IsFresh (T.told transport.old) }
        requires valid { IsPreferred list.now }
        requires nodes { list.now.nodes ≡ preference_of J.ring self.now.key.now }
        requires homes { list.now.n ≡ J.n }
        requires some { 1 ≤ self.now.w }
        requires few { self.now.w ≤ list.now.n }
        ensures runs { PutRuns {J = J} list.now self.now.w self.now.key.now
            self.now.context.now self.now.value session.old session.new
            (T.told transport.new) result }
        ensures room { (T.told transport.new).room ≡ (T.told transport.old).room }
    {
        let (mut answers, mut tally) = match prepare(alloc, list, self.w) {
            Ok(made) => made,
            Err(fault) => return Err(PutFault::early(alloc, fault)),
        };
        match begin_somewhere(rt, transport, list, self.key, self.context, &self.value) {
            Somewhere::At(c, begun) => {
                let dot = begun.dot;
                spread(rt, transport, list, c, begun, &mut tally, &mut answers);
                self.conclude(rt, alloc, transport, dot, tally, answers, session)
            }
            Somewhere::NoNode => Err(PutFault::early(alloc, Fault::NoNode)),
            Somewhere::Refused(fault) => Err(PutFault::early(alloc, fault)),
        }
    }
}

/// A put (Dynamo, sections 4.5 and 4.6). It begins at the first node that is not down, asks the
/// homes and then stand-ins, and reads every answer. It is acknowledged where w homes hold the
/// version on w nodes. May wait for answers, and for locks. Takes no memory after its first try,
/// but for what the transport sends.
#[inline(always)]
pub fn put<J: Naming, T: Transport<J>, R: Wait>(
    rt: &R,
    alloc: Global,
    transport: &mut T,
    list: &Preference,
    w: u8,
    session: &mut SessionShare<J>,
    key: &Key,
    context: &Context,
    value: Option<Value>,
) -> Result<PutDone<J>, PutFault>
    requires fresh { IsFresh (T.told transport.old) }
    requires nodes { list.now.nodes ≡ preference_of J.ring key.now }
    requires homes { list.now.n ≡ J.n }
    ensures ends { PutEnds {J = J} list.now w key.now context.now value
        session.old session.new (T.told transport.old) (T.told transport.new) result }
    ensures ok { IfOk result (IsPutDone session.old session.new key.now w) }
    ensures err { OnErr result (session.new ≡ session.old) }
    ensures no_answers { IfErr result (λ e. e.fault ≢ NotEnough → e.answers.items ≡ []) }
    ensures room { (T.told transport.new).room ≡ (T.told transport.old).room }
{
    if w < 1 {
        return Err(PutFault::early(alloc, Fault::BadQuorum));
    }
    if w as usize > list.homes().len() {
        return Err(PutFault::early(alloc, Fault::BadQuorum));
    }
    let task = PutTask {
        w,
        key,
        context,
        value,
    };
    task.put_in_range(rt, alloc, transport, list, session)
}
