ghost use Rattle.std.specs.{
  Prelude.{◌≡◌, ◌↔◌, ◌<◌, ◌+◌, ◌*◌, ◌^◌, true, IfOk, IfSome, IsOkUnless, OnErr},
  Arc.{arc_value},
};
ghost use Rattle.crossbeam_channel.specs.{Claims.{IsSeatAt}, Ends.{ruled_capacity, sends_on}};
ghost use Rattle.dy_mailboxes.specs.inside.Calls.{first_call, next_call, with_ask};

use crate::gates::Gate;
use crossbeam_channel::{Pass, RuledSender};
use crossbeam_utils::sync::Unparker;
use dy_channels::{Apart, Counted, Receiver, Sender, channel};
use dy_dots::{Fault, NodeId};
use dy_node::Answer;
use dy_shares::Naming;
use dy_sheets::Answered;
use std::alloc::Global;
use std::marker::Model;
use std::sync::atomic::{AtomicI64, AtomicU64, Ordering};
use std::sync::{Arc, Wait};

// What a client shares with those who answer it: the end of its channel that sends, the number of
// its present call, how many asks of it are still to be answered, and what wakes it.
#[derive(Drop)]
struct Line<J: Naming> {
    end: RuledSender<Answered<J>, u64, Counted>,
    present: AtomicU64,
    awaited: AtomicI64,
    client: Unparker,
}

/// The answers to one client, call after call, which come by one channel: for how many there is
/// room, the number of the present call, and how many asks of it may be answered.
#[derive(Drop)]
pub struct Replies<J: Naming> {
    line: Arc<Line<J>>,
    pass: Pass<Answered<J>, u64>,
    answers: Receiver<Answered<J>>,
    call: u64,
    posted: usize,
    ghost here: { IsSeatAt (sends_on (arc_value line).end) pass },
}

impl<J: Naming> Model for Replies<J> {
    ghost use Rattle.std.specs.Arc.{arc_value};
    ghost use Rattle.crossbeam_channel.specs.Ends.{ruled_capacity, sends_on};
    ghost use Rattle.dy_mailboxes.specs.inside.Calls.{CallParts};

    ghost Value = { CallParts };

    ghost view = { λ r. record {
      room = ruled_capacity (sends_on (arc_value r.line).end);
      call = r.call;
      posted = r.posted;
    } };
}

/// Where the answers to an ask go: the number of its client's call, and the one that it has among
/// the asks of that call, from 0.
pub struct ReplyTo<J: Naming> {
    line: Arc<Line<J>>,
    pass: Pass<Answered<J>, u64>,
    pub call: u64,
    pub number: usize,
    ghost here: { IsSeatAt (sends_on (arc_value line).end) pass },
}

impl<J: Naming> Drop for ReplyTo<J> {
    fn drop(self) {
        let ReplyTo {
            line: _,
            pass: _,
            call: _,
            number: _,
        } = self;
    }
}

// What is shared of a client's channel before its first call.
fn line_of<J: Naming>(
    alloc: Global,
    end: RuledSender<Answered<J>, u64, Counted>,
    client: Unparker,
) -> Result<Arc<Line<J>>, Fault>
    ensures ok { IfOk result (λ line. (arc_value line).end ≡ end) }
    ensures memory { IsOkUnless result Fault.OutOfMemory }
{
    let line = Line {
        end,
        present: AtomicU64::new(0),
        awaited: AtomicI64::new(0),
        client,
    };
    Ok(Arc::new(alloc, line)?)
}

// The next answer to the call of this number; one to another is dropped.
#[inline(always)]
fn next_to<J: Naming, R: Wait>(
    rt: &R,
    answers: &mut Receiver<Answered<J>>,
    call: u64,
) -> Option<Answered<J>>
    ensures { IfSome result (λ answered. answered.call ≡ call) }
{
    for _ in rt.forever() {
        let answered = answers.receive(rt)?;
        if answered.call == call {
            return Some(answered);
        }
    }
    None
}

impl<J: Naming> Replies<J> {
    /// No answer, with room for two to each of so many asks of a call, and for two that each of so
    /// many workers brings too late. The first call has number 0.
    pub fn new(alloc: Global, asks: usize, workers: usize) -> Result<Replies<J>, Fault>
        requires some { 0 < asks }
        requires few { (asks < 2 ^ 32) × (workers < 2 ^ 8) }
        ensures ok { IfOk result (λ replies. replies ≡ first_call (2 * (asks + workers))) }
        ensures memory { IsOkUnless result Fault.OutOfMemory }
    {
        let (sender, answers, client) = channel(alloc, 2 * (asks + workers))?;
        let Sender { end, pass } = sender;
        let line = line_of(alloc, end, client)?;
        Ok(Replies {
            line,
            pass,
            answers,
            call: 0,
            posted: 0,
        })
    }

    /// The number of the present call. Takes no memory.
    pub fn call(&self) -> u64
        ensures { result ≡ self.now.call }
    {
        self.call
    }

    /// Where the answers to one more ask of the present call go, which has this number.
    pub fn reply_to(&mut self, number: usize) -> Result<ReplyTo<J>, Fault>
        requires { self.old.posted + 1 < 2 ^ 64 }
        ensures ok { IfOk result (λ to. (to.call ≡ self.old.call) × (to.number ≡ number)) }
        ensures counted { IfOk result (λ _. self.new ≡ with_ask self.old) }
        ensures err { OnErr result (self.new ≡ self.old) }
        ensures memory { IsOkUnless result Fault.OutOfMemory }
    {
        let line = Arc::try_clone(&self.line)?;
        let pass = line.end.another::<Apart>(&mut self.pass);
        self.posted += 1;
        Ok(ReplyTo {
            line,
            pass,
            call: self.call,
            number,
        })
    }

    /// One more ask of the present call is on its way. It is counted once it was sent, so never are
    /// more counted than are still to be answered. Takes no memory.
    pub fn count_sent(&self) {
        let _before = self.line.awaited.fetch_add(1, Ordering::SeqCst);
    }

    /// The next answer to the present call; one to an earlier call is dropped. May wait for it.
    /// Takes no memory.
    #[inline(always)]
    pub fn receive<R: Wait>(&mut self, rt: &R) -> Option<Answered<J>>
        ensures some { IfSome result (λ answered. answered.call ≡ self.old.call) }
        ensures same { self.new ≡ self.old }
    {
        next_to(rt, &mut self.answers, self.call)
    }

    /// Whether a call can have the next number. Takes no memory.
    pub fn can_go_on(&self) -> bool
        ensures { result ≡ true ↔ self.now.call + 1 < 2 ^ 64 }
    {
        self.call < u64::MAX
    }

    /// The next call begins: what was not read is dropped, and so is what still comes to the calls
    /// before. Takes no memory.
    pub fn go_on<R: Wait>(&mut self, rt: &R)
        requires { self.old.call + 1 < 2 ^ 64 }
        ensures { self.new ≡ next_call self.old }
    {
        self.call += 1;
        self.posted = 0;
        // The number first: so each worker brings no more too late than it had compared before.
        self.line.present.store(self.call, Ordering::SeqCst);
        self.line.awaited.store(0, Ordering::SeqCst);
        self.answers.drain(rt);
    }
}

impl<J: Naming> ReplyTo<J> {
    // Sends an answer to the client's present call, and wakes the client where it has to act. The
    // channel has room for two answers to each ask of a call and for two of each worker that comes
    // late. So it is never full, and under a rule it says so only where it is.
    fn send_present<R: Wait>(&mut self, rt: &R, present: u64, answered: Answered<J>)
        requires { answered.call ≡ present }
    {
        let _ = present;
        let is_last = answered.is_last;
        // The client may have to act once it has this one: a get may have enough rows, and what was
        // not done may call for a stand-in. Who asks nodes to store reads every answer.
        let is_urgent = !matches!(&answered.answer, Answer::Stored(_));
        let _is_sent = self
            .line
            .end
            .try_send_as::<Counted, R>(rt, &mut self.pass, answered)
            .is_ok();
        // It is sent before it is counted: so whoever counts the last one finds all of them sent.
        let is_all = is_last && self.line.awaited.fetch_sub(1, Ordering::SeqCst) <= 1;
        if is_all || is_urgent {
            self.line.client.unpark();
        }
    }

    /// Sends the node's answer past the gate. It wakes the client where nothing more is to come, or
    /// where it may have to act before. One to an earlier call is dropped. Takes no memory.
    #[inline(always)]
    pub fn send<G: Gate, R: Wait>(&mut self, rt: &R, gate: &G, to: NodeId, answered: Answered<J>) {
        let present = self.line.present.load(Ordering::SeqCst);
        if answered.call == present {
            gate.compared(to);
            self.send_present(rt, present, answered);
        }
    }
}
