// A worker of a node: it answers what comes to the node's mailbox.
ghost use Rattle.std.specs.Prelude.{◌≡◌, true, false, None, IfNone, IfSome};
ghost use Rattle.dy_node.specs.Answers.{AnsweredBy, IsDown, MayAsk};
ghost use Rattle.dy_mailboxes.specs.inside.Calls.{message, messages_of};

use crate::gates::Gate;
use crate::parcels::Posted;
use crate::posts::Inbox;
use crate::replies::ReplyTo;
use dy_book::Book;
use dy_dots::NodeId;
use dy_node::{Answer, Ask, Node, answer, answer_plainly};
use dy_shares::Naming;
use dy_sheets::Answered;
use dy_transport::lock_soon;
use std::sync::{Mutex, Wait};

// How many asks a worker answers under one hold of its locks, at most.
const ROUND: usize = 8;

// An ask of a round, and the node's answers to it.
#[derive(Drop)]
struct Served<J: Naming> {
    posted: Posted<J>,
    first: Answer<J>,
    later: Option<Answer<J>>,
}

/// A worker: answers what comes to the mailbox of its node, the one of these whose place is its
/// number, until the mailbox is closed and empty. Each ask passes the gate, and each answer sent.
/// Asks that lie there together are answered under one hold of the node's lock, then the book's.
/// Where no node lies at that place nothing is answered. May wait for an ask, and for locks.
pub fn serve<J: Naming, G: Gate, R: Wait>(
    rt: &R,
    nodes: &[Mutex<Node<J>>],
    book: &Mutex<Book<J>>,
    mut inbox: Inbox<J>,
    gate: &G,
) {
    let Some(node) = nodes.get(usize::from(inbox.node())) else {
        return;
    };
    let mut round = [None, None, None, None, None, None, None, None];
    for _ in rt.forever() {
        let Some(first) = inbox.receive(rt) else {
            break;
        };
        gate.pass(first.to, &first.parcel.ask());
        let Some(second) = inbox.take(rt) else {
            serve_lone(rt, node, book, first, gate);
            continue;
        };
        take_round(rt, &mut inbox, first, second, &mut round, gate);
        answer_round(rt, node, book, &mut round);
        send_round(rt, &mut round, gate);
    }
}

// Answers an ask behind which no other lies in the mailbox. It need not be put into a round.
fn serve_lone<J: Naming, G: Gate, R: Wait>(
    rt: &R,
    node: &Mutex<Node<J>>,
    book: &Mutex<Book<J>>,
    posted: Posted<J>,
    gate: &G,
) {
    let plain = {
        let mut held = lock_soon(rt, node);
        let mut open = lock_soon(rt, book);
        answer_plain(&mut held, &mut open, &posted)
    };
    match plain {
        Some(answer) => send_answer(rt, posted, answer, gate),
        None => serve_by_mode(rt, node, book, posted, gate),
    }
}

// The same at a node that is down, or in another mode than the plain one. It is a call of its own,
// since few nodes are.
#[inline(never)]
fn serve_by_mode<J: Naming, G: Gate, R: Wait>(
    rt: &R,
    node: &Mutex<Node<J>>,
    book: &Mutex<Book<J>>,
    posted: Posted<J>,
    gate: &G,
) {
    let (first, later) = {
        let mut held = lock_soon(rt, node);
        let mut open = lock_soon(rt, book);
        answer_posted(&mut held, &mut open, &posted)
    };
    send_answers(rt, posted, first, later, gate);
}

// An ask that has no answer yet.
fn unanswered<J: Naming>(posted: Posted<J>) -> Served<J> {
    Served {
        posted,
        first: Answer::NoAnswer,
        later: None,
    }
}

// Takes the first ask, which has passed the gate, the second, and those that lie in the mailbox
// behind it, as far as they fit into a round. Each passes the gate before the next is taken.
fn take_round<J: Naming, G: Gate, R: Wait>(
    rt: &R,
    inbox: &mut Inbox<J>,
    first: Posted<J>,
    second: Posted<J>,
    round: &mut [Option<Served<J>>; ROUND],
    gate: &G,
) {
    gate.pass(second.to, &second.parcel.ask());
    round[0] = Some(unanswered(first));
    round[1] = Some(unanswered(second));
    for place in 2..ROUND {
        let Some(posted) = inbox.take(rt) else {
            break;
        };
        gate.pass(posted.to, &posted.parcel.ask());
        round[place] = Some(unanswered(posted));
    }
}

// Answers the asks of a round, under one hold of both locks.
fn answer_round<J: Naming, R: Wait>(
    rt: &R,
    node: &Mutex<Node<J>>,
    book: &Mutex<Book<J>>,
    round: &mut [Option<Served<J>>; ROUND],
) {
    let mut held = lock_soon(rt, node);
    let mut open = lock_soon(rt, book);
    for place in round.iter_mut() {
        let Some(served) = place else {
            break;
        };
        let (first, later) = answer_posted(&mut held, &mut open, &served.posted);
        served.first = first;
        served.later = later;
    }
}

// Sends the answers of a round, once the locks are free, and lets go of its asks.
fn send_round<J: Naming, G: Gate, R: Wait>(
    rt: &R,
    round: &mut [Option<Served<J>>; ROUND],
    gate: &G,
) {
    for place in round.iter_mut() {
        let Some(served) = place.take() else {
            break;
        };
        let Served {
            posted,
            first,
            later,
        } = served;
        send_answers(rt, posted, first, later, gate);
    }
}

// Sends the one answer to an ask.
fn send_answer<J: Naming, G: Gate, R: Wait>(
    rt: &R,
    posted: Posted<J>,
    answer: Answer<J>,
    gate: &G,
) {
    let to = posted.to;
    let mut reply_to = posted.reply_to;
    let answered = lone_message(reply_to.call, reply_to.number, answer);
    reply_to.send(rt, gate, to, answered);
}

// The message that carries the one answer to an ask.
fn lone_message<J: Naming>(call: u64, number: usize, answer: Answer<J>) -> Answered<J>
    ensures { result ≡ message call number answer true }
{
    let is_last = true;
    Answered {
        call,
        number,
        answer,
        is_last,
    }
}

// Sends the answers to an ask.
#[inline(always)]
fn send_answers<J: Naming, G: Gate, R: Wait>(
    rt: &R,
    posted: Posted<J>,
    first: Answer<J>,
    later: Option<Answer<J>>,
    gate: &G,
) {
    let to = posted.to;
    let mut reply_to = posted.reply_to;
    let (first, second) = messages(reply_to.call, reply_to.number, first, later);
    reply_to.send(rt, gate, to, first);
    if let Some(second) = second {
        send_later(rt, &mut reply_to, to, second, gate);
    }
}

// Sends the later answer of a node that is late. It is a call of its own, since few nodes are.
#[inline(never)]
fn send_later<J: Naming, G: Gate, R: Wait>(
    rt: &R,
    reply_to: &mut ReplyTo<J>,
    to: NodeId,
    later: Answered<J>,
    gate: &G,
) {
    reply_to.send(rt, gate, to, later);
}

// The messages that carry the answers to an ask.
fn messages<J: Naming>(
    call: u64,
    number: usize,
    answer: Answer<J>,
    later: Option<Answer<J>>,
) -> (Answered<J>, Option<Answered<J>>)
    ensures { result ≡ messages_of call number answer later }
{
    let first = Answered {
        call,
        number,
        answer,
        is_last: later.is_none(),
    };
    let second = match later {
        None => None,
        Some(answer) => Some(Answered {
            call,
            number,
            answer,
            is_last: true,
        }),
    };
    (first, second)
}

// The answer to an ask on its way of a node that is up and in the plain mode. None where it is not,
// and nothing is done then.
fn answer_plain<J: Naming>(
    held: &mut Node<J>,
    book: &mut Book<J>,
    posted: &Posted<J>,
) -> Option<Answer<J>> {
    answer_plain_held(held, book, posted.to, &posted.parcel.ask())
}

// The same of a node that has another number than the one asked: none.
fn answer_plain_held<J: Naming>(
    held: &mut Node<J>,
    book: &mut Book<J>,
    to: NodeId,
    ask: &Ask<'_, J>,
) -> Option<Answer<J>>
    requires { MayAsk J.ring J.n to ask.now }
    ensures own { IfSome result (λ _. held.old.part.node ≡ to) }
    ensures up { IfSome result (λ _. held.old.is_up ≡ true) }
    ensures some { IfSome result (λ answer. AnsweredBy held.old.mode ask.now
        held.old book.old held.new book.new answer None) }
    ensures none { IfNone result ((held.new ≡ held.old) × (book.new ≡ book.old)) }
{
    if held.number() != to {
        return None;
    }
    answer_plainly(held, book, ask)
}

// The node's answers to an ask on its way.
fn answer_posted<J: Naming>(
    held: &mut Node<J>,
    book: &mut Book<J>,
    posted: &Posted<J>,
) -> (Answer<J>, Option<Answer<J>>) {
    answer_held(held, book, posted.to, &posted.parcel.ask())
}

// The node's answers. What a lock holds is known by its type alone, so a node that has another
// number than the one asked answers nothing.
fn answer_held<J: Naming>(
    held: &mut Node<J>,
    book: &mut Book<J>,
    to: NodeId,
    ask: &Ask<'_, J>,
) -> (Answer<J>, Option<Answer<J>>)
    requires { MayAsk J.ring J.n to ask.now }
    ensures down { held.old.part.node ≡ to → held.old.is_up ≡ false →
        IsDown result.0 × (result.1 ≡ None) × (held.new ≡ held.old) × (book.new ≡ book.old) }
    ensures up { held.old.part.node ≡ to → held.old.is_up ≡ true → AnsweredBy held.old.mode ask.now
        held.old book.old held.new book.new result.0 result.1 }
{
    if held.number() != to {
        return (Answer::NoAnswer, None);
    }
    answer(held, book, ask)
}
