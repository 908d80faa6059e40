// A node's answers, by its flag and mode.
ghost use Rattle.std.specs.Prelude.{◌≡◌, ◌↔◌, true, false, None, IfNone, IfSome};
ghost use Rattle.dy_node.specs.Answers.{AnsweredBy, IsDone, IsDown, IsPutOff, IsRepeated, MayAsk};

use crate::asks::{Answer, Ask};
use crate::nodes::Node;
use dy_book::Book;
use dy_modes::Mode;
use dy_shares::Naming;

// Does what is asked, whatever the mode. It lies in its callers, which copy the answer once less.
#[inline(always)]
fn run_here<J: Naming>(node: &mut Node<J>, book: &mut Book<J>, ask: &Ask<'_, J>) -> Answer<J>
    requires { MayAsk J.ring J.n node.old.part.node ask.now }
    ensures done { IsDone ask.now node.old book.old node.new book.new result }
    ensures number { node.new.part.node ≡ node.old.part.node }
{
    match ask {
        Ask::Store { home, row } => match node.store_lent(book, *home, row) {
            Ok(receipts) => Answer::Stored(receipts),
            Err(fault) => Answer::Refused(fault),
        },
        Ask::Fetch { home, key, since } => match node.fetch(book, *home, key, since) {
            Ok(seen) => Answer::Rows(seen),
            Err(fault) => Answer::Refused(fault),
        },
    }
}

// The same as a call of its own, in the rarer modes.
#[inline(never)]
fn run<J: Naming>(node: &mut Node<J>, book: &mut Book<J>, ask: &Ask<'_, J>) -> Answer<J>
    requires { MayAsk J.ring J.n node.old.part.node ask.now }
    ensures done { IsDone ask.now node.old book.old node.new book.new result }
    ensures number { node.new.part.node ≡ node.old.part.node }
{
    run_here(node, book, ask)
}

// Keeps a row for later. Of a fetch it does nothing.
fn delay<J: Naming>(node: &mut Node<J>, ask: &Ask<'_, J>) -> Answer<J>
    requires { MayAsk J.ring J.n node.old.part.node ask.now }
    ensures { IsPutOff ask.now node.old node.new result }
{
    match ask {
        Ask::Store { home, row } => match node.defer(*home, row.row()) {
            Ok(()) => Answer::NoAnswer,
            Err(fault) => Answer::Refused(fault),
        },
        Ask::Fetch { .. } => Answer::NoAnswer,
    }
}

// Does what is asked three times.
fn repeat<J: Naming>(node: &mut Node<J>, book: &mut Book<J>, ask: &Ask<'_, J>) -> Answer<J>
    requires { MayAsk J.ring J.n node.old.part.node ask.now }
    ensures { IsRepeated ask.now node.old book.old node.new book.new result }
{
    let _first = run(node, book, ask);
    let _second = run(node, book, ask);
    run(node, book, ask)
}

// The answers of a node that is up, in a mode that is not the plain one. It is a call of its own:
// room for what an arm makes is cleared before the arms part.
#[inline(never)]
fn answer_by_mode<J: Naming>(
    node: &mut Node<J>,
    book: &mut Book<J>,
    ask: &Ask<'_, J>,
) -> (Answer<J>, Option<Answer<J>>)
    requires { MayAsk J.ring J.n node.old.part.node ask.now }
    ensures { AnsweredBy node.old.mode ask.now node.old book.old node.new book.new
        result.0 result.1 }
{
    match node.mode() {
        Mode::Plain => (run(node, book, ask), None),
        Mode::Mute => {
            let _done = run(node, book, ask);
            (Answer::NoAnswer, None)
        }
        Mode::Late => {
            let done = run(node, book, ask);
            (Answer::NoAnswer, Some(done))
        }
        Mode::Repeat => (repeat(node, book, ask), None),
        Mode::Delay => (delay(node, ask), None),
    }
}

/// The answer of a node that is up and in the plain mode, which is all that it answers. None where
/// it is not, and nothing is done then: `answer` tells what it answers.
#[inline(always)]
pub fn answer_plainly<J: Naming>(
    node: &mut Node<J>,
    book: &mut Book<J>,
    ask: &Ask<'_, J>,
) -> Option<Answer<J>>
    requires { MayAsk J.ring J.n node.old.part.node ask.now }
    ensures up { IfSome result (λ _. node.old.is_up ≡ true) }
    ensures some { IfSome result (λ answer.
        AnsweredBy node.old.mode ask.now node.old book.old node.new book.new answer None) }
    ensures none { IfNone result ((node.new ≡ node.old) × (book.new ≡ book.old)) }
    ensures only { IfNone result (node.old.is_up ≡ true → node.old.mode ≡ Mode.Plain → ⊥) }
{
    if !node.is_up() {
        return None;
    }
    match node.mode() {
        Mode::Plain => Some(run_here(node, book, ask)),
        _ => None,
    }
}

/// A node's answer to an ask, by its flag and mode. A node that is up and late gives a second one.
#[inline(always)]
pub fn answer<J: Naming>(
    node: &mut Node<J>,
    book: &mut Book<J>,
    ask: &Ask<'_, J>,
) -> (Answer<J>, Option<Answer<J>>)
    requires { MayAsk J.ring J.n node.old.part.node ask.now }
    ensures down { IsDown result.0 ↔ (node.old.is_up ≡ false) }
    ensures nothing { node.old.is_up ≡ false →
        (result.1 ≡ None) × (node.new ≡ node.old) × (book.new ≡ book.old) }
    ensures up { node.old.is_up ≡ true →
        AnsweredBy node.old.mode ask.now node.old book.old node.new book.new result.0 result.1 }
{
    if !node.is_up() {
        return (Answer::Down, None);
    }
    match node.mode() {
        Mode::Plain => (run_here(node, book, ask), None),
        _ => answer_by_mode(node, book, ask),
    }
}
