ghost use Rattle.std.specs.{
  Prelude.{◌≡◌, ◌<◌, ◌≤◌, ◌+◌, ◌*◌, ℕ, [], ◌∷◌, ◌++◌, length, IfNone, IfSome},
  List.{All},
};
ghost use Rattle.dy_transport.specs.Told.{AllAnswered, Told, with_none};
ghost use Rattle.dy_reads.specs.{
  Lists.{homes_in},
  Rules.{MayCome, MayRequest, MayStandIn, Reads, home_asks, answer_read, next_stand_in, requested},
};

use crate::requests::Request;
use dy_core::{AnswerRead, AnswerVec, Place};
use dy_dots::NodeId;
use dy_node::Answer;
use dy_preference::{Assign, Preference};
use dy_shares::Naming;
use dy_transport::{Transport, kind_of};
use std::sync::Wait;

/// Asks each home for itself, but for the one that the coordinator holds for, before any answer is
/// read. May wait for locks.
pub fn ask_homes<J: Naming, T: Transport<J>, R: Wait>(
    rt: &R,
    transport: &mut T,
    request: &Request<'_, J>,
    held: NodeId,
    list: &Preference,
)
    requires fresh { (T.told transport.old).replies ≡ [] }
    requires room { length (T.told transport.old).asks + list.now.n
        ≤ (T.told transport.old).room }
    requires may_ask { All (λ home. MayRequest J.ring J.n request.now home home)
        (homes_in list.now) }
    ensures asks { (T.told transport.new).asks ≡ (T.told transport.old).asks
        ++ home_asks (requested request.now) held (homes_in list.now) }
    ensures replies { (T.told transport.new).replies ≡ [] }
    ensures tries { (T.told transport.new).tries ≡ (T.told transport.old).tries }
    ensures room { (T.told transport.new).room ≡ (T.told transport.old).room }
{
    let homes = list.homes();
    for i in 0..homes.len() {
        let home = homes[i];
        if home != held {
            transport.ask(rt, home, &request.for_home(home));
        }
    }
}

// Asks the next node that may stand in for the home, if one is left.
fn ask_next<J: Naming, T: Transport<J>, R: Wait>(
    rt: &R,
    transport: &mut T,
    request: &Request<'_, J>,
    assign: &mut Assign<'_>,
    home: NodeId,
)
    requires room { length (T.told transport.old).asks + length assign.old
        ≤ (T.told transport.old).room }
    requires may_ask { All (λ node. MayRequest J.ring J.n request.now node home) assign.old }
    ensures asks { ((T.told transport.new).asks, assign.new) ≡ next_stand_in
        (requested request.now) (length (T.told transport.old).replies)
        (T.told transport.old).asks assign.old home }
    ensures replies { (T.told transport.new).replies ≡ (T.told transport.old).replies }
    ensures tries { (T.told transport.new).tries ≡ (T.told transport.old).tries }
    ensures room { (T.told transport.new).room ≡ (T.told transport.old).room }
{
    if let Some(next) = assign.next() {
        transport.ask(rt, next, &request.for_home(home));
    }
}

/// Reads the next answer and lists it; where it is not what was asked for, the next node is asked
/// to stand in. May wait for an answer, and for locks. Takes no memory.
#[inline(always)]
pub fn read_next<J: Naming, T: Transport<J>, R: Wait>(
    rt: &R,
    transport: &mut T,
    request: &Request<'_, J>,
    assign: &mut Assign<'_>,
    answers: &mut AnswerVec,
) -> Option<(Place, Answer<J>)>
    requires room { length (T.told transport.old).asks + length assign.old
        ≤ (T.told transport.old).room }
    requires may_ask { MayStandIn J.ring J.n request.now (T.told transport.old).asks assign.old }
    requires answers_room { MayCome (T.told transport.old) →
        length answers.old.items < answers.old.capacity }
    ensures none { IfNone result ((T.told transport.new ≡ with_none (T.told transport.old))
        × AllAnswered (T.told transport.new)
        × (assign.new ≡ assign.old) × (answers.new ≡ answers.old)) }
    ensures some { IfSome result (λ r. (number : ℕ) × Reads (requested request.now)
        (T.told transport.old) assign.old number r.0.holder r.0.home r.1
        (T.told transport.new) assign.new) }
    ensures may_ask { MayStandIn J.ring J.n request.now (T.told transport.new).asks assign.new }
    ensures listed { IfSome result
        (λ r. answers.new.items
        ≡ answers.old.items ++ answer_read r.0.holder r.0.home r.1 ∷ []) }
    ensures count { IfSome result (λ _. length answers.new.items ≡ length answers.old.items + 1) }
    ensures capacity { answers.new.capacity ≡ answers.old.capacity }
{
    // Taken apart, since the proof covers no copy of a place while the answer beside it is lent.
    let Some((Place { holder, home }, answer)) = transport.next_reply(rt) else {
        return None;
    };
    answers.push_reserved(AnswerRead {
        place: Place { holder, home },
        kind: kind_of(&answer),
    });
    if !request.is_served(&answer) {
        ask_next(rt, transport, request, assign, home);
    }
    Some((Place { holder, home }, answer))
}
