ghost use Rattle.std.specs.{
  Prelude.{◌≡◌, ◌<◌, ◌+◌, ◌^◌, ◌∷◌, [], length, take, Err, IfOk, IfErr, IfNone, IfSome},
  List.{All},
};
ghost use Rattle.dy_node.specs.Nodes.{AreForHomes};
ghost use Rattle.dy_transport.specs.{
  Refusals.{IsOfOffer},
  Snapshots.{snapshot_of},
  Told.{Told, with_none, with_try},
  declared.tries.Try.TheVariants.{Offer},
  declared.transports.TheConstants.{SPARE_TRIES},
};
ghost use Rattle.dy_reads.specs.Rules.{IsReadOut};
ghost use Rattle.dy_handoff.specs.{
  Passes.{HandsOver, HandsOverInTurn, IsPass, stored_in},
  inside.Settling.{IsUnderWay, SettlesOne, Settles},
};

use crate::counts::Pass;
use dy_dots::{Fault, NodeId};
use dy_node::{Answer, Ask, RowFor, RowRef};
use dy_shares::{Naming, Receipt};
use dy_transport::Transport;
use std::sync::Wait;

// The receipts of an answer, if it brings some.
fn receipts_in<J: Naming>(answer: Answer<J>) -> Option<Vec<Receipt<J>>>
    ensures some { IfSome result (λ receipts. stored_in answer ≡ receipts ∷ []) }
    ensures none { IfNone result (stored_in answer ≡ []) }
{
    if let Answer::Stored(receipts) = answer {
        return Some(receipts);
    }
    None
}

// Lets the node give up what the receipts name, and adds how much it gave up.
fn settle_one<J: Naming, T: Transport<J>, R: Wait>(
    rt: &R,
    transport: &mut T,
    node: NodeId,
    receipts: &Vec<Receipt<J>>,
    released: usize,
) -> usize
    requires room { length (T.told transport.old).tries
        < (T.told transport.old).room + SPARE_TRIES }
    requires homes { All (λ r. r.holder ≡ r.home) receipts.now.items }
    ensures { SettlesOne node receipts.now
        (T.told transport.old) (T.told transport.new) released result }
{
    match transport.settle(rt, node, receipts) {
        Ok(count) => released.saturating_add(count),
        Err(_) => released,
    }
}

// Reads every answer that is left, and settles the receipts that each brings.
fn settle_all<J: Naming, T: Transport<J>, R: Wait>(
    rt: &R,
    transport: &mut T,
    node: NodeId,
    done: Pass,
) -> Pass
    requires way { IsUnderWay (T.told transport.old) done }
    ensures way { IsUnderWay (T.told transport.new) result }
    ensures settles { Settles node (T.told transport.old) (T.told transport.new)
        done.released result.released }
    ensures asks { (T.told transport.new).asks ≡ (T.told transport.old).asks }
    ensures room { (T.told transport.new).room ≡ (T.told transport.old).room }
    ensures out { IsReadOut (T.told transport.new) }
    ensures offers { result.offers ≡ done.offers }
{
    let mut stored = done.stored;
    let mut released = done.released;
    'reading: for _ in rt.forever() {
        let Some((_, answer)) = transport.next_reply(rt) else {
            break;
        };
        if let Some(receipts) = receipts_in(answer) {
            released = settle_one(rt, transport, node, &receipts, released);
            stored += 1;
        }
    }
    Pass {
        offers: done.offers,
        stored,
        released,
    }
}

// Hands over one hint: asks its home to hold the row, and settles all that comes.
fn hand_over<J: Naming, T: Transport<J>, R: Wait>(
    rt: &R,
    transport: &mut T,
    node: NodeId,
    hint: &RowFor,
    done: Pass,
) -> Pass
    requires way { IsUnderWay (T.told transport.old) done }
    requires room { length (T.told transport.old).asks < (T.told transport.old).room }
    requires more { done.offers + 1 < 2 ^ 64 }
    requires for_home { AreForHomes J.ring J.n (hint.now ∷ []) }
    ensures way { IsUnderWay (T.told transport.new) result }
    ensures over { HandsOver node hint.now (T.told transport.old) (T.told transport.new) }
    ensures settles { Settles node (T.told transport.old) (T.told transport.new)
        done.released result.released }
    ensures room { (T.told transport.new).room ≡ (T.told transport.old).room }
    ensures offers { result.offers ≡ done.offers + 1 }
{
    let row = RowRef::new(&hint.1);
    let ask = Ask::Store { home: hint.0, row };
    transport.ask(rt, hint.0, &ask);
    let offered = Pass {
        offers: done.offers + 1,
        stored: done.stored,
        released: done.released,
    };
    settle_all(rt, transport, node, offered)
}

// Looks for an answer where nothing was asked: there is none.
fn find_none<J: Naming, T: Transport<J>, R: Wait>(rt: &R, transport: &mut T)
    requires { (T.told transport.old).asks ≡ [] }
    ensures { T.told transport.new ≡ with_none (T.told transport.old) }
{
    let _none = transport.next_reply(rt);
}

// Hands over the first hints, as many as there is room for, one after another.
fn hand_over_all<J: Naming, T: Transport<J>, R: Wait>(
    rt: &R,
    transport: &mut T,
    node: NodeId,
    hints: &[RowFor],
) -> Pass
    requires way { IsUnderWay (T.told transport.old)
        (record { offers = 0; stored = 0; released = 0 }) }
    requires out { IsReadOut (T.told transport.old) }
    requires for_homes { AreForHomes J.ring J.n hints.now }
    ensures way { IsUnderWay (T.told transport.new) result }
    ensures turns { HandsOverInTurn node (take (T.told transport.old).room hints.now)
        (T.told transport.old) (T.told transport.new) }
    ensures settles { Settles node (T.told transport.old) (T.told transport.new)
        0 result.released }
    ensures room { (T.told transport.new).room ≡ (T.told transport.old).room }
    ensures out { IsReadOut (T.told transport.new) }
{
    let room = transport.room();
    let mut done = Pass {
        offers: 0,
        stored: 0,
        released: 0,
    };
    for i in 0..hints.len() {
        if i < room {
            done = hand_over(rt, transport, node, &hints[i], done);
        }
    }
    done
}

/// Hands over what a node keeps for others, hint by hint: asks the home of each of the first, as
/// many as there is room for, to hold the row, and lets the node give up just what the home's
/// receipts name before it asks the next (Dynamo, section 4.6). May wait for locks and for answers.
/// A settle that is refused gives up nothing, and the pass goes on.
pub fn pass<J: Naming, T: Transport<J>, R: Wait>(
    rt: &R,
    transport: &mut T,
    node: NodeId,
) -> Result<Pass, Fault>
    requires fresh_tries { (T.told transport.old).tries ≡ [] }
    requires fresh_asks { (T.told transport.old).asks ≡ [] }
    requires fresh_replies { (T.told transport.old).replies ≡ [] }
    ensures ok { IfOk result (λ done. IsPass {J = J} node (T.told transport.new) done) }
    ensures err { IfErr result (λ fault. T.told transport.new
        ≡ with_try (T.told transport.old) (Offer node (snapshot_of (Err fault)))) }
    ensures refused { IfErr result IsOfOffer }
    ensures room { (T.told transport.new).room ≡ (T.told transport.old).room }
{
    let hints = transport.offer(rt, node)?;
    // So that a pass without hints, too, ends with a look that found no answer.
    find_none(rt, transport);
    Ok(hand_over_all(rt, transport, node, &hints))
}
