// What a command does at one node.
ghost use Rattle.std.specs.Prelude.{◌≡◌, None, IfErr, IfOk, IsOkUnless, OnOk, List, map, ℕ};
ghost use Rattle.dy_siblings.specs.{Siblings.{Siblings}, Sizes.{IsKey}};
ghost use Rattle.dy_cluster.specs.{Named.{IsNodeOf}, Shows.{IsShow}};
ghost use Rattle.dy_commands.specs.{
  Answers.{IsDeliveryTold, IsPassTold, IsShowTold, kept_row},
  Texts.{IsKeyRefused},
};

use crate::givens::read_key;
use crate::writes::refused;
use dy_cluster::OpenCluster;
use dy_dots::{Fault, NodeId};
use dy_lines::{Kept, Outcome, Word};
use dy_node::{Mode, RowFor};
use dy_shares::Naming;
use std::alloc::Global;
use std::sync::Wait;

/// Takes the node down, or brings it up.
pub(crate) fn run_set_up<J: Naming, R: Wait>(
    lent: &OpenCluster<'_, J, R>,
    word: Word,
    number: usize,
    is_up: bool,
) -> Outcome
    ensures done { IsNodeOf J.ring number → result ≡ Outcome.Done word }
    ensures down { ¬ (IsNodeOf J.ring number) → result ≡ Outcome.Refused word Fault.Down None }
{
    match lent.cluster.node(number) {
        Some(node) => {
            lent.cluster.set_up(lent.rt, node, is_up);
            Outcome::Done { word }
        }
        None => refused(word, Fault::Down),
    }
}

/// Tells the node what to do with asks from now on.
pub(crate) fn run_set_mode<J: Naming, R: Wait>(
    lent: &OpenCluster<'_, J, R>,
    number: usize,
    mode: Mode,
) -> Outcome
    ensures done { IsNodeOf J.ring number → result ≡ Outcome.Done Word.SetMode }
    ensures down { ¬ (IsNodeOf J.ring number)
        → result ≡ Outcome.Refused Word.SetMode Fault.Down None }
{
    match lent.cluster.node(number) {
        Some(node) => {
            lent.cluster.fault(lent.rt, node, mode);
            Outcome::Done {
                word: Word::SetMode,
            }
        }
        None => refused(Word::SetMode, Fault::Down),
    }
}

/// Lets the node store the messages that it kept.
pub(crate) fn run_deliver<J: Naming, R: Wait>(
    lent: &OpenCluster<'_, J, R>,
    number: usize,
) -> Outcome
    ensures { IsDeliveryTold J.ring number result }
{
    let Some(node) = lent.cluster.node(number) else {
        return refused(Word::Deliver, Fault::Down);
    };
    match lent.cluster.deliver(lent.rt, node) {
        Ok(count) => Outcome::Delivered { count },
        Err(fault) => refused(Word::Deliver, fault),
    }
}

/// Makes a pass over the hints of the node.
pub(crate) fn run_handoff<J: Naming, R: Wait>(
    lent: &OpenCluster<'_, J, R>,
    number: usize,
) -> Outcome
    ensures { IsPassTold J J.ring number result }
{
    let Some(node) = lent.cluster.node(number) else {
        return refused(Word::Handoff, Fault::Down);
    };
    match lent.cluster.handoff(lent.rt, node) {
        Ok(pass) => Outcome::HandedOver {
            offers: pass.offers,
            stored: pass.stored,
            released: pass.released,
        },
        Err(fault) => refused(Word::Handoff, fault),
    }
}

/// Tells what the node keeps of the key.
pub(crate) fn run_show<J: Naming, R: Wait>(
    lent: &OpenCluster<'_, J, R>,
    number: usize,
    key: &str,
) -> Outcome
    ensures { IsShowTold J.ring number key.now result }
{
    let Some(node) = lent.cluster.node(number) else {
        return refused(Word::Show, Fault::Down);
    };
    match shown(lent, node, key) {
        Ok(kept) => Outcome::Shown { node, kept },
        Err(fault) => refused(Word::Show, fault),
    }
}

// What the node keeps of the key, its own row and its hints.
fn shown<J: Naming, R: Wait>(
    lent: &OpenCluster<'_, J, R>,
    node: NodeId,
    key: &str,
) -> Result<Vec<Kept>, Fault>
    requires { IsNodeOf J.ring node }
    ensures ok { IfOk result (λ kept. (rows : List (ℕ × Siblings))
        × IsShow key.now rows × (kept.items ≡ map kept_row rows)) }
    ensures sized { OnOk result (IsKey key.now) }
    ensures only { IfErr result (IsKeyRefused key.now) }
{
    let key = match read_key(lent.alloc, key) {
        Ok(key) => key,
        Err(fault) => return Err(fault),
    };
    let rows = lent.cluster.show(lent.rt, node, &key)?;
    let kept = kept_of(lent.alloc, rows.as_slice())?;
    Ok(kept)
}

// The dots of each row, with its home.
fn kept_of(alloc: Global, rows: &[RowFor]) -> Result<Vec<Kept>, Fault>
    ensures ok { IfOk result (λ kept. kept.items ≡ map kept_row rows.now) }
    ensures memory { IsOkUnless result Fault.OutOfMemory }
{
    let mut kept = Vec::with_capacity(alloc, rows.len())?;
    for row in rows {
        kept.push(Kept {
            home: row.0,
            dots: row.1.dots(alloc)?,
        })?;
    }
    Ok(kept)
}
