ghost use Rattle.std.specs.{
  Prelude.{◌≡◌, ◌≤◌, ◌<◌, ◌+◌, [], length, map, IsTrue, IfOk, IfErr, IsOkUnless, vec_len},
  Prelude.{vec_capacity},
  List.{All},
};
ghost use Rattle.dy_dots.specs.declared.nodes.TheConstants.{MAX_NODES};
ghost use Rattle.dy_preference.specs.Preferences.{homes_of, may_hold, preference_of};
ghost use Rattle.dy_transport.specs.Told.{Told};
ghost use Rattle.dy_reads.specs.{Lists.{homes_in}, Rules.{IsReadOut}};
ghost use Rattle.dy_repair.specs.{
  Repairs.{IsRepaired, homes_once, store_asks},
  inside.Noting.{with_home},
};

use crate::staleness::stale;
use dy_dots::{Fault, NodeId};
use dy_node::{Ask, RowRef};
use dy_preference::Preference;
use dy_shares::{Naming, Seen};
use dy_siblings::Row;
use dy_transport::Transport;
use std::alloc::Global;
use std::sync::Wait;

// Notes a home of the list, where it isn't noted yet.
fn note(homes: &mut Vec<NodeId>, list: &Preference, home: NodeId)
    requires { vec_len homes.old < vec_capacity homes.old }
    ensures items { homes.new.items ≡ with_home (homes_in list.now) homes.old.items home }
    ensures count { vec_len homes.new ≤ vec_len homes.old + 1 }
    ensures capacity { vec_capacity homes.new ≡ vec_capacity homes.old }
{
    if list.is_home(home) && !homes.contains(&home) {
        homes.push_reserved(home);
    }
}

// The homes of these answers that are homes of the list, each once.
fn noted<J: Naming>(
    alloc: Global,
    list: &Preference,
    answers: &[&Seen<J>],
) -> Result<Vec<NodeId>, Fault>
    ensures ok { IfOk result (λ homes.
        homes.items ≡ homes_once (homes_in list.now) (map (λ s. s.now) answers.now)) }
    ensures memory { IsOkUnless result Fault.OutOfMemory }
{
    let mut homes = Vec::with_capacity(alloc, answers.len())?;
    for i in 0..answers.len() {
        note(&mut homes, list, answers[i].home());
    }
    Ok(homes)
}

// Asks each of these homes to store the row for itself.
fn ask_each<J: Naming, T: Transport<J>, R: Wait>(
    rt: &R,
    transport: &mut T,
    homes: &[NodeId],
    row: &Row,
)
    requires fresh_asks { (T.told transport.old).asks ≡ [] }
    requires fresh_replies { (T.told transport.old).replies ≡ [] }
    requires room { length homes.now ≤ (T.told transport.old).room }
    requires may_ask { All (λ home.
        IsTrue (may_hold (homes_of J.ring J.n row.now.key) home home)) homes.now }
    ensures asks { (T.told transport.new).asks ≡ store_asks row.now homes.now }
    ensures tries { (T.told transport.new).tries ≡ (T.told transport.old).tries }
    ensures room { (T.told transport.new).room ≡ (T.told transport.old).room }
{
    for i in 0..homes.len() {
        let home = homes[i];
        let lent = RowRef::new(row);
        transport.ask(rt, home, &Ask::Store { home, row: lent });
    }
}

// Reads every answer.
fn read_out<J: Naming, T: Transport<J>, R: Wait>(rt: &R, transport: &mut T)
    ensures asks { (T.told transport.new).asks ≡ (T.told transport.old).asks }
    ensures tries { (T.told transport.new).tries ≡ (T.told transport.old).tries }
    ensures room { (T.told transport.new).room ≡ (T.told transport.old).room }
    ensures out { IsReadOut (T.told transport.new) }
{
    'reading: for _ in rt.forever() {
        let Some(_) = transport.next_reply(rt) else {
            break;
        };
    }
}

/// Asks each home of the list that answered by itself with another row to store this one (Dynamo,
/// section 5). What they answer is read and changes nothing; where memory is wanting nobody is
/// asked. May wait for locks and answers.
pub fn repair<J: Naming, T: Transport<J>, R: Wait>(
    rt: &R,
    alloc: Global,
    transport: &mut T,
    seens: &[Seen<J>],
    row: &Row,
    list: &Preference,
) -> Result<(), Fault>
    requires nodes { list.now.nodes ≡ preference_of J.ring row.now.key }
    requires homes { list.now.n ≡ J.n }
    requires fresh_asks { (T.told transport.old).asks ≡ [] }
    requires fresh_replies { (T.told transport.old).replies ≡ [] }
    requires room { MAX_NODES ≤ (T.told transport.old).room }
    ensures ok { IfOk result (λ _.
        IsRepaired (homes_in list.now) row.now seens.now (T.told transport.new)) }
    ensures err { IfErr result (λ _. T.told transport.new ≡ T.told transport.old) }
    ensures memory { IsOkUnless result Fault.OutOfMemory }
    ensures tries { (T.told transport.new).tries ≡ (T.told transport.old).tries }
    ensures room { (T.told transport.new).room ≡ (T.told transport.old).room }
{
    // A list has no more nodes than there is room for.
    let _nodes = list.nodes();
    let answers = stale(alloc, seens, row)?;
    let homes = noted(alloc, list, answers.as_slice())?;
    ask_each(rt, transport, homes.as_slice(), row);
    read_out(rt, transport);
    Ok(())
}
