ghost use Rattle.std.specs.Prelude.{◌≡◌, []};
ghost use Rattle.dy_preference.specs.Preferences.{home_for, preference_of};
ghost use Rattle.dy_core.specs.Worlds.{layout_of};
ghost use Rattle.dy_transport.specs.{
  Asking.{IsBegun, IsSeenAt},
  Refusals.{IsOfBegin, IsOfNode},
  Told.{Told},
};
ghost use Rattle.dy_reads.specs.{Lists.{homes_in}, Tries.{IfAt, TriesEnd, begin_try, look_try}};

use crate::starts::Somewhere;
use dy_dots::{Context, Fault};
use dy_node::Begun;
use dy_preference::Preference;
use dy_shares::{Naming, Seen, Since};
use dy_siblings::{Key, Value};
use dy_transport::Transport;
use std::sync::Wait;

/// Begins a put at the first node that is not down (Dynamo, section 4.5). May wait for locks.
pub fn begin_somewhere<J: Naming, T: Transport<J>, R: Wait>(
    rt: &R,
    transport: &mut T,
    list: &Preference,
    key: &Key,
    context: &Context,
    value: &Option<Value>,
) -> Somewhere<Begun<J>>
    requires fresh { (T.told transport.old).tries ≡ [] }
    requires nodes { list.now.nodes ≡ preference_of J.ring key.now }
    requires homes { list.now.n ≡ J.n }
    ensures tries { TriesEnd (begin_try list.now key.now context.now value.now) IsOfBegin
        list.now.nodes (T.told transport.new).tries result }
    ensures begun { IfAt result (λ c b.
        IsBegun (layout_of J.ring J.n) c (home_for (homes_in list.now) c) key.now context.now
        value.now b) }
    ensures asks { (T.told transport.new).asks ≡ (T.told transport.old).asks }
    ensures replies { (T.told transport.new).replies ≡ (T.told transport.old).replies }
    ensures room { (T.told transport.new).room ≡ (T.told transport.old).room }
{
    let nodes = list.nodes();
    for node in nodes {
        match transport.begin(rt, *node, list.home_for(*node), key, context, value) {
            Ok(begun) => return Somewhere::At(*node, begun),
            Err(Fault::Down) => {}
            Err(fault) => return Somewhere::Refused(fault),
        }
    }
    Somewhere::NoNode
}

/// Looks at the first node that is not down (Dynamo, section 4.5). May wait for locks.
pub fn look_somewhere<J: Naming, T: Transport<J>, R: Wait>(
    rt: &R,
    transport: &mut T,
    list: &Preference,
    key: &Key,
    since: &Since<J>,
) -> Somewhere<Seen<J>>
    requires { (T.told transport.old).tries ≡ [] }
    ensures tries { TriesEnd (look_try list.now key.now since.now) IsOfNode
        list.now.nodes (T.told transport.new).tries result }
    ensures seen { IfAt result
        (λ c s. IsSeenAt c (home_for (homes_in list.now) c) key.now since.now s) }
    ensures asks { (T.told transport.new).asks ≡ (T.told transport.old).asks }
    ensures replies { (T.told transport.new).replies ≡ (T.told transport.old).replies }
    ensures room { (T.told transport.new).room ≡ (T.told transport.old).room }
{
    let nodes = list.nodes();
    for node in nodes {
        match transport.look(rt, *node, list.home_for(*node), key, since) {
            Ok(seen) => return Somewhere::At(*node, seen),
            Err(Fault::Down) => {}
            Err(fault) => return Somewhere::Refused(fault),
        }
    }
    Somewhere::NoNode
}
