ghost use Rattle.std.specs.Prelude.{◌≡◌, ◌≢◌, ◌≤◌, ◌*◌, [], length, IfOk, IfErr, OnErr, IsOkUnless};
ghost use Rattle.dy_dots.specs.declared.faults.Fault.TheVariants.{NotEnough};
ghost use Rattle.dy_preference.specs.Preferences.{IsPreferred};
ghost use Rattle.dy_shares.specs.Shares.{since_of, with_get};
ghost use Rattle.dy_quorum.specs.Gatherings.{first_answers};
ghost use Rattle.dy_transport.specs.Told.{Told};
ghost use Rattle.dy_coord.specs.{Calls.{IsFresh}, Gets.{IsGetRefused, IsGot}};

use crate::get_done::GetDone;
use crate::get_endings::finish;
use crate::get_faults::GetFault;
use crate::get_tasks::GetTask;
use crate::put_reads::most_answers;
use dy_core::AnswerVec;
use dy_dots::Fault;
use dy_preference::Preference;
use dy_quorum::Gathering;
use dy_reads::{Somewhere, look_somewhere};
use dy_shares::{Naming, SessionShare};
use dy_siblings::Key;
use dy_transport::Transport;
use std::alloc::Global;
use std::sync::Wait;

// What is made before the first try.
fn prepare<J: Naming>(
    alloc: Global,
    list: &Preference,
    r: u8,
) -> Result<(AnswerVec, Gathering<J>), Fault>
    ensures none { IfOk result (λ p. p.0.items ≡ []) }
    ensures room { IfOk result (λ p. 2 * length list.now.nodes ≤ p.0.capacity) }
    ensures empty { IfOk result (λ p. p.1
        ≡ record { r = r; room = 2 * length list.now.nodes; seens = [] }) }
    ensures valid { IsPreferred list.now }
    ensures memory { IsOkUnless result Fault.OutOfMemory }
{
    let room = most_answers(list);
    let answers = AnswerVec::with_capacity(alloc, room)?;
    let gathering = Gathering::new(alloc, r as usize, room)?;
    Ok((answers, gathering))
}

/// A get (Dynamo, section 4.5). It looks at the first node of the list that is not down, and asks
/// each home. It reads until r homes have answered with a row, by themselves or by a stand-in, and
/// adds the get to the session's list. May wait for locks and answers.
#[inline(always)]
pub fn get<J: Naming, T: Transport<J>, R: Wait>(
    rt: &R,
    alloc: Global,
    transport: &mut T,
    list: &Preference,
    r: u8,
    session: &mut SessionShare<J>,
    key: &Key,
) -> Result<GetDone<J>, GetFault>
    requires fresh { IsFresh (T.told transport.old) }
    requires some { 1 ≤ r }
    requires r { r ≡ J.r }
    ensures ok { IfOk result (λ done.
        IsGot list.now key.now J.r (since_of session.old) (T.told transport.new) done) }
    ensures told { IfOk result (λ done. session.new ≡
        with_get session.old (since_of session.old) (first_answers done.seen.items)) }
    ensures err { OnErr result (session.new ≡ session.old) }
    ensures room { (T.told transport.new).room ≡ (T.told transport.old).room }
    ensures refused { IfErr result (λ e.
        IsGetRefused list.now key.now J.r (since_of session.old) (T.told transport.new) e) }
    ensures no_answers { IfErr result (λ e. e.fault ≢ NotEnough → e.answers.items ≡ []) }
{
    let (mut answers, mut gathering) = match prepare(alloc, list, r) {
        Ok(made) => made,
        Err(fault) => return Err(GetFault::without_answers(alloc, fault)),
    };
    let since = session.since();
    let task = GetTask { key, since };
    match look_somewhere(rt, transport, list, key, &task.since) {
        Somewhere::At(c, own) => {
            task.gather(rt, transport, list, c, own, &mut gathering, &mut answers);
            if !gathering.is_ready() {
                return Err(GetFault {
                    fault: Fault::NotEnough,
                    answers,
                });
            }
            finish(alloc, gathering, answers, session)
        }
        Somewhere::NoNode => Err(GetFault::without_answers(alloc, Fault::NoNode)),
        Somewhere::Refused(fault) => Err(GetFault::without_answers(alloc, fault)),
    }
}
