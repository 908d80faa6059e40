ghost use Rattle.std.specs.{
  Prelude.{◌≡◌, ◌<◌, ◌≤◌, [], ℕ, List, length, map, nat_eq, IfOk, IfErr, OnOk, OnErr, IsOkUnless},
  List.{All, IsDistinct},
};
ghost use Rattle.dy_siblings.specs.Siblings.{IsSameRow, context_of, newest};
ghost use Rattle.dy_core.specs.Logs.{rows_of};
ghost use Rattle.dy_shares.specs.Shares.{since_of, with_get};
ghost use Rattle.dy_quorum.specs.Gatherings.{answer_homes, first_answers};
ghost use Rattle.dy_coord.specs.inside.GetParts.{Finishes};

use crate::get_done::GetDone;
use crate::get_faults::GetFault;
use dy_core::AnswerVec;
use dy_dots::{Context, Fault};
use dy_quorum::{Gathering, merge_all};
use dy_shares::{Naming, Seen, SessionShare};
use dy_siblings::Row;
use std::alloc::Global;

// Merges the rows of these answers, and adds the get to the session's list.
#[inline(always)]
fn tell_of<J: Naming>(
    alloc: Global,
    used: &Vec<Seen<J>>,
    session: &mut SessionShare<J>,
) -> Result<(Row, Context), Fault>
    requires some { 1 ≤ J.r }
    requires count { length used.now.items ≡ J.r }
    requires one_key { (key : List ℕ) × All (λ a. a.key ≡ key) used.now.items }
    requires homes { IsDistinct nat_eq (answer_homes used.now.items) }
    requires later { All (λ a. since_of session.old < a.at) used.now.items }
    ensures row { IfOk result (λ p. IsSameRow p.0.versions (newest (rows_of used.now.items))) }
    ensures key { (key : List ℕ) → All (λ a. a.key ≡ key) used.now.items →
        IfOk result (λ p. p.0.key ≡ key) }
    ensures context { IfOk result (λ p. p.1 ≡ context_of p.0.versions) }
    ensures told { OnOk result
        (session.new ≡ with_get session.old (since_of session.old) used.now.items) }
    ensures err { OnErr result (session.new ≡ session.old) }
    ensures memory { IsOkUnless result Fault.OutOfMemory }
{
    let row = merge_all(alloc, used.as_slice())?;
    let context = row.context(alloc)?;
    session.note_get_lent(used)?;
    Ok((row, context))
}

// The same of copies of the first answer of each home. It is a call of its own: in few gets a home
// answers twice.
#[inline(never)]
fn tell_chosen<J: Naming>(
    alloc: Global,
    gathering: &Gathering<J>,
    session: &mut SessionShare<J>,
) -> Result<(Row, Context), Fault>
    requires some { 1 ≤ J.r }
    requires count { length (first_answers gathering.now.seens) ≡ J.r }
    requires one_key { (key : List ℕ) × All (λ a. a.key ≡ key) gathering.now.seens }
    requires later { All (λ a. since_of session.old < a.at) gathering.now.seens }
    ensures row { IfOk result (λ p.
        IsSameRow p.0.versions (newest (rows_of (first_answers gathering.now.seens)))) }
    ensures key { (key : List ℕ) → All (λ a. a.key ≡ key) gathering.now.seens →
        IfOk result (λ p. p.0.key ≡ key) }
    ensures context { IfOk result (λ p. p.1 ≡ context_of p.0.versions) }
    ensures told { OnOk result (session.new ≡
        with_get session.old (since_of session.old) (first_answers gathering.now.seens)) }
    ensures err { OnErr result (session.new ≡ session.old) }
    ensures memory { IsOkUnless result Fault.OutOfMemory }
{
    let chosen = gathering.chosen(alloc)?;
    let told = tell_of(alloc, &chosen, session)?;
    Ok(told)
}

// Merges the rows of the first answer of each home, and adds the get to the session's list.
#[inline(always)]
fn tell<J: Naming>(
    alloc: Global,
    gathering: &Gathering<J>,
    session: &mut SessionShare<J>,
) -> Result<(Row, Context), Fault>
    requires some { 1 ≤ J.r }
    requires count { length (first_answers gathering.now.seens) ≡ J.r }
    requires one_key { (key : List ℕ) × All (λ a. a.key ≡ key) gathering.now.seens }
    requires later { All (λ a. since_of session.old < a.at) gathering.now.seens }
    ensures row { IfOk result (λ p.
        IsSameRow p.0.versions (newest (rows_of (first_answers gathering.now.seens)))) }
    ensures key { (key : List ℕ) → All (λ a. a.key ≡ key) gathering.now.seens →
        IfOk result (λ p. p.0.key ≡ key) }
    ensures context { IfOk result (λ p. p.1 ≡ context_of p.0.versions) }
    ensures told { OnOk result (session.new ≡
        with_get session.old (since_of session.old) (first_answers gathering.now.seens)) }
    ensures err { OnErr result (session.new ≡ session.old) }
    ensures memory { IsOkUnless result Fault.OutOfMemory }
{
    if gathering.has_firsts_alone() {
        tell_of(alloc, gathering.seens(), session)
    } else {
        tell_chosen(alloc, gathering, session)
    }
}

/// Ends a get that r homes answered.
#[inline(always)]
pub(crate) fn finish<J: Naming>(
    alloc: Global,
    gathering: Gathering<J>,
    answers: AnswerVec,
    session: &mut SessionShare<J>,
) -> Result<GetDone<J>, GetFault>
    requires some { 1 ≤ J.r }
    requires count { length (first_answers gathering.seens) ≡ J.r }
    requires one_key { (key : List ℕ) × All (λ a. a.key ≡ key) gathering.seens }
    requires later { All (λ a. since_of session.old < a.at) gathering.seens }
    ensures ok { IfOk result (λ done.
        Finishes (since_of session.old) gathering.seens answers.items done) }
    ensures key { (key : List ℕ) → All (λ a. a.key ≡ key) gathering.seens →
        IfOk result (λ done. done.row.key ≡ key) }
    ensures told { OnOk result (session.new ≡
        with_get session.old (since_of session.old) (first_answers gathering.seens)) }
    ensures err { OnErr result (session.new ≡ session.old) }
    ensures memory { IfErr result (λ e. e.fault ≡ Fault.OutOfMemory) }
    ensures no_answers { IfErr result (λ e. e.answers.items ≡ []) }
{
    let since = session.since().at();
    match tell(alloc, &gathering, session) {
        Ok((row, context)) => {
            let (seen, from) = gathering.into_parts();
            Ok(GetDone {
                row,
                context,
                since,
                from,
                seen,
                answers,
            })
        }
        Err(fault) => Err(GetFault::without_answers(alloc, fault)),
    }
}
