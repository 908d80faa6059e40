ghost use Rattle.std.specs.Prelude.{◌≡◌, ◌↔◌, ℕ, List, Result, Ok, Err, false};
ghost use Rattle.dy_dots.specs.{
  declared.nodes.TheConstants.{MAX_NODES},
  declared.faults.Fault.{Fault as FaultParts},
};
ghost use Rattle.dy_commands.specs.{
  Answers.{TellsGet},
  Commands.{IsTogether},
  Seats.{IsOpen, IsOpened, seat_of},
  Texts.{IsKeyJudged},
  Writes.{IsRead, ReadsJudged},
};

use crate::givens::read_key;
use crate::runners::Runner;
use crate::writes::refused;
use dy_cluster::{Cluster, DirectCalls, OpenCluster, Session};
use dy_coord::{GetDone, GetFault};
use dy_dots::Fault;
use dy_lines::{Outcome, Word};
use dy_shares::Naming;
use dy_siblings::Key;
use std::sync::Wait;

/// Gets the key in the session of this number, which is opened even where the key is refused, and
/// repairs what was found stale.
#[inline(always)]
pub(crate) fn run_get<J: Naming, R: Wait>(
    lent: &mut OpenCluster<'_, J, R>,
    runner: &mut Runner<'_, J>,
    number: u8,
    key: &str,
) -> Outcome
    requires together { IsTogether runner.old.seats lent.old.sessions.items }
    ensures cluster { lent.new.cluster.now ≡ lent.old.cluster.now }
    ensures together { IsTogether runner.new.seats lent.new.sessions.items }
    ensures opened { IsOpened number runner.old.seats.numbers.items
        runner.new.seats.numbers.items }
    ensures is_open { IsOpen number runner.new.seats.numbers.items
        ↔ (runner.new.seats.refused ≡ false) }
    ensures told { (judged : Result (List ℕ) FaultParts) × IsKeyJudged key.now judged
        × ReadsJudged J J.ring J.n J.r (seat_of number runner.new.seats.numbers.items) key.now
        result runner.new.seats.refused lent.old.sessions.items lent.new.sessions.items judged }
{
    let seats = &mut runner.seats;
    let place = seats.place_of(lent.rt, lent.cluster, &mut lent.sessions, number);
    let key = match read_key(lent.alloc, key) {
        Ok(key) => key,
        Err(fault) => return refused(Word::Get, fault),
    };
    match place {
        Ok(place) => {
            let session = &mut lent.sessions[place];
            let direct = &mut runner.direct;
            get_in(lent.rt, lent.cluster, direct, session, &key)
        }
        Err(fault) => refused(Word::Get, fault),
    }
}

// Gets in this session, and mends what was found stale. What comes of that changes nothing in the
// get.
fn get_in<J: Naming, R: Wait>(
    rt: &R,
    cluster: &Cluster<J>,
    direct: &mut DirectCalls<'_, J>,
    session: &mut Session<J>,
    key: &Key,
) -> Outcome
    requires room { direct.old.room ≡ MAX_NODES }
    ensures room { direct.new.room ≡ MAX_NODES }
    ensures told { IsRead J J.ring J.n J.r key.now result session.old session.new }
{
    direct.renew(rt);
    match direct.get(rt, cluster, session, key) {
        Ok(done) => {
            let _ = direct.mend(rt, cluster, &done);
            read(done)
        }
        Err(refusal) => not_read::<J>(refusal),
    }
}

// What a get answered, as its line tells it.
fn read<J: Naming>(done: GetDone<J>) -> Outcome
    ensures { TellsGet {J = J} (Ok done) result }
{
    let GetDone {
        row,
        context,
        since: _,
        from,
        seen: _,
        answers: _,
    } = done;
    Outcome::Read { context, from, row }
}

// Why a get was refused, as its line tells it.
fn not_read<J: Naming>(refusal: GetFault) -> Outcome
    ensures { TellsGet {J = J} (Err refusal) result }
{
    let GetFault { fault, answers } = refusal;
    match fault {
        Fault::NotEnough => Outcome::Lacking {
            word: Word::Get,
            dot: None,
            answers,
        },
        _ => refused(Word::Get, fault),
    }
}
