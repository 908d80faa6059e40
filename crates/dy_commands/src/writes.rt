ghost use Rattle.std.specs.Prelude.{◌≡◌, ◌↔◌, None, false};
ghost use Rattle.dy_dots.specs.declared.nodes.TheConstants.{MAX_NODES};
ghost use Rattle.dy_commands.specs.{
  Answers.{TellsPut},
  Commands.{IsTogether},
  Seats.{IsOpen, IsOpened, seat_of},
  Writes.{IsWritten, RunsJudged},
};

use crate::givens::Given;
use crate::runners::Runner;
use dy_cluster::{Cluster, DirectCalls, OpenCluster, Session};
use dy_coord::{PutDone, PutFault};
use dy_dots::Fault;
use dy_lines::{Outcome, Word};
use dy_shares::Naming;
use std::sync::Wait;

/// A put or a delete whose texts were judged: the number of its session, at how many homes, and
/// what it is given, or why its texts are refused.
#[derive(Drop)]
pub(crate) struct Judged {
    pub session: u8,
    pub w: u8,
    pub word: Word,
    pub given: Result<Given, Fault>,
}

/// Puts or deletes in the session that is named, which is opened even where the texts are refused.
pub(crate) fn run_write<J: Naming, R: Wait>(
    lent: &mut OpenCluster<'_, J, R>,
    runner: &mut Runner<'_, J>,
    judged: Judged,
) -> Outcome
    requires together { IsTogether runner.old.seats lent.old.sessions.items }
    ensures cluster { lent.new.cluster.now ≡ lent.old.cluster.now }
    ensures together { IsTogether runner.new.seats lent.new.sessions.items }
    ensures opened { IsOpened judged.session runner.old.seats.numbers.items
        runner.new.seats.numbers.items }
    ensures is_open { IsOpen judged.session runner.new.seats.numbers.items
        ↔ (runner.new.seats.refused ≡ false) }
    ensures told { RunsJudged J J.ring J.n
        (seat_of judged.session runner.new.seats.numbers.items) judged.w judged.word result
        runner.new.seats.refused lent.old.sessions.items lent.new.sessions.items judged.given }
{
    let Judged {
        session,
        w,
        word,
        given,
    } = judged;
    let seats = &mut runner.seats;
    let place = seats.place_of(lent.rt, lent.cluster, &mut lent.sessions, session);
    let given = match given {
        Ok(given) => given,
        Err(fault) => return refused(word, fault),
    };
    match place {
        Ok(place) => {
            let session = &mut lent.sessions[place];
            let direct = &mut runner.direct;
            write_in(lent.rt, lent.cluster, direct, session, w, word, given)
        }
        Err(fault) => refused(word, fault),
    }
}

// Puts in this session.
fn write_in<J: Naming, R: Wait>(
    rt: &R,
    cluster: &Cluster<J>,
    direct: &mut DirectCalls<'_, J>,
    session: &mut Session<J>,
    w: u8,
    word: Word,
    given: Given,
) -> Outcome
    requires room { direct.old.room ≡ MAX_NODES }
    ensures room { direct.new.room ≡ MAX_NODES }
    ensures told { IsWritten J J.ring J.n w given word result session.old session.new }
{
    let Given {
        key,
        context,
        value,
    } = given;
    direct.renew(rt);
    let answer = direct.put(rt, cluster, w, session, &key, &context, value);
    written(word, answer)
}

// What came of a put, as its line tells it.
fn written<J: Naming>(word: Word, answer: Result<PutDone<J>, PutFault>) -> Outcome
    ensures { TellsPut word answer result }
{
    match answer {
        Ok(done) => Outcome::Stored {
            word,
            dot: done.dot,
            answers: done.answers,
        },
        Err(refusal) => {
            let PutFault {
                fault,
                dot,
                answers,
            } = refusal;
            match fault {
                Fault::NotEnough => Outcome::Lacking { word, dot, answers },
                _ => Outcome::Refused {
                    word,
                    fault,
                    after: dot,
                },
            }
        }
    }
}

/// A refusal that made nothing.
pub(crate) fn refused(word: Word, fault: Fault) -> Outcome
    ensures { result ≡ Outcome.Refused word fault None }
{
    Outcome::Refused {
        word,
        fault,
        after: None,
    }
}
