// Seats: the clients' numbers, sessions and answers.
ghost use Rattle.std.specs.{
  Prelude.{◌≡◌, ◌≤◌, ◌<◌, ◌+◌, [], length, vec_len, vec_capacity, true, false, IsTrue, IsSome},
  List.{All},
  Option.{ForSome},
};
ghost use Rattle.dy_dots.specs.declared.nodes.TheConstants.{MAX_NODES};
ghost use Rattle.dy_cluster.specs.{Settings.{setting}, Tellings.{IsUntold}};
ghost use Rattle.dy_clients.specs.Tellings.{AreAnswered, ClientSaying, SaysToo, as_answered};

use crate::accesses::Access;
use crate::clients::Client;
use dy_cluster::{Cluster, Connection};
use dy_dots::Fault;
use dy_mailboxes::Post;
use dy_shares::{Naming, SessionShare};
use dy_transport::Transport;
use std::alloc::Global;
use std::marker::{Brand, PhantomData};
use std::sync::{Mutex, Wait};

// What holds of clients' answers and of the lists of their sessions, by their numbers. The function
// that runs the clients picks it, since of what threads leave behind only the type is known.
pub(crate) trait Telling {
    ghost told: { ClientSaying };
}

impl Telling for Brand {
    ghost told = { λ number answer telling. Unit {0} };
}

// A client's number and session, whether the client has run, and what it answered then.
pub(crate) struct Seat<J: Naming, T: Telling> {
    number: usize,
    // Always there, except while the client runs.
    session: Option<SessionShare<J>>,
    has_run: bool,
    answer: Result<(), Fault>,
    telling: PhantomData<T>,
    ghost few: { number < 255 },
    ghost there: { IsSome session },
    ghost untold: { has_run ≡ false → ForSome session IsUntold },
    ghost told: { has_run ≡ true → ForSome session (as_answered T.told number answer) },
}

// What a client is run with: the cluster, what waits for it, and the allocator.
#[derive(Drop)]
pub(crate) struct ClientRun<'a, J: Naming, C, R> {
    pub rt: &'a R,
    pub alloc: Global,
    pub cluster: &'a Cluster<J>,
    pub client: &'a C,
}

// What a client's thread needs of its seat. It can be sent to that thread.
pub(crate) trait Place<J: Naming> {
    ghost told: { ClientSaying };

    // Runs the client once, over the post, which is dropped then; without a post on its own thread.
    // If memory for its transport is wanting, it does not run. May wait for whatever the client
    // waits for.
    fn run<C: Client, R: Wait>(&mut self, of: &ClientRun<'_, J, C, R>, post: &mut Option<Post<J>>)
        requires tells { SaysToo
            (C.told (setting J J.ring J.n J.r of.now.cluster.now.options) of.now.client.now) told };
}

impl<J: Naming, T: Telling> Place<J> for Seat<J, T> {
    ghost told = { T.told };

    fn run<C: Client, R: Wait>(&mut self, of: &ClientRun<'_, J, C, R>, post: &mut Option<Post<J>>) {
        if self.has_run {
            return;
        }
        match post.take() {
            Some(mut post) => {
                if let Ok(mailboxes) = of.cluster.mailboxes(&mut post) {
                    self.run_over(of, mailboxes);
                }
            }
            None => {
                if let Ok(direct) = of.cluster.direct() {
                    self.run_over(of, direct);
                }
            }
        }
    }
}

impl<J: Naming, T: Telling> Seat<J, T> {
    // Runs the client over this transport.
    fn run_over<C: Client, M: Transport<J> + Drop, R: Wait>(
        &mut self,
        of: &ClientRun<'_, J, C, R>,
        transport: M,
    )
        requires room { MAX_NODES ≤ (M.told transport).room }
        requires fresh { self.old.has_run ≡ false }
        requires tells { SaysToo
            (C.told (setting J J.ring J.n J.r of.now.cluster.now.options) of.now.client.now)
            T.told }
        ensures told { self.new.has_run ≡ true → ForSome self.new.session
            (C.told (setting J J.ring J.n J.r of.now.cluster.now.options) of.now.client.now
            self.new.number self.new.answer) }
    {
        let Some(session) = self.session.take() else {
            return;
        };
        let mut lent = Access {
            rt: of.rt,
            alloc: of.alloc,
            connection: Connection::new(of.cluster, session, transport),
        };
        let answer = of.client.run(self.number, &mut lent);
        let session = lent.into_session();
        match self.session.replace(session) {
            None => {
                self.answer = answer;
                self.has_run = true;
            }
            Some(_other) => unreachable!(),
        }
    }
}

// Each session takes a seat, numbered from 0, the last first.
pub(crate) fn seat_all<J: Naming, T: Telling>(
    sessions: &mut Vec<SessionShare<J>>,
    seats: &mut Vec<Mutex<Seat<J, T>>>,
)
    requires few { length sessions.old.items ≤ 255 }
    requires untold { All IsUntold sessions.old.items }
    requires none { vec_len seats.old ≡ 0 }
    requires room { length sessions.old.items ≤ vec_capacity seats.old }
    ensures emptied { sessions.new.items ≡ [] }
    ensures memory { vec_capacity sessions.new ≡ vec_capacity sessions.old }
    ensures count { vec_len seats.new ≡ length sessions.old.items }
{
    let count = sessions.len();
    while let Some(session) = sessions.pop() {
        seat_next(count, sessions.len(), session, seats);
    }
}

// Of this many clients, whose last are seated, the one of this number takes the next seat.
fn seat_next<J: Naming, T: Telling>(
    count: usize,
    number: usize,
    session: SessionShare<J>,
    seats: &mut Vec<Mutex<Seat<J, T>>>,
)
    requires few { number < 255 }
    requires number { vec_len seats.old + number + 1 ≡ count }
    requires untold { IsUntold session }
    requires room { vec_len seats.old < vec_capacity seats.old }
    ensures count { vec_len seats.new ≡ vec_len seats.old + 1 }
    ensures memory { vec_capacity seats.new ≡ vec_capacity seats.old }
{
    seats.push_reserved(Mutex::new(Seat {
        number,
        session: Some(session),
        has_run: false,
        answer: Ok(()),
        telling: PhantomData,
    }));
}

// Each session leaves its seat with the client's answer, number 0 first. Gives whether each client
// has run, and had the number of its seat.
pub(crate) fn rise_all<J: Naming, T: Telling>(
    seats: &mut Vec<Mutex<Seat<J, T>>>,
    sessions: &mut Vec<SessionShare<J>>,
    answers: &mut Vec<Result<(), Fault>>,
) -> bool
    requires none { sessions.old.items ≡ [] }
    requires no_answers { answers.old.items ≡ [] }
    requires room { vec_len seats.old ≤ vec_capacity sessions.old }
    requires answers_room { vec_len seats.old ≤ vec_capacity answers.old }
    ensures emptied { vec_len seats.new ≡ 0 }
    ensures count { length sessions.new.items ≡ vec_len seats.old }
    ensures answers { length answers.new.items ≡ vec_len seats.old }
    ensures told { IsTrue result →
        AreAnswered (as_answered T.told) answers.new.items sessions.new.items }
{
    let mut are_told = true;
    while let Some(lock) = seats.pop() {
        let Seat {
            number,
            session,
            has_run,
            answer,
            telling: _,
        } = lock.into_inner();
        are_told = are_told & has_run & (number == sessions.len());
        let Some(session) = session else {
            unreachable!()
        };
        sessions.push_reserved(session);
        answers.push_reserved(answer);
    }
    are_told
}
