// Clients in threads of their own, beside the nodes' workers or without.
ghost use Rattle.std.specs.{
  Prelude.{◌≡◌, ◌↔◌, [], length, IsTrue, IfOk, IfErr, IsOk, IsOkUnless},
  List.{All},
  declared.marker.Brand.{Brand as BrandParts},
};
ghost use Rattle.dy_cluster.specs.{
  Named.{NamesBook},
  Settings.{setting},
  Stores.{TellsStores},
  Tellings.{IsUntold},
};
ghost use Rattle.dy_clients.specs.{
  Refusals.{IsRunRefusal},
  Runs.{EndsRun, HaveRun},
  Tellings.{AreAnswered, SaysToo, as_answered},
};

use crate::clients::Client;
use crate::clients_done::ClientsDone;
use crate::crews::{Crew, mail_for};
use crate::operators::{Nobody, Operator};
use crate::seats::{Seat, Telling, rise_all, seat_all};
use dy_book::Options;
use dy_cluster::{Cluster, Opened};
use dy_dots::Fault;
use dy_mailboxes::Gate;
use dy_ring::Ring;
use dy_shares::{Naming, SessionShare};
use std::alloc::Global;
use std::marker::Brand;
use std::sync::{Mutex, Wait};
use std::thread::Threads;

/// Opens a cluster on the ring, starts a worker for each node, runs this many clients beside each
/// other, and closes it. Each client has a thread of its own, and a connection of its own over the
/// workers. If a thread for a worker is wanting, no client runs. If a thread or memory for a
/// client's transport is wanting, that client does not run, and the others do. The answer is then
/// `OutOfMemory`.
pub fn with_workers<C: Client + Sync, G: Gate + Sync, R: Threads + Wait + Sync>(
    rt: &R,
    alloc: Global,
    ring: Ring,
    options: Options,
    gate: &G,
    clients: u8,
    client: &C,
) -> Result<ClientsDone, Fault>
    ensures { EndsRun ring options clients
        (C.told (setting BrandParts ring options.n options.r options) client.now) result }
{
    let (gate, operator) = (Some(gate), None);
    run_opened::<C, G, Nobody, R>(rt, alloc, ring, options, gate, operator, clients, client)
}

// Opens a cluster on the ring, picks a name for it, and runs the clients. With a gate workers run
// beside them, and with an operator that one too.
pub(crate) fn run_opened<C: Client + Sync, G: Gate + Sync, O: Operator + Sync, R>(
    rt: &R,
    alloc: Global,
    ring: Ring,
    options: Options,
    gate: Option<&G>,
    operator: Option<&O>,
    clients: u8,
    client: &C,
) -> Result<ClientsDone, Fault>
where
    R: Threads + Wait + Sync,
    ensures { EndsRun ring options clients
        (C.told (setting BrandParts ring options.n options.r options) client.now) result }
{
    let opened = Opened::new(alloc, ring, options)?;
    let crew = Crew {
        rt,
        alloc,
        clients,
        client,
        gate,
        operator,
    };
    crew.run_named::<Brand>(opened)
}

impl<C: Client + Sync, G: Gate + Sync, O: Operator + Sync, R> Crew<'_, C, G, O, R>
where
    R: Threads + Wait + Sync,
{
    // Opens a cluster of the picked name, runs the clients, and closes it.
    fn run_named<J: Naming + Send + Sync>(&self, opened: Opened) -> Result<ClientsDone, Fault>
        requires named { NamesBook J.book J.table J.ring J.n J.r opened }
        ensures stores { IfOk result (λ done.
            TellsStores opened.ring opened.options.n done.closed) }
        ensures closed { IfOk result (HaveRun opened.ring opened.options self.now.clients
            (C.told (setting J opened.ring opened.options.n opened.options.r opened.options)
            self.now.client.now)) }
        ensures only { IfErr result IsRunRefusal }
    {
        let cluster = Cluster::<J>::open(self.alloc, opened)?;
        let mut sessions = Vec::new(self.alloc);
        let answered = self.run_seated::<J, Brand>(&cluster, &mut sessions);
        let closed = cluster.end(sessions)?;
        let answers = answered?;
        Ok(ClientsDone { closed, answers })
    }

    // Opens a session for each client, and runs them. Afterwards the sessions are in the list
    // again. Gives what each client answered.
    fn run_seated<J: Naming + Send + Sync, T: Telling + Send + Sync>(
        &self,
        cluster: &Cluster<J>,
        sessions: &mut Vec<SessionShare<J>>,
    ) -> Result<Vec<Result<(), Fault>>, Fault>
        requires none { sessions.old.items ≡ [] }
        requires tells { SaysToo
            (C.told (setting J J.ring J.n J.r cluster.now.options) self.now.client.now) T.told }
        ensures ok { IfOk result (λ _. length sessions.new.items ≡ self.now.clients) }
        ensures answers { IfOk result (λ answers. length answers.items ≡ self.now.clients) }
        ensures told { IfOk result (λ answers.
            AreAnswered (as_answered T.told) answers.items sessions.new.items) }
        ensures only { IfErr result IsRunRefusal }
    {
        seat_clients(self.rt, cluster, sessions, self.clients)?;
        let mut answers = Vec::with_capacity(self.alloc, sessions.len())?;
        let mail = match self.gate {
            Some(_gate) => Some(mail_for(self.alloc, cluster, self.clients)?),
            None => None,
        };
        let mut seats = Vec::<Mutex<Seat<J, T>>>::with_capacity(self.alloc, sessions.len())?;
        seat_all(sessions, &mut seats);
        let places = seats.as_slice();
        let is_staffed = match (self.gate, mail) {
            (Some(gate), Some(mail)) => self.run_staffed(cluster, gate, mail, places),
            _ => {
                self.run_beside(cluster, Vec::new(self.alloc), places);
                true
            }
        };
        let have_run = rise_all(&mut seats, sessions, &mut answers);
        seats.destroy_empty();
        end_of(is_staffed, have_run)?;
        Ok(answers)
    }
}

// Opens a session for each client.
fn seat_clients<J: Naming, R: Wait>(
    rt: &R,
    cluster: &Cluster<J>,
    sessions: &mut Vec<SessionShare<J>>,
    clients: u8,
) -> Result<(), Fault>
    requires none { sessions.old.items ≡ [] }
    ensures ok { IfOk result (λ _. length sessions.new.items ≡ clients) }
    ensures untold { IfOk result (λ _. All IsUntold sessions.new.items) }
    ensures only { IfErr result IsRunRefusal }
{
    for _ in 0..clients {
        let _place = cluster.seat(rt, sessions)?;
    }
    Ok(())
}

// How a run ends: a thread that can't be made counts as want of memory.
fn end_of(is_staffed: bool, have_run: bool) -> Result<(), Fault>
    ensures ok { IsOk result ↔ (IsTrue is_staffed × IsTrue have_run) }
    ensures memory { IsOkUnless result Fault.OutOfMemory }
{
    if is_staffed & have_run {
        Ok(())
    } else {
        Err(Fault::OutOfMemory)
    }
}
