// The threads of clients, workers and the operator.
ghost use Rattle.std.specs.Prelude.{◌≡◌, ◌↔◌, length, IsTrue, IfOk, IsOkUnless};
ghost use Rattle.dy_cluster.specs.Settings.{setting};
ghost use Rattle.dy_clients.specs.Tellings.{SaysToo};

use crate::clients::Client;
use crate::operators::{Controls, Operator};
use crate::seats::{ClientRun, Place};
use dy_cluster::Cluster;
use dy_dots::Fault;
use dy_mailboxes::{Gate, Inbox, Post};
use dy_shares::Naming;
use std::alloc::Global;
use std::sync::{Mutex, Wait};
use std::thread;
use std::thread::{Scope, Threads};

// Who runs over a cluster: so many clients, with a gate workers too, and with an operator that one.
#[derive(Drop)]
pub(crate) struct Crew<'a, C, G, O, R> {
    pub rt: &'a R,
    pub alloc: Global,
    pub clients: u8,
    pub client: &'a C,
    pub gate: Option<&'a G>,
    pub operator: Option<&'a O>,
}

// The ends of the nodes' mailboxes: the inboxes, a post for each client, and one more post.
#[derive(Drop)]
pub(crate) struct Mail<J: Naming> {
    pub inboxes: Vec<Inbox<J>>,
    pub posts: Vec<Post<J>>,
    pub post: Post<J>,
}

// The mail of the cluster's nodes.
pub(crate) fn mail_for<J: Naming>(
    alloc: Global,
    cluster: &Cluster<J>,
    clients: u8,
) -> Result<Mail<J>, Fault>
    ensures inboxes { IfOk result (λ mail. length mail.inboxes.items ≡ J.ring.nodes) }
    ensures posts { IfOk result (λ mail. length mail.posts.items ≡ clients) }
    ensures memory { IsOkUnless result Fault.OutOfMemory }
{
    let (mut post, inboxes) = cluster.post()?;
    let mut posts = Vec::with_capacity(alloc, usize::from(clients))?;
    for _ in 0..clients {
        posts.push(post.try_clone()?)?;
    }
    Ok(Mail {
        inboxes,
        posts,
        post,
    })
}

impl<C: Client + Sync, G: Gate + Sync, O: Operator + Sync, R> Crew<'_, C, G, O, R>
where
    R: Threads + Wait + Sync,
{
    // Starts a worker for each node, then the operator, and then the clients. If a worker or the
    // operator could not be started, no client runs. Gives whether all of them were. A message lies
    // in a mailbox as long as any post lives, so a client would wait for ever for a worker that
    // never starts. Each thread drops its post as it ends, and so the workers end.
    pub fn run_staffed<J: Naming + Send + Sync, S: Place<J> + Send>(
        &self,
        cluster: &Cluster<J>,
        gate: &G,
        mail: Mail<J>,
        seats: &[Mutex<S>],
    ) -> bool
        requires tells { SaysToo
            (C.told (setting J J.ring J.n J.r cluster.now.options) self.now.client.now) S.told }
    {
        let Mail {
            inboxes,
            posts,
            post,
        } = mail;
        let (rt, alloc) = (self.rt, self.alloc);
        thread::scope(
            thread::scope_env(),
            rt,
            |scope|
                requires tells { SaysToo
                    (C.told (setting J J.ring J.n J.r cluster.now.options) self.now.client.now)
                    S.told }
            {
                let started = start_workers(scope, rt, cluster, gate, inboxes);
                let is_staffed = are_all(started, cluster.nodes())
                    && start_operator(scope, rt, alloc, cluster, self.operator, post);
                if is_staffed {
                    self.run_beside(cluster, posts, seats);
                }
                if let Some(operator) = self.operator {
                    operator.end(rt);
                }
                is_staffed
            },
        )
    }

    // Runs the clients, each in a thread of its own, with a post if there is one. If a thread can't
    // be made, its client and those after it do not run. Ends when all that run are done.
    pub fn run_beside<J: Naming + Send + Sync, S: Place<J> + Send>(
        &self,
        cluster: &Cluster<J>,
        mut posts: Vec<Post<J>>,
        seats: &[Mutex<S>],
    )
        requires tells { SaysToo
            (C.told (setting J J.ring J.n J.r cluster.now.options) self.now.client.now) S.told }
    {
        let (rt, alloc, client) = (self.rt, self.alloc, self.client);
        thread::scope(
            thread::scope_env(),
            rt,
            |scope|
                requires tells { SaysToo
                    (C.told (setting J J.ring J.n J.r cluster.now.options) client.now) S.told }
            {
                for seat in seats.iter() {
                    let post = posts.pop();
                    let thread = scope.spawn(
                        move ||
                            requires tells { SaysToo
                                (C.told (setting J J.ring J.n J.r cluster.now.options)
                                client.now) S.told }
                        { sit(rt, alloc, cluster, client, seat, post) },
                    );
                    if thread.is_err() {
                        break;
                    }
                }
            },
        )
    }
}

// Starts a worker for each inbox, in a thread of its own. Gives how many were started.
fn start_workers<'s, J: Naming + Send + Sync, G: Gate + Sync, R: Threads + Wait + Sync, E>(
    scope: &Scope<'s, E>,
    rt: &'s R,
    cluster: &'s Cluster<J>,
    gate: &'s G,
    inboxes: Vec<Inbox<J>>,
) -> usize {
    let mut started = 0usize;
    for inbox in inboxes {
        let worker = scope.spawn(move || cluster.serve(rt, inbox, gate));
        started = started.saturating_add(usize::from(worker.is_ok()));
    }
    started
}

// Starts the operator in a thread of its own, if there is one. Gives whether all that there is was
// started.
fn start_operator<'s, J: Naming + Send + Sync, O: Operator + Sync, R: Threads + Wait + Sync, E>(
    scope: &Scope<'s, E>,
    rt: &'s R,
    alloc: Global,
    cluster: &'s Cluster<J>,
    operator: Option<&'s O>,
    post: Post<J>,
) -> bool {
    let Some(operator) = operator else {
        return true;
    };
    let thread = scope.spawn(move || operate(rt, alloc, cluster, operator, post));
    thread.is_ok()
}

// Whether as many threads were started as there are nodes.
fn are_all(started: usize, nodes: u8) -> bool
    ensures { IsTrue result ↔ (started ≡ nodes) }
{
    started == usize::from(nodes)
}

// What the operator's thread does.
fn operate<J: Naming, O: Operator, R: Wait>(
    rt: &R,
    alloc: Global,
    cluster: &Cluster<J>,
    operator: &O,
    post: Post<J>,
) {
    let mut lent = Controls {
        rt,
        alloc,
        cluster,
        post,
    };
    operator.run(&mut lent);
}

// What a client's thread does.
fn sit<J: Naming, S: Place<J>, C: Client, R: Wait>(
    rt: &R,
    alloc: Global,
    cluster: &Cluster<J>,
    client: &C,
    seat: &Mutex<S>,
    mut post: Option<Post<J>>,
)
    requires tells { SaysToo
        (C.told (setting J J.ring J.n J.r cluster.now.options) client.now) S.told }
{
    let of = ClientRun {
        rt,
        alloc,
        cluster,
        client,
    };
    seat.lock(rt).run(&of, &mut post);
}
