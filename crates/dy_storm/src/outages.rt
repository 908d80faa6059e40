// What fails in a storm: what one more thread does beside the clients.
ghost use Rattle.std.specs.Prelude.{◌≡◌, ◌≢◌, ◌+◌, ◌%◌, ◌^◌};
ghost use Rattle.dy_storm.specs.Seeds.{generator_of};

use crate::events::{Event, Outage, next_outage};
use crate::rounds::Rounds;
use dy_clients::{Controls, Naming, Operator};
use dy_plans::Storm;
use rand_pcg::Lcg64Xsh32;
use rand_pcg::rand_core::SeedableRng;
use std::sync::Wait;
use std::sync::atomic::{AtomicUsize, Ordering};

/// What fails and comes back while clients make their turns: one thing a round, and so as many as a
/// client has turns.
#[derive(Drop)]
pub(crate) struct Outages {
    plan: Storm,
    pub rounds: Rounds,
    // How many versions the passes handed over.
    handed_over: AtomicUsize,
}

impl Outages {
    /// Nothing has failed yet, and no turn was made.
    pub fn new(plan: Storm) -> Outages
        ensures { result.plan ≡ plan }
    {
        Outages {
            plan,
            rounds: Rounds::new(plan.threads),
            handed_over: AtomicUsize::new(0),
        }
    }

    // The draws are behind those of the clients.
    fn generator(&self) -> Lcg64Xsh32
        ensures { result ≡ generator_of ((self.now.plan.seed + self.now.plan.threads) % 2 ^ 64) }
    {
        Lcg64Xsh32::seed_from_u64(self.plan.seed.wrapping_add(u64::from(self.plan.threads)))
    }

    /// How many versions the passes handed over.
    pub fn handed_over(&self) -> usize {
        self.handed_over.load(Ordering::SeqCst)
    }
}

impl Operator for Outages {
    /// Once a round is over, one thing fails or comes back; the last of them do so at once where
    /// the clients have ended. Then every node is up, and does what it is asked.
    fn run<J: Naming, R: Wait>(&self, lent: &mut Controls<'_, J, R>) {
        let mut generator = self.generator();
        for round in 0..self.plan.puts {
            self.rounds.wait(lent.rt, round);
            let next = next_outage(&mut generator);
            let count = disturb(lent, next);
            self.handed_over.fetch_add(count, Ordering::SeqCst);
        }
        lent.cluster.restore(lent.rt);
    }

    fn end<R: Wait>(&self, rt: &R) {
        self.rounds.end(rt);
    }
}

// Lets it come true. Gives how many versions were handed over.
fn disturb<J: Naming, R: Wait>(lent: &mut Controls<'_, J, R>, next: Outage) -> usize
    ensures { next.event ≢ Event.Handoff → result ≡ 0 }
{
    let Some(node) = lent.cluster.node(next.node) else {
        return 0;
    };
    match next.event {
        Event::SetUp(is_up) => lent.cluster.set_up(lent.rt, node, is_up),
        Event::SetMode(mode) => lent.cluster.fault(lent.rt, node, mode),
        Event::Handoff => {
            // A pass at a node that is down, or without memory, hands nothing over.
            if let Ok(pass) = lent.cluster.handoff_by_post(lent.rt, &mut lent.post, node) {
                return pass.released;
            }
        }
    }
    0
}
