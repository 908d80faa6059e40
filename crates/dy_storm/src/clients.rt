ghost use Rattle.std.specs.Prelude.{◌≡◌, ◌+◌, ◌%◌, ◌^◌};
ghost use Rattle.dy_cluster.specs.{Settings.{setting}, Tellings.{IsUntold}};
ghost use Rattle.dy_storm.specs.{Seeds.{generator_of}, Turns.{AreTurns}};

use crate::outages::Outages;
use crate::turns::Player;
use dy_clients::{Access, Client, Connection, Fault, Naming, Transport};
use dy_draws::draw;
use dy_plans::Storm;
use rand_pcg::Lcg64Xsh32;
use rand_pcg::rand_core::SeedableRng;
use std::alloc::Global;
use std::sync::Wait;

/// How many keys there are.
const KEYS: u32 = 16;

/// The clients of a storm, and what fails as they make their turns.
#[derive(Drop)]
pub(crate) struct Clients {
    pub plan: Storm,
    pub outages: Outages,
}

impl Clients {
    /// Clients that have made no turn.
    pub fn new(plan: Storm) -> Clients
        ensures { result.plan ≡ plan }
    {
        Clients {
            plan,
            outages: Outages::new(plan),
        }
    }

    // Makes all turns of the client, each of a key that it draws.
    fn make_turns<J: Naming, T: Transport<J>, R: Wait>(
        &self,
        rt: &R,
        alloc: Global,
        player: &mut Player,
        connection: &mut Connection<'_, J, T>,
    )
        requires none { player.old.turns ≡ 0 }
        requires untold { IsUntold connection.old.session }
        ensures told { AreTurns (setting J J.ring J.n J.r connection.old.cluster.now.options)
            (generator_of ((self.now.plan.seed + player.old.client) % 2 ^ 64)) player.old.client
            self.now.plan.puts connection.new.session }
        ensures turns { player.new.turns ≡ self.now.plan.puts }
    {
        let seed = self.plan.seed.wrapping_add(player.client as u64);
        let mut generator = Lcg64Xsh32::seed_from_u64(seed);
        for _ in 0..self.plan.puts {
            let key = draw(&mut generator, KEYS);
            let _is_mended = player.play(rt, alloc, connection, key);
            if self.plan.faults {
                self.outages.rounds.count(rt);
            }
        }
    }
}

impl Client for Clients {
    ghost told = { λ setting clients number answer telling.
        AreTurns setting (generator_of ((clients.plan.seed + number) % 2 ^ 64)) number
        clients.plan.puts telling };

    /// Makes its turns, whatever is refused. May wait for answers and locks.
    fn run<J: Naming, T: Transport<J>, R: Wait>(
        &self,
        number: usize,
        lent: &mut Access<'_, J, T, R>,
    ) -> Result<(), Fault> {
        let mut player = Player::new(lent.alloc, number);
        self.make_turns(lent.rt, lent.alloc, &mut player, &mut lent.connection);
        Ok(())
    }
}
