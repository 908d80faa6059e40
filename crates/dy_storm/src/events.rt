// What fails next, by the draws of a generator.
ghost use Rattle.std.specs.Prelude.{◌≡◌};
ghost use Rattle.dy_storm.specs.Outages.{IsEventDrawn, IsOutageDrawn};

use dy_draws::draw;
use dy_node::Mode;
use rand_pcg::Lcg64Xsh32;

/// How many nodes there are.
const NODES: u32 = 5;

/// What a node does next: it goes down, comes up, hands over, or does something else with asks.
#[derive(Clone, Copy, Debug, PartialEq, Eq)]
pub(crate) enum Event {
    SetUp(bool),
    Handoff,
    SetMode(Mode),
}

/// A node's number, and what it does next.
#[derive(Clone, Copy, Debug, PartialEq, Eq)]
pub(crate) struct Outage {
    pub node: usize,
    pub event: Event,
}

/// The next outage. Takes no memory.
pub(crate) fn next_outage(generator: &mut Lcg64Xsh32) -> Outage
    ensures { IsOutageDrawn generator.old result generator.new }
{
    let node = draw(generator, NODES) as usize;
    let event = next_event(generator);
    Outage { node, event }
}

// What the node does.
fn next_event(generator: &mut Lcg64Xsh32) -> Event
    ensures { IsEventDrawn generator.old result generator.new }
{
    match draw(generator, 4) {
        0 => Event::SetUp(false),
        1 => Event::SetUp(true),
        2 => Event::Handoff,
        _ => Event::SetMode(mode_of(draw(generator, 4))),
    }
}

// The mode of this number.
fn mode_of(number: u32) -> Mode
    ensures plain { number ≡ 0 → result ≡ Mode.Plain }
    ensures mute { number ≡ 1 → result ≡ Mode.Mute }
    ensures late { number ≡ 2 → result ≡ Mode.Late }
    ensures repeat { number ≡ 3 → result ≡ Mode.Repeat }
{
    match number {
        0 => Mode::Plain,
        1 => Mode::Mute,
        2 => Mode::Late,
        _ => Mode::Repeat,
    }
}
