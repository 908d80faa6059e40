//! A world, which no program of the workspace makes: steps of each kind, and its readers.

use dy_core::{Place, Step, World, run_steps};
use dy_dots::{Context, Dot, Fault, NodeId};
use dy_ring::Ring;
use dy_siblings::{Key, Row};
use std::alloc::Global;
use std::test::Fail;

/// Where something is held: at node 2 or 0, the homes of the key `a`, or at node 1 for node 0.
#[derive(Clone, Copy)]
enum Spot {
    First,
    Second,
    StandIn,
}

/// A step on the key `a` and the dot n2:1.
#[derive(Clone, Copy)]
enum Scene {
    Issue,
    Hold(Spot),
    Release(Spot),
    Fetch(Spot),
    Ack,
}

/// Node 2 makes a version and holds it, and node 1 stands in for node 0, until that holds it
/// itself. The put is told of two homes, and node 2 is asked.
const SCENES: [Scene; 7] = [
    Scene::Issue,
    Scene::Hold(Spot::First),
    Scene::Hold(Spot::StandIn),
    Scene::Hold(Spot::Second),
    Scene::Release(Spot::StandIn),
    Scene::Ack,
    Scene::Fetch(Spot::First),
];

fn place(spot: Spot) -> Place {
    let (first, second) = (NodeId::nth(2), NodeId::nth(0));
    match spot {
        Spot::First => Place::own(first),
        Spot::Second => Place::own(second),
        Spot::StandIn => Place {
            holder: NodeId::nth(1),
            home: second,
        },
    }
}

/// The version of the dot alone, as a row.
fn alone(alloc: Global, world: &World, key: &Key, dot: Dot) -> Result<Row, Fault> {
    match world.version(key, dot) {
        Some(version) => Row::of(alloc, version.try_clone(alloc)?),
        None => Err(Fault::NoNode),
    }
}

/// The hold of the version of the dot alone.
fn held_step(
    alloc: Global,
    world: &World,
    key: &Key,
    dot: Dot,
    place: Place,
) -> Result<Step, Fault> {
    let row = alone(alloc, world, key, dot)?;
    Ok(Step::Hold { place, row })
}

/// The step of the scene.
fn step(alloc: Global, world: &World, key: &Key, dot: Dot, scene: Scene) -> Result<Step, Fault> {
    let copy = key.try_clone(alloc)?;
    match scene {
        Scene::Issue => Ok(Step::Issue {
            node: dot.node(),
            key: copy,
            context: Context::new(alloc),
            value: None,
        }),
        Scene::Hold(spot) => held_step(alloc, world, key, dot, place(spot)),
        Scene::Release(spot) => Ok(Step::Release {
            place: place(spot),
            key: copy,
            dot,
        }),
        Scene::Fetch(spot) => Ok(Step::Fetch {
            place: place(spot),
            key: copy,
        }),
        Scene::Ack => Ok(Step::Ack {
            key: copy,
            dot,
            w: 2,
        }),
    }
}

/// Makes the step, where it is allowed.
fn is_made(alloc: Global, world: &mut World, step: Step) -> Result<bool, Fault> {
    if !world.allows(alloc, &step)? {
        return Ok(false);
    }
    let _answer = world.apply(alloc, step)?;
    Ok(true)
}

/// How many of the steps are made, up to one that is not allowed.
fn count_made(alloc: Global, world: &mut World, key: &Key, dot: Dot) -> Result<usize, Fault> {
    let mut count = 0usize;
    for scene in SCENES {
        let step = step(alloc, world, key, dot, scene)?;
        if !is_made(alloc, world, step)? {
            return Ok(count);
        }
        count = count.saturating_add(1);
    }
    Ok(count)
}

/// How many places hold something and how many cover the dot, and how many acks and settled keys
/// there are.
fn counts(
    alloc: Global,
    world: &World,
    key: &Key,
    dot: Dot,
) -> Result<(usize, usize, usize, usize), Fault> {
    let covers = world.covers(alloc, key, dot)?.len();
    let settled = world.settled(alloc)?.len();
    Ok((world.held().len(), covers, world.acked().len(), settled))
}

/// Whether it is a world of three nodes and two homes a key, where the version of the dot was made
/// and the key is settled.
fn is_told(world: &World, key: &Key, dot: Dot) -> bool {
    world.ring().nodes() == 3
        && world.n() == 2
        && world.is_issued(key, dot)
        && world.is_settled(key)
}

/// The empty world, with two homes a key. The tokens of the nodes 2, 0 and 1 lie at 2ad0.., ea05..
/// and f3ed.., and the key `a` at 0cc1.. (RFC 1321, A.5): these are its nodes, in this order.
fn empty_world(alloc: Global) -> Result<World, Fault> {
    let ring = Ring::derived(alloc, 3, 1)?;
    if ring.nodes() < 2 {
        return Err(Fault::TooMany);
    }
    run_steps(alloc, ring, 2, &[])
}

/// What is counted once each step is made, and whether the world tells of it.
fn played(
    alloc: Global,
    key: &Key,
    dot: Dot,
) -> Result<(usize, (usize, usize, usize, usize), bool), Fault> {
    let mut world = empty_world(alloc)?;
    let made = count_made(alloc, &mut world, key, dot)?;
    let counts = counts(alloc, &world, key, dot)?;
    Ok((made, counts, is_told(&world, key, dot)))
}

#[test]
fn a_world_makes_each_kind_of_step(rt: HostRuntime) -> Result<(), Fail> {
    let key = Key::new(rt.alloc(), b"a".as_slice())?;
    let dot = Dot::new(NodeId::nth(2), 1).ok_or("a dot")?;
    let told = played(rt.alloc(), &key, dot)?;
    assert!(rt; told == (7, (2, 2, 1, 1), true));
    Ok(())
}
