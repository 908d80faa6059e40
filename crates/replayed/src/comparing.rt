use dy_book::{AckedAt, Audit};
use dy_core::{Acked, Holding, World};
use dy_dots::Fault;
use std::alloc::Global;
use std::fmt;

/// What a world and an audit do not agree on.
#[derive(Clone, Copy, Debug, PartialEq, Eq)]
pub(crate) enum Difference {
    Steps,
    Held,
    Acked,
    Covered,
    Settled,
}

impl fmt::Display for Difference {
    fn fmt<W: fmt::Write>(&self, f: &mut fmt::Formatter<W>) -> fmt::Result {
        f.write_str(match self {
            Difference::Steps => "steps",
            Difference::Held => "held",
            Difference::Acked => "acked",
            Difference::Covered => "covered",
            Difference::Settled => "settled",
        })
    }
}

/// How many steps a world has, how many versions are held in it, how many acks it has, and the
/// first thing in which an audit differs from it.
#[derive(Debug, Drop)]
pub(crate) struct Compared {
    pub steps: usize,
    pub held: usize,
    pub acked: usize,
    pub difference: Option<Difference>,
}

impl fmt::Display for Compared {
    fn fmt<W: fmt::Write>(&self, f: &mut fmt::Formatter<W>) -> fmt::Result {
        write!(f, "replayed {} steps: ", self.steps)?;
        match self.difference {
            None => write!(f, "held {} acked {} agree", self.held, self.acked),
            Some(difference) => write!(f, "{difference} differ"),
        }
    }
}

impl Compared {
    /// Compares the world with the audit, list by list.
    pub(crate) fn of(alloc: Global, world: &World, audit: &Audit) -> Result<Compared, Fault> {
        Ok(Compared {
            steps: world.steps(),
            held: count_versions(world.held()),
            acked: world.acked().len(),
            difference: compare(alloc, world, audit)?,
        })
    }
}

/// How many versions the holdings have together.
fn count_versions(held: &[Holding]) -> usize {
    let mut count = 0usize;
    for holding in held {
        count = count.saturating_add(holding.row.versions().len());
    }
    count
}

/// The first thing in which the audit differs from the world.
fn compare(alloc: Global, world: &World, audit: &Audit) -> Result<Option<Difference>, Fault> {
    if world.steps() != audit.steps {
        return Ok(Some(Difference::Steps));
    }
    if !are_held(world.held(), audit.held.as_slice()) {
        return Ok(Some(Difference::Held));
    }
    if !are_acked(world.acked(), audit.acked.as_slice()) {
        return Ok(Some(Difference::Acked));
    }
    if !are_covered(alloc, world, audit.acked.as_slice())? {
        return Ok(Some(Difference::Covered));
    }
    if world.settled(alloc)?.as_slice() != audit.settled.as_slice() {
        return Ok(Some(Difference::Settled));
    }
    Ok(None)
}

/// Whether what is held is what is listed, place by place and row by row.
fn are_held(held: &[Holding], listed: &[Holding]) -> bool {
    held.len() == listed.len()
        && held.iter().zip(listed.iter()).all(|(holding, other)| {
            holding.holder == other.holder
                && holding.home == other.home
                && holding.row.is_same(&other.row)
        })
}

/// Whether the acks are those that are listed, one by one.
fn are_acked(acked: &[Acked], listed: &[AckedAt]) -> bool {
    acked.len() == listed.len()
        && acked
            .iter()
            .zip(listed.iter())
            .all(|(ack, other)| *ack == other.ack)
}

/// Whether the world covers each listed ack at the places that are listed.
fn are_covered(alloc: Global, world: &World, listed: &[AckedAt]) -> Result<bool, Fault> {
    for listed in listed {
        let places = world.covers(alloc, &listed.ack.key, listed.ack.dot)?;
        if places.as_slice() != listed.places.as_slice() {
            return Ok(false);
        }
    }
    Ok(true)
}
