ghost use Rattle.std.specs.{Prelude.{◌≡◌, length}, List.{sum_by}};

use crate::listed::Listed;
use crate::places::At;
use crate::printed::Hex;
use dy_book::{AckedAt, Audit};
use dy_core::{Holding, Place};
use dy_dots::{Context, Dot, Fault};
use dy_siblings::Key;
use std::alloc::Global;
use std::fmt;

/// The line of what a place holds of a key: the dots of the versions, as a context text.
#[derive(Debug, Drop)]
pub struct HeldLine<'a> {
    pub place: Place,
    pub key: &'a Key,
    pub dots: Context,
}

impl<'a> HeldLine<'a> {
    ghost use Rattle.std.specs.Prelude.{IfOk, IsOkUnless};
    ghost use Rattle.dy_siblings.specs.Siblings.{own_dots};

    /// The line of the holding.
    pub fn of(alloc: Global, holding: &'a Holding) -> Result<HeldLine<'a>, Fault>
        ensures holder { IfOk result (λ line. line.place.holder ≡ holding.now.holder) }
        ensures home { IfOk result (λ line. line.place.home ≡ holding.now.home) }
        ensures key { IfOk result (λ line. line.key.now ≡ holding.now.row.key) }
        ensures dots { IfOk result (λ line. line.dots ≡ own_dots holding.now.row.versions) }
        ensures memory { IsOkUnless result Fault.OutOfMemory }
    {
        let dots = holding.row.dots(alloc)?;
        let place = Place {
            holder: holding.holder,
            home: holding.home,
        };
        let key = holding.row.key();
        Ok(HeldLine { place, key, dots })
    }
}

impl fmt::Display for HeldLine<'_> {
    ghost use Rattle.std.specs.Prelude.{Some};
    ghost use Rattle.dy_lines.specs.Audits.{held_text};

    ghost output = { λ line. Some (held_text line.place line.key.now line.dots) };

    fn fmt<W: fmt::Write>(&self, f: &mut fmt::Formatter<W>) -> fmt::Result {
        let key = Hex(self.key.as_bytes());
        write!(f, "held {} {key} {}", At(self.place), self.dots)
    }
}

/// The line of an acknowledged put: where its version is covered, and the number of homes that the
/// put named, where it is not the script's.
#[derive(Clone, Copy, Debug)]
pub struct AckedLine<'a> {
    pub key: &'a Key,
    pub dot: Dot,
    pub own_w: Option<u8>,
    pub places: &'a [Place],
}

impl<'a> AckedLine<'a> {
    ghost use Rattle.dy_lines.specs.Audits.{own_w_of};

    /// The line of the ack, in a script whose puts name w homes where they name no number of their
    /// own. Takes no memory.
    pub fn of(w: u8, acked: &'a AckedAt) -> AckedLine<'a>
        ensures key { result.key.now ≡ acked.now.ack.key }
        ensures dot { result.dot ≡ acked.now.ack.dot }
        ensures own_w { result.own_w ≡ own_w_of w acked.now.ack.w }
        ensures places { result.places.now ≡ acked.now.places.items }
    {
        let ack = &acked.ack;
        let own_w = if ack.w == w { None } else { Some(ack.w) };
        AckedLine {
            key: &ack.key,
            dot: ack.dot,
            own_w,
            places: acked.places.as_slice(),
        }
    }
}

impl fmt::Display for AckedLine<'_> {
    ghost use Rattle.std.specs.Prelude.{Some};
    ghost use Rattle.dy_lines.specs.Audits.{acked_text};

    ghost output = { λ line. Some (acked_text line.key.now line.dot line.own_w line.places.now) };

    fn fmt<W: fmt::Write>(&self, f: &mut fmt::Formatter<W>) -> fmt::Result {
        let key = Hex(self.key.as_bytes());
        let places = Listed(self.places);
        match self.own_w {
            Some(w) => write!(f, "acked {key} {} w {w} covered{places}", self.dot),
            None => write!(f, "acked {key} {} covered{places}", self.dot),
        }
    }
}

/// The line of a settled key.
#[derive(Clone, Copy, Debug)]
pub struct SettledLine<'a> {
    pub key: &'a Key,
}

impl fmt::Display for SettledLine<'_> {
    ghost use Rattle.std.specs.Prelude.{Some};
    ghost use Rattle.dy_lines.specs.Audits.{settled_text};

    ghost output = { λ line. Some (settled_text line.key.now) };

    fn fmt<W: fmt::Write>(&self, f: &mut fmt::Formatter<W>) -> fmt::Result {
        write!(f, "settled {}", Hex(self.key.as_bytes()))
    }
}

/// The last line: how many versions are held, over all places, and how many acks, answered gets and
/// steps there were.
#[derive(Clone, Copy, Debug, PartialEq, Eq)]
pub struct EndLine {
    pub held: u128,
    pub acked: usize,
    pub gets: u128,
    pub steps: usize,
}

impl EndLine {
    /// The last line of the audit. Takes no memory.
    pub fn of(audit: &Audit) -> EndLine
        ensures held { result.held
            ≡ sum_by (λ h. length h.row.versions) audit.now.held.items }
        ensures acked { result.acked ≡ length audit.now.acked.items }
        ensures gets { result.gets ≡ audit.now.gets }
        ensures steps { result.steps ≡ audit.now.steps }
    {
        EndLine {
            held: count_versions(audit.held.as_slice()),
            acked: audit.acked.len(),
            gets: audit.gets,
            steps: audit.steps,
        }
    }
}

// How many versions the holdings have together.
fn count_versions(held: &[Holding]) -> u128
    ensures { result ≡ sum_by (λ h. length h.row.versions) held.now }
{
    let mut count = 0u128;
    for holding in held {
        count += holding.row.versions().len() as u128;
    }
    count
}

impl fmt::Display for EndLine {
    ghost use Rattle.std.specs.Prelude.{Some};
    ghost use Rattle.dy_lines.specs.Audits.{end_text};

    ghost output = { λ line. Some (end_text line.held line.acked line.gets line.steps) };

    fn fmt<W: fmt::Write>(&self, f: &mut fmt::Formatter<W>) -> fmt::Result {
        write!(f, "end held {} acked {}", self.held, self.acked)?;
        write!(f, " gets {} steps {}", self.gets, self.steps)
    }
}
