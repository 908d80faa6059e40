ghost use Rattle.std.specs.Prelude.{◌≡◌, ◌≤◌, true, false, length, IfOk, IfSome, IfNone, Some};
ghost use Rattle.std.specs.Prelude.{OnOk, OnErr, []};
ghost use Rattle.dy_dots.specs.{
  Dots.{IsDot},
  declared.dots.Dot.{Dot},
  Runs.{AreApart, AreKept, StartsFrom, in_run, in_runs, single},
  inside.Kinds.{joined, covers_run, IsBelow, IsReached, IsNextRun, AreBelow, IsPlace, HaveAllOf},
  inside.Kinds.{HaveBoth, Added, count_of},
  Spelling.{run_text},
  inside.Reading.{run_to},
};

use crate::dots::Dot;
use crate::nodes::NodeId;
use smallvec::SmallVec;
use std::alloc::{AllocError, AllocFailed, Global};
use std::fmt;

/// Dots of one node whose counters follow one another, from the first to the last. It is printed
/// as its counters alone.
#[derive(Clone, Copy, Debug, Default, PartialEq, Eq)]
pub struct Run {
    pub node: NodeId,
    pub first: u32,
    pub last: u32,
}

/// The runs of a set. A single one, as of what one node has put, lies in place.
pub(crate) type Runs = SmallVec<Run, 1>;

impl Run {
    fn of(dot: &Dot) -> Run
        ensures value { result ≡ single dot.now }
        ensures valid { IsDot dot.now }
    {
        Run {
            node: dot.node(),
            first: dot.counter(),
            last: dot.counter(),
        }
    }

    /// The run that ends at this counter, and has one dot where no first is given.
    pub(crate) fn to(node: NodeId, first: Option<u32>, last: u32) -> Run
        ensures { result ≡ run_to node first last }
    {
        Run {
            node,
            first: first.unwrap_or(last),
            last,
        }
    }

    fn holds(&self, dot: &Dot) -> bool
        ensures { result ≡ in_run self.now dot.now }
    {
        self.node == dot.node() && self.first <= dot.counter() && dot.counter() <= self.last
    }

    /// The run with what the other adds at its end.
    fn joined(&self, other: &Run) -> Run
        ensures { result ≡ joined self.now other.now }
    {
        Run {
            node: self.node,
            first: self.first,
            last: self.last.max(other.last),
        }
    }

    /// Whether it has each dot of the other.
    fn covers(&self, other: &Run) -> bool
        ensures { result ≡ covers_run self.now other.now }
    {
        self.node == other.node && self.first <= other.first && other.last <= self.last
    }

    /// Whether the other run comes later, with a counter missing between the two.
    fn is_below(&self, other: &Run) -> bool
        ensures yes { result ≡ true → IsBelow self.now other.now }
        ensures no { result ≡ false → IsReached self.now other.now }
    {
        self.node < other.node
            || self.node == other.node && self.last < other.first && other.first - self.last > 1
    }

    /// Whether it starts where the other does, or before.
    fn starts_by(&self, other: &Run) -> bool
        ensures yes { result ≡ true → StartsFrom self.now.node self.now.first other.now }
        ensures no { result ≡ false → StartsFrom other.now.node other.now.first self.now }
    {
        self.node < other.node || self.node == other.node && self.first <= other.first
    }
}

/// How many runs come before the dot's place, all of them with a counter missing in between.
fn place_of(runs: &[Run], dot: &Run) -> usize
    requires { AreApart runs.now }
    ensures within { result ≤ length runs.now }
    ensures below { AreBelow runs.now result dot.now }
    ensures reached { IsPlace runs.now result dot.now }
{
    let mut low = 0;
    let mut high = runs.len();
    while low < high {
        let middle = low + (high - low) / 2;
        if runs[middle].is_below(dot) {
            low = middle + 1;
        } else {
            high = middle;
        }
    }
    low
}

/// Whether the dot is one of the runs'. Most sets that are asked are empty.
#[inline(always)]
pub(crate) fn holds(runs: &[Run], dot: &Dot) -> bool
    requires { AreApart runs.now }
    ensures { result ≡ in_runs runs.now dot.now }
{
    !runs.is_empty() && is_found(runs, dot)
}

/// The same, looked up by halves.
fn is_found(runs: &[Run], dot: &Dot) -> bool
    requires { AreApart runs.now }
    ensures { result ≡ in_runs runs.now dot.now }
{
    let place = place_of(runs, &Run::of(dot));
    place < runs.len() && runs[place].holds(dot)
}

/// Whether each dot of the others is one of the runs'.
pub(crate) fn include(runs: &[Run], others: &[Run]) -> bool
    requires apart { AreApart runs.now }
    requires others_apart { AreApart others.now }
    ensures yes { result ≡ true → HaveAllOf runs.now others.now }
    ensures no { result ≡ false → HaveAllOf runs.now others.now → ⊥ }
{
    let mut left = runs;
    let mut right = others;
    while let Some((other, others_rest)) = right.split_first() {
        let Some((run, runs_rest)) = left.split_first() else {
            return false;
        };
        if run.covers(other) {
            right = others_rest;
        } else if run.is_below(other) {
            left = runs_rest;
        } else {
            return false;
        }
    }
    true
}

/// How many dots the runs have.
pub(crate) fn count(runs: &[Run]) -> usize
    requires { AreKept runs.now }
    ensures { result ≡ count_of runs.now }
{
    let mut total = 0;
    for run in runs {
        total += (run.last - run.first) as usize + 1;
    }
    total
}

/// Adds the dot.
pub(crate) fn add(runs: &mut Runs, dot: &Dot) -> Result<(), AllocFailed<Run>>
    requires { AreApart runs.old.items }
    ensures ok { OnOk result (Added runs.old.items (single dot.now) runs.new.items) }
    ensures err { OnErr result (runs.new.items ≡ runs.old.items) }
    ensures valid { IsDot dot.now }
{
    let alone = Run::of(dot);
    let place = place_of(runs.as_slice(), &alone);
    if place == runs.len() {
        runs.push(alone)?;
        return Ok(());
    }
    let run = runs[place];
    if alone.is_below(&run) {
        runs.insert(place, alone)?;
        return Ok(());
    }
    if alone.first < run.first {
        runs[place] = alone.joined(&run);
        return Ok(());
    }
    if alone.last <= run.last {
        return Ok(());
    }
    let longer = run.joined(&alone);
    let next = place + 1;
    if next == runs.len() {
        runs[place] = longer;
        return Ok(());
    }
    let after = runs[next];
    if longer.is_below(&after) {
        runs[place] = longer;
        return Ok(());
    }
    runs.remove(next);
    runs[place] = longer.joined(&after);
    Ok(())
}

/// Adds the dot where it comes right behind the last run: that one goes on, which takes no memory.
#[inline(always)]
pub(crate) fn go_on(runs: &mut Runs, dot: &Dot) -> bool
    requires { AreApart runs.old.items }
    ensures yes { result ≡ true → Added runs.old.items (single dot.now) runs.new.items }
    ensures no { result ≡ false → runs.new.items ≡ runs.old.items }
    ensures valid { IsDot dot.now }
{
    let counter = dot.counter();
    match runs.as_mut_slice().last_mut() {
        Some(run) if run.node == dot.node() && run.last == counter - 1 => {
            run.last = counter;
            true
        }
        _ => false,
    }
}

/// The one that starts first of the first runs of two lists, and what is left of both.
fn split_next<'a>(a: &'a [Run], b: &'a [Run]) -> Option<(Run, &'a [Run], &'a [Run])>
    ensures some { IfSome result (λ p. IsNextRun a.now b.now p.0 p.1.now p.2.now) }
    ensures none { IfNone result ((a.now ≡ []) × (b.now ≡ [])) }
{
    match (a.split_first(), b.split_first()) {
        (None, None) => None,
        (Some((run, rest)), None) => Some((*run, rest, b)),
        (None, Some((run, rest))) => Some((*run, a, rest)),
        (Some((run, rest)), Some((other, others))) => {
            if run.starts_by(other) {
                Some((*run, rest, b))
            } else {
                Some((*other, a, others))
            }
        }
    }
}

/// The runs of the dots of both lists.
pub(crate) fn union_of(alloc: Global, a: &[Run], b: &[Run]) -> Result<Runs, AllocError>
    requires a_apart { AreApart a.now }
    requires b_apart { AreApart b.now }
    ensures apart { IfOk result (λ runs. AreApart runs.items) }
    ensures members { IfOk result (λ runs. HaveBoth a.now b.now runs.items) }
{
    let mut runs = Runs::new(alloc);
    let Some((first, mut left, mut right)) = split_next(a, b) else {
        return Ok(runs);
    };
    let mut run = first;
    while let Some((next, left_rest, right_rest)) = split_next(left, right) {
        left = left_rest;
        right = right_rest;
        if run.is_below(&next) {
            runs.push(run)?;
            run = next;
        } else {
            run = run.joined(&next);
        }
    }
    runs.push(run)?;
    Ok(runs)
}

impl fmt::Display for Run {
    ghost output = { λ run. Some (run_text run) };

    fn fmt<W: fmt::Write>(&self, f: &mut fmt::Formatter<W>) -> fmt::Result {
        if self.first == self.last {
            write!(f, "{}", self.first)
        } else {
            write!(f, "{}-{}", self.first, self.last)
        }
    }
}
