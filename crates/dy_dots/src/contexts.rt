ghost use Rattle.std.specs.{
  Prelude.{◌≡◌, ◌↔◌, true, Some, OnOk, OnErr, IfOk, IfErr, IsOkUnless, string_bytes, IsTrue, IsOk},
  Slice.Iter.{iter_rest},
};
ghost use Rattle.std.specs.FinSet as set;
ghost use Rattle.dy_dots.specs.{
  Dots.{DotSet, dot_set_code, AreDots},
  Runs.{AreKept, AreRunsOf, set_of},
  Spelling.{HasText, IsFound, IsRefused, OneSet, OneSpelling, ReadsBack, Spells, SpellingIsText},
  Spelling.{context_text},
};

use crate::dots::Dot;
use crate::faults::Fault;
use crate::runs::{self, Run, Runs};
use crate::texts;
use std::alloc::Global;
use std::marker::Model;
use std::{fmt, slice};

/// A set of dots of one key, kept as its maximal runs, sorted by node, then by counter.
#[derive(Debug)]
pub struct Context {
    runs: Runs,
}

impl Drop for Context {
    fn drop(self) {
        let Context { runs: _ } = self;
    }
}

impl Model for Context {
    ghost Value = { DotSet };

    ghost coded = { dot_set_code };

    ghost view = { λ context. set_of context.runs.items };

    ghost invariant = { λ context. AreKept context.runs.items };
}

impl Context {
    /// The empty set. Takes no memory.
    pub fn new(alloc: Global) -> Self
        ensures { result ≡ set.empty }
    {
        Context {
            runs: Runs::new(alloc),
        }
    }

    /// Whether there is no dot in it. Takes no memory.
    pub fn is_empty(&self) -> bool
        ensures { (result ≡ true) ↔ (self.now ≡ set.empty) }
    {
        self.runs.is_empty()
    }

    /// How many dots it has, summed over its runs. Takes no memory.
    pub fn len(&self) -> usize
        ensures { result ≡ set.len self.now }
    {
        runs::count(self.runs.as_slice())
    }

    /// Whether the dot is in it. Takes no memory.
    #[inline(always)]
    pub fn contains(&self, dot: Dot) -> bool
        ensures { result ≡ set.contains self.now dot }
    {
        runs::holds(self.runs.as_slice(), &dot)
    }

    /// The maximal runs, rising. Takes no memory.
    pub fn runs(&self) -> &[Run]
        ensures runs { AreRunsOf result.now self.now }
        ensures valid { AreDots self.now }
    {
        self.runs.as_slice()
    }

    /// Adds the dot. Takes no memory where it has it.
    #[inline(always)]
    pub fn insert(&mut self, dot: Dot) -> Result<(), Fault>
        ensures ok { OnOk result (self.new ≡ set.insert self.old dot) }
        ensures err { OnErr result (self.new ≡ self.old) }
        ensures spared { IsTrue (set.contains self.old dot) → IsOk result }
        ensures memory { IsOkUnless result Fault.OutOfMemory }
    {
        if runs::go_on(&mut self.runs, &dot) {
            return Ok(());
        }
        self.put_in(dot)
    }

    /// The same, wherever the dot's place is.
    #[inline(never)]
    fn put_in(&mut self, dot: Dot) -> Result<(), Fault>
        ensures ok { OnOk result (self.new ≡ set.insert self.old dot) }
        ensures err { OnErr result (self.new ≡ self.old) }
        ensures spared { IsTrue (set.contains self.old dot) → IsOk result }
        ensures memory { IsOkUnless result Fault.OutOfMemory }
    {
        if self.contains(dot) {
            return Ok(());
        }
        runs::add(&mut self.runs, &dot)?;
        Ok(())
    }

    /// Adds every dot of the other set. Takes no memory where it has them all.
    pub fn union(&mut self, alloc: Global, other: &Context) -> Result<(), Fault>
        ensures ok { OnOk result (self.new ≡ set.union self.old other.now) }
        ensures err { OnErr result (self.new ≡ self.old) }
        ensures spared { IsTrue (set.is_subset other.now self.old) → IsOk result }
        ensures memory { IsOkUnless result Fault.OutOfMemory }
    {
        if self.includes(other) {
            return Ok(());
        }
        self.runs = runs::union_of(alloc, self.runs.as_slice(), other.runs.as_slice())?;
        Ok(())
    }

    /// Whether every dot of the other set is in this one, in one pass over both. Takes no memory.
    pub fn includes(&self, other: &Context) -> bool
        ensures { result ≡ set.is_subset other.now self.now }
    {
        runs::include(self.runs.as_slice(), other.runs.as_slice())
    }

    /// The same set in memory of its own.
    pub fn try_clone(&self, alloc: Global) -> Result<Context, Fault>
        ensures ok { IfOk result (λ context. context ≡ self.now) }
        ensures memory { IsOkUnless result Fault.OutOfMemory }
    {
        Ok(Context {
            runs: Runs::from_slice(alloc, self.runs.as_slice())?,
        })
    }

    /// The set that the text spells, where it has at most 100,000 dots.
    pub fn read_text(alloc: Global, text: &str) -> Result<Context, Fault>
        ensures found { IfOk result (IsFound text.now) }
        ensures refused { IfErr result (IsRefused text.now) }
    {
        if text == "-" {
            return Ok(Context::new(alloc));
        }
        let runs = match texts::runs_in(alloc, text.as_bytes()) {
            Ok(runs) => runs,
            Err(fault) => return Err(fault),
        };
        if !texts::are_allowed(runs.as_slice()) {
            return Err(Fault::ContextSyntax);
        }
        if !texts::is_text_of(alloc, runs.as_slice(), text)? {
            return Err(Fault::ContextSyntax);
        }
        Ok(Context { runs })
    }

    /// Appends the one spelling of the set.
    pub fn write_text(&self, alloc: Global, out: &mut String) -> Result<(), Fault>
        ensures ok { OnOk result (HasText (string_bytes out.old) self.now (string_bytes out.new)) }
        ensures spells { OnOk result (Spells (context_text self.now) self.now) }
        ensures err { OnErr result (string_bytes out.new ≡ string_bytes out.old) }
        ensures memory { IsOkUnless result Fault.OutOfMemory }
    {
        let text = texts::text_of(alloc, self.runs.as_slice())?;
        out.push_str(text.as_str())?;
        Ok(())
    }
}

/// Goes over the maximal runs, rising.
impl<'a> IntoIterator for &'a Context {
    type Item = &'a Run;

    type IntoIter = slice::Iter<'a, Run>;

    ghost into_iter_gives = { λ context it. AreRunsOf (iter_rest it) context.now };

    fn into_iter(self) -> Self::IntoIter {
        self.runs().iter()
    }
}

impl fmt::Display for Context {
    ghost output = { λ context. Some (context_text context) };

    fn fmt<W: fmt::Write>(&self, f: &mut fmt::Formatter<W>) -> fmt::Result {
        texts::print_runs(self.runs.as_slice(), f)
    }
}

/// No set has two spellings.
pub fn spelling_is_unique()
    ensures { OneSpelling }
{}

/// No text spells two sets.
pub fn spelled_set_is_unique()
    ensures { OneSet }
{}

/// The text of a set of dots spells it, and nothing else does.
pub fn spelling_is_the_text()
    ensures { SpellingIsText }
{}

/// Where the text of a set of at most 100,000 dots is read, the answer is that set, memory aside.
pub fn written_is_read_back()
    ensures { ReadsBack }
{}
