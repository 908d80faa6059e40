ghost use Rattle.std.specs.{
  Prelude.{◌≡◌, ◌↔◌, Some, None, IfOk, IfErr, IsTrue, string_bytes},
  Fmt.{DisplaysOnOk},
};
ghost use Rattle.dy_dots.specs.{
  Spelling.{runs_text},
  inside.Reading.{all_allowed, allowed, read_runs, IsUnread},
  declared.texts.TheConstants.{MAX_CONTEXT_DOTS},
};

use crate::dots::MAX_COUNTER;
use crate::faults::Fault;
use crate::nodes::{self, MAX_NODES, NodeId};
use crate::runs::{Run, Runs};
use arrayvec::ArrayString;
use std::alloc::{AllocError, Global};
use std::fmt;
use std::fmt::Write;

/// How many dots a text names at most.
pub const MAX_CONTEXT_DOTS: u32 = 100_000;

// How many bytes of a text are compared in place, at most.
const SHORT_TEXT_BYTES: usize = 64;

/// Prints the text of runs that rise.
pub(crate) fn print_runs<W: fmt::Write>(runs: &[Run], f: &mut fmt::Formatter<W>) -> fmt::Result
    ensures { DisplaysOnOk W.write_str_gives f.old result (Some (runs_text runs.now)) f.new }
{
    let Some((first, rest)) = runs.split_first() else {
        return f.write_str("-");
    };
    let mut node = first.node;
    nodes::print_head(node, f)?;
    fmt::Display::fmt(first, f)?;
    for run in rest {
        if run.node == node {
            write!(f, ",{run}")?;
            continue;
        }
        node = run.node;
        write!(f, " n{node}:{run}")?;
    }
    Ok(())
}

/// Runs that are printed as the text of a context.
#[derive(Clone, Copy)]
struct Printed<'a>(&'a [Run]);

impl fmt::Display for Printed<'_> {
    ghost output = { λ printed. Some (runs_text printed.0.now) };

    fn fmt<W: fmt::Write>(&self, f: &mut fmt::Formatter<W>) -> fmt::Result {
        print_runs(self.0, f)
    }
}

/// The text of runs that rise.
pub(crate) fn text_of(alloc: Global, runs: &[Run]) -> Result<String, AllocError>
    ensures { IfOk result (λ text. string_bytes text ≡ runs_text runs.now) }
{
    Printed(runs).to_string(alloc)
}

/// Whether this is the text of the runs. A short one is compared in place.
pub(crate) fn is_text_of(alloc: Global, runs: &[Run], text: &str) -> Result<bool, AllocError>
    ensures { IfOk result (λ is. IsTrue is ↔ (runs_text runs.now ≡ text.now)) }
{
    let mut short = ArrayString::<SHORT_TEXT_BYTES>::new();
    match write!(short, "{}", Printed(runs)) {
        Ok(()) => Ok(short.as_str() == text),
        Err(_) => {
            let long = text_of(alloc, runs)?;
            Ok(long.as_str() == text)
        }
    }
}

/// The runs that the bytes name, perhaps by other words than their own text.
pub(crate) fn runs_in(alloc: Global, bytes: &[u8]) -> Result<Runs, Fault>
    ensures found { IfOk result (λ runs. read_runs bytes.now ≡ Some runs.items) }
    ensures errors { IfErr result (IsUnread bytes.now) }
{
    let mut runs = Runs::new(alloc);
    let mut node = NodeId::nth(0);
    let mut first = None;
    let mut number = 0;
    for byte in bytes {
        match *byte {
            b'0'..=b'9' => {
                if number > MAX_COUNTER {
                    return Err(Fault::ContextSyntax);
                }
                number = number * 10 + u32::from(*byte - b'0');
            }
            b':' => {
                if number >= u32::from(MAX_NODES) {
                    return Err(Fault::ContextSyntax);
                }
                node = NodeId::nth(number as usize);
                first = None;
                number = 0;
            }
            b'-' => {
                first = Some(number);
                number = 0;
            }
            b',' | b' ' => {
                runs.push(Run::to(node, first, number))?;
                first = None;
                number = 0;
            }
            _ => {}
        }
    }
    runs.push(Run::to(node, first, number))?;
    Ok(runs)
}

/// Whether the runs are apart and rise, in range, with at most as many dots as a text may name.
pub(crate) fn are_allowed(runs: &[Run]) -> bool
    ensures { result ≡ all_allowed 0 0 MAX_CONTEXT_DOTS runs.now }
{
    let mut node = 0;
    let mut least = 0;
    let mut room = MAX_CONTEXT_DOTS;
    for run in runs {
        if !is_allowed(run, node, least, room) {
            return false;
        }
        node = run.node.number();
        least = run.last + 2;
        room -= run.last - run.first + 1;
    }
    true
}

fn is_allowed(run: &Run, node: u8, least: u32, room: u32) -> bool
    ensures { result ≡ allowed node least room run.now }
{
    let own = run.node.number();
    own < MAX_NODES
        && (node < own || node == own && least <= run.first)
        && 1 <= run.first
        && run.first <= run.last
        && run.last <= MAX_COUNTER
        && run.last - run.first < room
}
