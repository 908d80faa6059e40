// The lines of an input, one after another.
ghost use Rattle.std.specs.{
  Prelude.{◌≡◌, ◌≢◌, ◌≤◌, ◌++◌, List, ℕ, [], false, All, IfOk, IfSome, IsNone, IsOkUnless, IsTrue},
  Prelude.{vec_capacity, vec_len},
  Io.KnownBytes.{Consumes},
};
ghost use Rattle.dy_dots.specs.declared.faults.Fault.TheVariants as Fault;
ghost use Rattle.dy_serve.specs.{
  InputLines.{IsAllOf, IsKept, IsRead, is_blank, is_space, is_too_long, taken},
  declared.input_lines.TheConstants.{MAX_LINE_BYTES},
};

use dy_dots::Fault;
use memchr::memchr;
use std::alloc::Global;
use std::io;
use std::io::{BufRead, ErrorKind};

/// How many bytes a line has at most, without its line feed: 1 MiB.
pub const MAX_LINE_BYTES: usize = 1_048_576;

// What lies ready of a line.
#[derive(Clone, Copy, PartialEq, Eq)]
enum Piece {
    // A part of it, or nothing yet.
    Part,
    // The rest of it, with its line feed.
    Rest,
    // Nothing, since the input is at its end.
    End,
}

/// A line as far as it was read. Room for the longest is had when it is made. Of one that is too
/// long nothing is kept.
#[derive(Drop)]
pub(crate) struct Line {
    bytes: Vec<u8>,
    is_long: bool,
    ghost room: { MAX_LINE_BYTES ≤ vec_capacity bytes },
    ghost fits: { vec_len bytes ≤ MAX_LINE_BYTES },
}

impl Line {
    /// An empty line.
    pub(crate) fn new(alloc: Global) -> Result<Line, Fault>
        ensures empty { IfOk result (λ line. IsKept line.is_long line.bytes.items []) }
        ensures memory { IsOkUnless result Fault.OutOfMemory }
    {
        let bytes = Vec::with_capacity(alloc, MAX_LINE_BYTES)?;
        Ok(Line {
            bytes,
            is_long: false,
        })
    }

    /// The line's bytes, without its line feed, unless they are too many. Takes no memory.
    pub(crate) fn bytes(&self) -> Option<&[u8]>
        ensures { (whole : List ℕ) → IsKept self.now.is_long self.now.bytes.items whole →
            (IfSome result (λ bytes. (is_too_long whole ≡ false) × (bytes.now ≡ whole)))
            × (IsNone result → is_too_long whole ≢ false) }
    {
        if self.is_long {
            None
        } else {
            Some(self.bytes.as_slice())
        }
    }

    // Forgets what was read.
    fn clear(&mut self)
        ensures { IsKept self.new.is_long self.new.bytes.items [] }
    {
        self.bytes.clear();
        self.is_long = false;
    }

    // Puts these bytes behind those that were read.
    fn keep(&mut self, part: &[u8])
        ensures { (whole : List ℕ) → IsKept self.old.is_long self.old.bytes.items whole →
            IsKept self.new.is_long self.new.bytes.items (whole ++ part.now) }
    {
        if self.is_long || part.len() > MAX_LINE_BYTES - self.bytes.len() {
            self.is_long = true;
            self.bytes.clear();
            return;
        }
        let Ok(()) = self.bytes.extend_from_slice(part) else {
            unreachable!();
        };
    }

    // Takes what lies ready of the line.
    fn take_piece<I: BufRead>(&mut self, input: &mut I) -> io::Result<Piece>
        ensures { IfOk result (λ piece. (part : List ℕ)
            × Consumes (I.remaining input.old) (I.remaining input.new) (taken piece part)
            × All (λ x. x ≢ 10) part
            × ((whole : List ℕ) → IsKept self.old.is_long self.old.bytes.items whole →
            IsKept self.new.is_long self.new.bytes.items (whole ++ part))
            × (piece ≡ Piece.End → (part ≡ []) × IsAllOf (I.remaining input.old) [])) }
    {
        let ready = match input.fill_buf() {
            Ok(ready) => ready,
            Err(error) if error.kind() == ErrorKind::Interrupted => return Ok(Piece::Part),
            Err(error) => return Err(error),
        };
        if ready.is_empty() {
            return Ok(Piece::End);
        }
        match memchr(b'\n', ready) {
            Some(at) => {
                self.keep(&ready[..at]);
                input.consume(at + 1);
                Ok(Piece::Rest)
            }
            None => {
                let count = ready.len();
                self.keep(ready);
                input.consume(count);
                Ok(Piece::Part)
            }
        }
    }

    /// Reads the next line of the input in the place of this one, and says whether it is the last,
    /// which the end of the input ends and no line feed. Takes no memory.
    pub(crate) fn read<I: BufRead>(&mut self, input: &mut I) -> io::Result<bool>
        ensures { IfOk result (λ is_last. (whole bytes : List ℕ) × IsRead is_last whole bytes
            × All (λ x. x ≢ 10) whole × IsKept self.new.is_long self.new.bytes.items whole
            × Consumes (I.remaining input.old) (I.remaining input.new) bytes
            × (IsTrue is_last → IsAllOf (I.remaining input.old) bytes)) }
    {
        self.clear();
        for _ in 0..u64::MAX {
            match self.take_piece(input)? {
                Piece::Part => {}
                Piece::Rest => return Ok(false),
                Piece::End => return Ok(true),
            }
        }
        Err(ErrorKind::Other.into())
    }
}

/// Whether the line is blank.
pub(crate) fn is_blank(line: &[u8]) -> bool
    ensures { result ≡ is_blank line.now }
{
    line.iter().all(|byte| is_space(*byte))
}

// Whether the byte is a blank, a tab or a carriage return.
fn is_space(byte: u8) -> bool
    ensures { result ≡ is_space byte }
{
    byte == b' ' || byte == b'\t' || byte == b'\r'
}
