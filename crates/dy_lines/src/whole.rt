ghost use Rattle.std.specs.{Prelude.{IfSome, OnOk}, Fmt.{with_newline}, Io.KnownBytes.{Appends}};

use arrayvec::ArrayString;
use std::fmt::{Display, Write as WriteText};
use std::io;
use std::io::Write;

// How many bytes a line that is put together first has at most, its end among them.
const WHOLE_BYTES: usize = 256;

/// Writes the line and its end. Up to 256 bytes reach the writer in one piece, which is faster, and
/// more in the pieces that `Display` makes. Takes no memory.
pub fn write_whole<L: Display, O: Write>(line: &L, out: &mut O) -> io::Result<()>
    ensures bytes { OnOk result (IfSome (with_newline (L.output line.now))
        (Appends (O.contents out.old) (O.contents out.new))) }
{
    let mut text = ArrayString::<WHOLE_BYTES>::new();
    match writeln!(text, "{line}") {
        Ok(()) => out.write_all(text.as_bytes()),
        Err(_) => writeln!(out, "{line}"),
    }
}
