// The lines of the gets that a session was told.
ghost use Rattle.std.specs.{Prelude.{◌<◌, List, OnOk}, Io.KnownBytes.{Appends}, List.{flat_map}};
ghost use Rattle.dy_shares.specs.Shares.{GetTold};
ghost use Rattle.dy_lines.specs.Tellings.{AreFetchesOf, get_line};

use crate::steps::ToldLine;
use crate::whole::write_whole;
use std::io;
use std::io::Write;

/// Writes a line for each get of the session of this number. These are the fetches that its gets
/// used, so many each.
pub fn write_gets<O: Write>(
    session: usize,
    r: usize,
    fetches: &[usize],
    out: &mut O,
) -> io::Result<()>
    requires some { 0 < r }
    ensures { OnOk result ((gets : List GetTold) → AreFetchesOf r fetches.now gets
        → Appends (O.contents out.old) (O.contents out.new) (flat_map (get_line session) gets)) }
{
    for used in fetches.chunks(r) {
        let line = ToldLine {
            fetches: used,
            session,
        };
        write_whole(&line, out)?;
    }
    Ok(())
}
