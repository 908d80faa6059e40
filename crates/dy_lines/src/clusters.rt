ghost use Rattle.std.specs.{Prelude.{OnOk}, Io.KnownBytes.{Appends}};
ghost use Rattle.dy_lines.specs.Clusters.{cluster_lines};

use crate::rings::write_tokens;
use dy_ring::Token;
use std::{fmt, io};

/// The first line of an output with steps: how many homes a key has, how many a get needs, and how
/// many a put needs that names no number of its own.
#[derive(Clone, Copy, Debug, PartialEq, Eq)]
pub struct ClusterLine {
    pub n: u8,
    pub r: u8,
    pub w: u8,
}

impl fmt::Display for ClusterLine {
    ghost use Rattle.std.specs.Prelude.{Some};
    ghost use Rattle.dy_lines.specs.Clusters.{cluster_text};

    ghost output = { λ line. Some (cluster_text line.n line.r line.w) };

    fn fmt<W: fmt::Write>(&self, f: &mut fmt::Formatter<W>) -> fmt::Result {
        write!(f, "cluster n {} r {} w {}", self.n, self.r, self.w)
    }
}

/// Writes the line of the cluster, and below it a line for each token.
pub fn write_cluster<W: io::Write>(
    line: ClusterLine,
    tokens: &[Token],
    out: &mut W,
) -> io::Result<()>
    ensures written { OnOk result (Appends (W.contents out.old) (W.contents out.new)
        (cluster_lines line.n line.r line.w tokens.now)) }
{
    writeln!(out, "{line}")?;
    write_tokens(tokens, out)
}
