ghost use Rattle.std.specs.{Prelude.{OnOk}, Io.KnownBytes.{Appends}};
ghost use Rattle.dy_lines.specs.Clusters.{token_lines};

use crate::listed::Listed;
use crate::printed::{Hex, Position};
use dy_dots::NodeId;
use dy_ring::Token;
use dy_siblings::Key;
use std::{fmt, io};

/// The line of a token: its position, and its node.
#[derive(Clone, Copy, Debug)]
pub struct TokenLine {
    pub position: u128,
    pub node: NodeId,
}

impl fmt::Display for TokenLine {
    ghost use Rattle.std.specs.Prelude.{Some};
    ghost use Rattle.dy_lines.specs.Audits.{token_text};

    ghost output = { λ line. Some (token_text line.position line.node) };

    fn fmt<W: fmt::Write>(&self, f: &mut fmt::Formatter<W>) -> fmt::Result {
        let position = Position(self.position);
        write!(f, "token {position} {}", self.node.number())
    }
}

/// Writes a line for each token.
pub fn write_tokens<W: io::Write>(tokens: &[Token], out: &mut W) -> io::Result<()>
    ensures written { OnOk result (Appends (W.contents out.old) (W.contents out.new)
        (token_lines tokens.now)) }
{
    for (position, node) in tokens {
        let line = TokenLine {
            position: *position,
            node: *node,
        };
        writeln!(out, "{line}")?;
    }
    Ok(())
}

/// The line of a key: its position, and all nodes in the order in which it prefers them.
#[derive(Clone, Copy, Debug)]
pub struct KeyLine<'a> {
    pub key: &'a Key,
    pub position: u128,
    pub nodes: &'a [NodeId],
}

impl fmt::Display for KeyLine<'_> {
    ghost use Rattle.std.specs.Prelude.{Some};
    ghost use Rattle.dy_lines.specs.Audits.{key_text};

    ghost output = { λ line. Some (key_text line.key.now line.position line.nodes.now) };

    fn fmt<W: fmt::Write>(&self, f: &mut fmt::Formatter<W>) -> fmt::Result {
        let key = Hex(self.key.as_bytes());
        let position = Position(self.position);
        write!(
            f,
            "key {key} position {position} nodes{}",
            Listed(self.nodes)
        )
    }
}
