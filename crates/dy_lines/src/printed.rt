ghost use Rattle.std.specs.Prelude.{Some};
ghost use Rattle.dy_lines.specs.Texts.{hex_text, position_text};

use std::{fmt, str};

/// Bytes that print as lower-case hexadecimal digits, two for each.
#[derive(Clone, Copy, Debug)]
pub struct Hex<'a>(pub &'a [u8]);

impl fmt::Display for Hex<'_> {
    ghost output = { λ hex. Some (hex_text hex.0.now) };

    fn fmt<W: fmt::Write>(&self, f: &mut fmt::Formatter<W>) -> fmt::Result {
        let mut digits = [0u8; 128];
        for part in self.0.chunks(64) {
            let count = 2 * part.len();
            let Ok(()) = hex::encode_to_slice(part, &mut digits[..count]) else {
                unreachable!();
            };
            let Ok(text) = str::from_utf8(&digits[..count]) else {
                unreachable!();
            };
            f.write_str(text)?;
        }
        Ok(())
    }
}

/// A position on the ring, that prints as 32 hexadecimal digits.
#[derive(Clone, Copy, Debug)]
pub struct Position(pub u128);

impl fmt::Display for Position {
    ghost output = { λ position. Some (position_text position.0) };

    fn fmt<W: fmt::Write>(&self, f: &mut fmt::Formatter<W>) -> fmt::Result {
        let bytes = self.0.to_be_bytes();
        write!(f, "{}", Hex(&bytes))
    }
}
