ghost use Rattle.std.specs.Prelude.{◌≡◌};
ghost use Rattle.dy_script.specs.Tokens.{token_of};

/// The position that a token's text names: 2 to 32 hexadecimal digits, even in number, are its
/// first bytes, and the rest is zero. Takes no memory.
pub fn token(text: &str) -> Option<u128>
    ensures { result ≡ token_of text.now }
{
    let count = text.len() / 2;
    if count == 0 || text.len() > 32 {
        return None;
    }
    let mut bytes = [0u8; 16];
    match hex::decode_to_slice(text, &mut bytes[..count]) {
        Ok(()) => Some(u128::from_be_bytes(bytes)),
        Err(_) => None,
    }
}
