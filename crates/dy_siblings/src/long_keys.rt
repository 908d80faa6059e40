// The bytes of long keys, compared by words.
ghost use Rattle.std.specs.{
  Prelude.{◌≡◌, ◌≤◌, ◌+◌, ◌==◌, drop, length},
  Cmp.Lexicographic.{pointwise},
  Ordering.{nat_cmp},
};
ghost use Rattle.dy_siblings.specs.{
  inside.Leads.{AreFilled, lead_from, whole_of},
  declared.keys.TheConstants.{MAX_KEY_BYTES},
};

use crate::keys::MAX_KEY_BYTES;
use std::cmp::Ordering;

// These bytes, and zeros behind them.
pub(crate) fn filled(bytes: &[u8]) -> [u8; MAX_KEY_BYTES]
    requires { length bytes.now ≤ MAX_KEY_BYTES }
    ensures value { AreFilled bytes.now result }
    ensures size { length result ≡ MAX_KEY_BYTES }
{
    let mut all = [0u8; MAX_KEY_BYTES];
    all[..bytes.len()].copy_from_slice(bytes);
    all
}

// The number of the eight bytes from this place on.
fn word_at(all: &[u8; MAX_KEY_BYTES], place: usize) -> u64
    requires { place + 8 ≤ MAX_KEY_BYTES }
    ensures { result ≡ lead_from 8 0 (drop place all.now) }
{
    u64::from_be_bytes([
        all[place],
        all[place + 1],
        all[place + 2],
        all[place + 3],
        all[place + 4],
        all[place + 5],
        all[place + 6],
        all[place + 7],
    ])
}

// How all bytes stand to others: as the first eight of them do that differ.
pub(crate) fn order_of_words(all: &[u8; MAX_KEY_BYTES], others: &[u8; MAX_KEY_BYTES]) -> Ordering
    ensures { result ≡ nat_cmp (whole_of all.now) (whole_of others.now) }
{
    for word in 0..8 {
        let (mine, theirs) = (word_at(all, 8 * word), word_at(others, 8 * word));
        if mine != theirs {
            return mine.cmp(&theirs);
        }
    }
    Ordering::Equal
}

// Whether the bytes are the same.
pub(crate) fn are_same(all: &[u8; MAX_KEY_BYTES], others: &[u8; MAX_KEY_BYTES]) -> bool
    ensures value { result ≡ pointwise ◌==◌ all.now others.now }
    ensures size { length all.now ≡ length others.now }
{
    *all == *others
}
