// The bytes of short keys.
ghost use Rattle.std.specs.{
  Prelude.{◌≡◌, ◌<◌, ◌==◌, ◌++◌, ◌∷◌, [], drop},
  Cmp.Lexicographic.{pointwise},
  Ordering.{nat_cmp},
};
ghost use Rattle.dy_siblings.specs.inside.Leads.{bytes_from, lead_from};

use crate::keys::MAX_KEY_BYTES;
use std::cmp::Ordering;

// Fourteen bytes, of which zeros stand for those that lack, and how many there are.
pub type Front = [u8; 15];

// The first fourteen bytes, and how many there are in all.
pub(crate) fn front_of(all: &[u8; MAX_KEY_BYTES], count: usize) -> Front
    requires { count < 256 }
    ensures { result ≡ bytes_from 14 0 all.now ++ count ∷ [] }
{
    [
        all[0],
        all[1],
        all[2],
        all[3],
        all[4],
        all[5],
        all[6],
        all[7],
        all[8],
        all[9],
        all[10],
        all[11],
        all[12],
        all[13],
        count as u8,
    ]
}

// The number of the first eight bytes, in which most keys differ.
#[inline(always)]
fn lead(front: &Front) -> u64
    ensures { result ≡ lead_from 8 0 front.now }
{
    u64::from_be_bytes([
        front[0], front[1], front[2], front[3], front[4], front[5], front[6], front[7],
    ])
}

// The number of the last eight, of which the first ends what leads.
#[inline(always)]
fn rest(front: &Front) -> u64
    ensures { result ≡ lead_from 8 0 (drop 7 front.now) }
{
    u64::from_be_bytes([
        front[7], front[8], front[9], front[10], front[11], front[12], front[13], front[14],
    ])
}

// How the number of all fifteen stands to that of others, where the first eight are the same. It is
// a call, since the byte that both words share would be loaded by itself.
#[inline(never)]
fn order_behind(front: &Front, other: &Front) -> Ordering
    requires { lead_from 8 0 front.now ≡ lead_from 8 0 other.now }
    ensures { result ≡ nat_cmp (lead_from 15 0 front.now) (lead_from 15 0 other.now) }
{
    let (mine, theirs) = (rest(front), rest(other));
    mine.cmp(&theirs)
}

// How the number of all fifteen stands to that of others.
#[inline(always)]
pub(crate) fn order(front: &Front, other: &Front) -> Ordering
    ensures { result ≡ nat_cmp (lead_from 15 0 front.now) (lead_from 15 0 other.now) }
{
    let (mine, theirs) = (lead(front), lead(other));
    if mine != theirs {
        return mine.cmp(&theirs);
    }
    order_behind(front, other)
}

// Whether they are the same, where the first eight are.
#[inline(never)]
fn are_same_behind(front: &Front, other: &Front) -> bool
    requires { lead_from 8 0 front.now ≡ lead_from 8 0 other.now }
    ensures { result ≡ pointwise ◌==◌ front.now other.now }
{
    rest(front) == rest(other)
}

// Whether they are the same.
#[inline(always)]
pub(crate) fn are_same(front: &Front, other: &Front) -> bool
    ensures { result ≡ pointwise ◌==◌ front.now other.now }
{
    if lead(front) != lead(other) {
        return false;
    }
    are_same_behind(front, other)
}
