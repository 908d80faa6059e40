use crate::lists::Ranked;
use dy_dots::Dot;
use dy_siblings::Key;
use std::cmp::Ordering;

/// A put that was told that w homes have its version (Dynamo, section 4.5). Acks are ordered by the
/// bytes of their keys, then by dot, then by w.
#[derive(Debug, PartialEq, Eq, Drop)]
pub struct Acked {
    pub key: Key,
    pub dot: Dot,
    pub w: u8,
}

impl Ranked for Acked {
    ghost use Rattle.dy_core.specs.Orders.{ack_cmp};

    ghost ranked = { ack_cmp };

    fn rank(&self, other: &Acked) -> Ordering {
        // Step by step: most acks that are compared have two keys, or two dots.
        match self.key.cmp(&other.key) {
            Ordering::Equal => match self.dot.cmp(&other.dot) {
                Ordering::Equal => self.w.cmp(&other.w),
                order => order,
            },
            order => order,
        }
    }
}
