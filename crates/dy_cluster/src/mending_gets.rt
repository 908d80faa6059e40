use dy_coord::GetDone;
use dy_shares::Naming;

/// A get that was answered, and whether each home that it found stale was asked to store the merged
/// row.
#[derive(Drop)]
pub struct MendingGet<J: Naming> {
    pub done: GetDone<J>,
    pub is_mended: bool,
}
