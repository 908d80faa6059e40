use dy_book::VouchedRow;
use dy_dots::Dot;
use dy_shares::{Naming, Receipt};

/// The begin of a put: the dot of the new version, the whole row that is now kept for the home, for
/// which the book vouches, and the version's receipt.
#[derive(Drop)]
pub struct Begun<J: Naming> {
    pub dot: Dot,
    pub row: VouchedRow<J>,
    pub receipt: Receipt<J>,
}
