/// What a pass did: how many asks it made, how many of them were answered by receipts, and how many
/// dots the node gave up.
#[derive(Clone, Copy, Debug, PartialEq, Eq)]
pub struct Pass {
    pub offers: usize,
    pub stored: usize,
    pub released: usize,
}
