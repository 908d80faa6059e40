/// What a storm does: so many clients with so many turns each, drawn from what the seed gives,
/// whether nodes fail meanwhile, and whether its steps are printed.
#[derive(Clone, Copy, Debug, PartialEq, Eq)]
pub struct Storm {
    pub seed: u64,
    pub threads: u8,
    pub puts: u32,
    pub faults: bool,
    pub steps: bool,
}
