use dy_node::Answer;
use dy_shares::Naming;

/// An answer on its way back, with the number of its client's call, that of its ask, and whether it
/// is the last to its ask.
#[derive(Drop)]
pub struct Answered<J: Naming> {
    pub call: u64,
    pub number: usize,
    pub answer: Answer<J>,
    pub is_last: bool,
}
