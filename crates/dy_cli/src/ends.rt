/// How a job ended.
#[derive(Clone, Copy, Debug)]
pub struct Ended {
    /// The status to end with.
    pub status: u8,
    /// Whether the line that says why could be written; true where there is nothing to say.
    pub told: bool,
}
