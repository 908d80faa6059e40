use dy_cluster::Closed;
use dy_dots::Fault;

/// A cluster that was closed once its clients had run, and what each of them answered, by its
/// number.
#[derive(Drop)]
pub struct ClientsDone {
    pub closed: Closed,
    pub answers: Vec<Result<(), Fault>>,
}
