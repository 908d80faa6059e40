use dy_dots::NodeId;
use dy_siblings::Row;

/// A row that waits to be stored later.
#[derive(Debug)]
pub struct Message {
    pub home: NodeId,
    pub row: Row,
}

impl Drop for Message {
    fn drop(self) {
        let Message { home: _, row: _ } = self;
    }
}
