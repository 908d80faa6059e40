use dy_dots::Dot;
use dy_siblings::Row;

/// What putting a row in its place put out of it.
#[derive(Drop)]
pub enum Placed {
    /// Nothing was put.
    Nothing,
    /// There was no row.
    New,
    /// The row that was there.
    Over(Row),
    /// Nothing: the row that was there has the version of this dot besides.
    Beside(Dot),
}
