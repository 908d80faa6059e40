use dy_shares::{Naming, Since};
use dy_siblings::Key;

// What a get is to do: it gathers rows of the key, each later than `since`.
#[derive(Drop)]
pub(crate) struct GetTask<'a, J: Naming> {
    pub key: &'a Key,
    pub since: Since<J>,
}
