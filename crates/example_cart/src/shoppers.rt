use crate::carts::{CART, united};
use crate::states::{clear, put};
use dy_clients::{Access, Cluster, Context, Fault, Key, Naming, Transport, Value};
use std::sync::Wait;

/// What each shopper puts into the cart: an item without a look, and one after a look.
const ITEMS: [(&str, &str); 3] = [("bread", "butter"), ("milk", "honey"), ("eggs", "salt")];

/// Shops while a node is down, and logs out once it is back; but the last of the three, who forgets
/// to.
pub(crate) fn visit<J: Naming, T: Transport<J>, R: Wait>(
    lent: &mut Access<'_, J, T, R>,
    login: &Key,
    number: usize,
) -> Result<(), Fault> {
    set_up(lent.rt, lent.connection.cluster(), number % 3, false);
    let mut seen = Context::new(lent.alloc);
    let shopped = shop(lent, login, &mut seen, ITEMS[number % 3]);
    set_up(lent.rt, lent.connection.cluster(), number % 3, true);
    shopped?;
    if number < 2 {
        clear(lent, login, &mut seen)?;
    }
    Ok(())
}

/// Logs in, and puts two items into the cart.
fn shop<J: Naming, T: Transport<J>, R: Wait>(
    lent: &mut Access<'_, J, T, R>,
    login: &Key,
    seen: &mut Context,
    items: (&str, &str),
) -> Result<(), Fault> {
    let cart = Key::new(lent.alloc, CART)?;
    let mut none = Context::new(lent.alloc);
    put(lent, login, seen, "here")?;
    put(lent, &cart, &mut none, items.0)?;
    add(lent, &cart, items.1)
}

/// The node goes down, or comes up, where the ring has it.
fn set_up<J: Naming, R: Wait>(rt: &R, cluster: &Cluster<J>, number: usize, is_up: bool) {
    if let Some(node) = cluster.node(number) {
        cluster.set_up(rt, node, is_up);
    }
}

/// Adds an item to the union of all carts that lie there side by side.
fn add<J: Naming, T: Transport<J>, R: Wait>(
    lent: &mut Access<'_, J, T, R>,
    key: &Key,
    item: &str,
) -> Result<(), Fault> {
    let done = lent.connection.get(lent.rt, key)?.done;
    let cart = united(lent.alloc, &done.row, item)?;
    let value = Value::new(lent.alloc, cart.as_bytes())?;
    lent.connection.put(lent.rt, key, &done.context, value)?;
    Ok(())
}
