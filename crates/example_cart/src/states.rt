use crate::carts::{Cart, all_of};
use dy_clients::{Access, Context, Fault, Key, Naming, Transport, Value};
use std::sync::Wait;

/// Puts a text behind all that was seen of the key. Then it is seen itself: a later get may miss
/// it, where other nodes stand in for its homes.
pub(crate) fn put<J: Naming, T: Transport<J>, R: Wait>(
    lent: &mut Access<'_, J, T, R>,
    key: &Key,
    seen: &mut Context,
    text: &str,
) -> Result<(), Fault> {
    let value = Value::new(lent.alloc, text.as_bytes())?;
    let done = lent.connection.put(lent.rt, key, seen, value)?;
    seen.insert(done.dot)
}

/// All that lies there side by side. Then it is seen.
pub(crate) fn look<J: Naming, T: Transport<J>, R: Wait>(
    lent: &mut Access<'_, J, T, R>,
    key: &Key,
    seen: &mut Context,
) -> Result<Cart, Fault> {
    let done = lent.connection.get(lent.rt, key)?.done;
    seen.union(lent.alloc, &done.context)?;
    all_of(lent.alloc, &done.row)
}

/// Puts the last of all that lies there side by side in its place. Gives how many it was.
pub(crate) fn reconcile<J: Naming, T: Transport<J>, R: Wait>(
    lent: &mut Access<'_, J, T, R>,
    key: &Key,
) -> Result<usize, Fault> {
    let mut seen = Context::new(lent.alloc);
    let found = look(lent, key, &mut seen)?;
    if let Some(last) = found.last() {
        put(lent, key, &mut seen, last.as_str())?;
    }
    Ok(found.len())
}

/// Deletes all that was seen, and all that lies there side by side. Gives how many it was.
pub(crate) fn clear<J: Naming, T: Transport<J>, R: Wait>(
    lent: &mut Access<'_, J, T, R>,
    key: &Key,
    seen: &mut Context,
) -> Result<usize, Fault> {
    let found = look(lent, key, seen)?;
    lent.connection.delete(lent.rt, key, seen)?;
    Ok(found.len())
}

/// Puts three states of a device. One that looks puts each behind those that it found and the last
/// of its own; one that does not leaves them side by side.
pub(crate) fn beat<J: Naming, T: Transport<J>, R: Wait>(
    lent: &mut Access<'_, J, T, R>,
    key: &Key,
    looks: bool,
) -> Result<(), Fault> {
    let mut seen = Context::new(lent.alloc);
    for state in ["1", "2", "3"] {
        if looks {
            look(lent, key, &mut seen)?;
        } else {
            seen = Context::new(lent.alloc);
        }
        put(lent, key, &mut seen, state)?;
    }
    Ok(())
}
