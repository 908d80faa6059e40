use dy_clients::{Closed, Fault, Key, Row};
use std::alloc::Global;
use std::collections::BTreeSet;

/// The key of the cart.
pub(crate) const CART: &[u8] = b"cart";

/// The names of what is in a cart.
pub(crate) type Cart = BTreeSet<String>;

/// Adds what each of the siblings has.
fn unite(alloc: Global, cart: &mut Cart, row: &Row) -> Result<(), Fault> {
    for version in row.versions() {
        if let Some(value) = version.value() {
            let items = std::str::from_utf8(value.as_bytes()).unwrap_or("?");
            for item in items.split(' ') {
                cart.insert(String::from_str(alloc, item)?)?;
            }
        }
    }
    Ok(())
}

/// All that the siblings have.
pub(crate) fn all_of(alloc: Global, row: &Row) -> Result<Cart, Fault> {
    let mut cart = Cart::new(alloc);
    unite(alloc, &mut cart, row)?;
    Ok(cart)
}

/// The union of what the siblings have, and an item more.
pub(crate) fn united(alloc: Global, row: &Row, item: &str) -> Result<String, Fault> {
    let mut cart = all_of(alloc, row)?;
    cart.insert(String::from_str(alloc, item)?)?;
    text_of(alloc, &cart)
}

/// The names, with blanks between.
fn text_of(alloc: Global, cart: &Cart) -> Result<String, Fault> {
    let mut text = String::new(alloc);
    for item in cart {
        if !text.is_empty() {
            text.push(' ')?;
        }
        text.push_str(item.as_str())?;
    }
    Ok(text)
}

/// The names in all that the nodes hold of the key.
pub(crate) fn text_at(alloc: Global, closed: &Closed, key: &Key) -> Result<String, Fault> {
    let mut cart = Cart::new(alloc);
    for holding in &closed.audit.held {
        if holding.row.key() == key {
            unite(alloc, &mut cart, &holding.row)?;
        }
    }
    text_of(alloc, &cart)
}
