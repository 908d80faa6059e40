ghost use Rattle.std.specs.{
  Prelude.{◌≡◌, ◌≢◌, ◌≤◌, ◌<◌, ◌++◌, length, take, drop, slice_index_or, vec_len, vec_capacity},
  Prelude.{OnOk, OnErr, IsOkUnless},
  declared.cmp.Ordering.{Ordering},
};
ghost use Rattle.dy_core.specs.Orders.{put};

use dy_dots::Fault;
use dy_siblings::Key;
use std::cmp::Ordering;

/// What is listed in an order.
pub trait Ranked {
    ghost ranked: { Self → Self → Ordering };

    /// How it compares with the other in this order. Takes no memory.
    fn rank(&self, other: &Self) -> Ordering
        ensures { result ≡ ranked self.now other.now };
}

impl Ranked for Key {
    ghost use Rattle.dy_core.specs.Orders.{key_cmp};

    ghost ranked = { key_cmp };

    fn rank(&self, other: &Key) -> Ordering {
        self.cmp(other)
    }
}

// How many items of the list, from its first on, come before this one.
fn place_in<T: Ranked>(list: &[T], item: &T) -> usize
    ensures bound { result ≤ length list.now }
    ensures before { put T.ranked list.now item.now ≡
        take result list.now ++ put T.ranked (drop result list.now) item.now }
    ensures stop { result < length list.now →
        T.ranked item.now (slice_index_or list.now result item.now) ≢ Ordering.Greater }
{
    let mut at = 0;
    for other in list {
        if item.rank(other) != Ordering::Greater {
            return at;
        }
        at += 1;
    }
    at
}

/// Puts the item in its place, instead of one that ties with it. There is room for it. Takes no
/// memory.
pub fn put_reserved<T: Ranked + Drop>(list: &mut Vec<T>, item: T)
    requires { vec_len list.old < vec_capacity list.old }
    ensures { list.new.items ≡ put T.ranked list.old.items item }
{
    let at = place_in(list.as_slice(), &item);
    if at < list.len() && item.rank(&list[at]) == Ordering::Equal {
        list[at] = item;
    } else {
        let inserted = list.insert(at, item);
        prove!(inserted.is_ok());
    }
}

/// Puts the item in its place, instead of one that ties with it.
pub fn put<T: Ranked + Drop>(list: &mut Vec<T>, item: T) -> Result<(), Fault>
    ensures ok { OnOk result (list.new.items ≡ put T.ranked list.old.items item) }
    ensures err { OnErr result (list.new.items ≡ list.old.items) }
    ensures memory { IsOkUnless result Fault.OutOfMemory }
{
    list.reserve(1)?;
    put_reserved(list, item);
    Ok(())
}
