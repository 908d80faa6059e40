ghost use Rattle.std.specs.{Prelude.{◌≡◌, map, IfOk, IsOkUnless}, List.{All}};
ghost use Rattle.dy_node_store.specs.Rows.{IsRowOf};
ghost use Rattle.dy_hint_store.specs.Hints.{shown};
ghost use Rattle.dy_shares.specs.Shares.{BelongsTo, steps_of};
ghost use Rattle.dy_book.specs.Books.{world_of};
ghost use Rattle.dy_node.specs.{
  Stored.{ShowsNothing, kept_rows},
  Nodes.{HoldsAs, first_state, with_mode, with_up},
};

use crate::messages::Message;
use crate::stores::Stores;
use dy_book::Book;
use dy_dots::{Fault, NodeId};
use dy_hint_store::RowRefFor;
use dy_modes::Mode;
use dy_shares::{Naming, NodeShare};
use dy_siblings::Key;
use std::alloc::Global;
use std::collections::VecDeque;
use std::marker::Model;

/// A node: its rows, its share of the book, whether it is up, what it does with asks, and the
/// messages that it stores later. It has a share, so it can't be dropped.
pub struct Node<J: Naming> {
    pub(crate) alloc: Global,
    pub(crate) stores: Stores,
    pub(crate) share: NodeShare<J>,
    pub(crate) is_up: bool,
    pub(crate) mode: Mode,
    pub(crate) waiting: VecDeque<Message>,
}

impl<J: Naming> Model for Node<J> {
    ghost use Rattle.dy_node.specs.{Stored.{Shows}, Nodes.{AreDeferred, NodeState, node_code}};

    ghost Value = { NodeState };

    ghost coded = { node_code };

    ghost view = { λ n. record {
      part = n.share;
      rooms = n.stores.rooms;
      is_up = n.is_up;
      mode = n.mode;
      waiting = n.waiting.items;
    } };

    ghost invariant = { λ n.
        Shows n.share n.stores × AreDeferred J.ring J.n n.share.node n.waiting.items };
}

impl<J: Naming> Node<J> {
    /// A node that is up and keeps nothing. Its share has no step. Takes no memory.
    pub fn new(alloc: Global, share: NodeShare<J>) -> Node<J>
        requires { ShowsNothing share }
        ensures { result ≡ first_state share }
    {
        let stores = Stores::new(alloc, share.node());
        Node {
            alloc,
            stores,
            share,
            is_up: true,
            mode: Mode::Plain,
            waiting: VecDeque::new(alloc),
        }
    }

    /// Whether it is up. Takes no memory.
    pub fn is_up(&self) -> bool
        ensures { result ≡ self.now.is_up }
    {
        self.is_up
    }

    /// What it does with asks. Takes no memory.
    pub fn mode(&self) -> Mode
        ensures { result ≡ self.now.mode }
    {
        self.mode
    }

    /// Its number. Takes no memory.
    pub fn number(&self) -> NodeId
        ensures { result ≡ self.now.part.node }
    {
        self.share.node()
    }

    /// Goes down, or comes up. Takes no memory.
    pub fn set_up(&mut self, is_up: bool)
        ensures { self.new ≡ with_up self.old is_up }
    {
        self.is_up = is_up;
    }

    /// Sets what it does with asks. Takes no memory.
    pub fn set_fault(&mut self, mode: Mode)
        ensures { self.new ≡ with_mode self.old mode }
    {
        self.mode = mode;
    }

    /// What the node keeps is what the world holds at it, and its share is its part of the log.
    /// Takes no memory.
    pub fn agree(&mut self, book: &mut Book<J>)
        ensures node { self.new ≡ self.old }
        ensures book { book.new ≡ book.old }
        ensures belongs { BelongsTo (steps_of book.old.log) self.old.part }
        ensures holds { HoldsAs (world_of book.old) self.old }
    {
        book.agree(&mut self.share);
    }

    /// What the node keeps of the key: its own row, and then its hints in the order of their homes.
    /// A node that is down gives it too.
    pub fn rows(&self, key: &Key) -> Result<Vec<RowRefFor<'_>>, Fault>
        ensures value { IfOk result
            (λ rows. map shown rows.items ≡ kept_rows self.now.rooms key.now) }
        ensures of_key { IfOk result
            (λ rows. All (λ row. IsRowOf key.now row.1) (map shown rows.items)) }
        ensures memory { IsOkUnless result Fault.OutOfMemory }
    {
        let rows = self.stores.list_key(self.alloc, key)?;
        Ok(rows)
    }
}
