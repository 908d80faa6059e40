ghost use Rattle.std.specs.{
  Prelude.{◌≡◌, ◌<◌, ◌≤◌, ◌^◌, false, length, IfOk, IsOkUnless},
  List.{range_with_len},
};

use crate::parcels::Posted;
use dy_channels::{Outbox, Receiver, mailbox};
use dy_dots::Fault;
use dy_shares::Naming;
use std::alloc::Global;
use std::marker::Model;
use std::sync::Wait;

/// How many asks lie in a mailbox at most.
pub const MAILBOX_ROOM: usize = 1024;

/// Where asks are posted: a mailbox for each node of one cluster, in the order of their numbers.
pub struct Post<J: Naming> {
    alloc: Global,
    boxes: Vec<Outbox<Posted<J>>>,
}

impl<J: Naming> Drop for Post<J> {
    fn drop(self) {
        let Post { alloc: _, boxes: _ } = self;
    }
}

impl<J: Naming> Model for Post<J> {
    ghost use Rattle.std.specs.Prelude.{◌<◌, ◌^◌, ℕ, vec_len};

    ghost Value = { ℕ };

    ghost view = { λ post. vec_len post.boxes };

    ghost invariant = { λ post. vec_len post.boxes < 2 ^ 8 };
}

/// The end of a node's mailbox that its worker receives from. It knows the node's number.
pub struct Inbox<J: Naming> {
    node: u8,
    asks: Receiver<Posted<J>>,
}

impl<J: Naming> Drop for Inbox<J> {
    fn drop(self) {
        let Inbox { node: _, asks: _ } = self;
    }
}

impl<J: Naming> Model for Inbox<J> {
    ghost use Rattle.std.specs.Prelude.{ℕ};

    ghost Value = { ℕ };

    ghost view = { λ inbox. inbox.node };
}

impl<J: Naming> Inbox<J> {
    /// The number of the node. Takes no memory.
    pub fn node(&self) -> u8
        ensures { result ≡ self.now }
    {
        self.node
    }

    /// The next ask; none where none lies there and every post is dropped. May wait for one. Takes
    /// no memory.
    #[inline(always)]
    pub(crate) fn receive<R: Wait>(&mut self, rt: &R) -> Option<Posted<J>>
        ensures same { self.new ≡ self.old }
    {
        self.asks.receive(rt)
    }

    /// The next ask, where one lies there. Takes no memory.
    #[inline(always)]
    pub(crate) fn take<R: Wait>(&mut self, rt: &R) -> Option<Posted<J>>
        ensures same { self.new ≡ self.old }
    {
        self.asks.take(rt)
    }
}

impl<J: Naming> Post<J> {
    /// Mailboxes for so many nodes, and the ends that receive, in the same order.
    pub fn new(alloc: Global, nodes: u8) -> Result<(Post<J>, Vec<Inbox<J>>), Fault>
        ensures post { IfOk result (λ p. p.0 ≡ nodes) }
        ensures inboxes { IfOk result (λ p. length p.1.items ≡ nodes) }
        ensures order { IfOk result (λ p. p.1.items ≡ range_with_len 0 nodes) }
        ensures memory { IsOkUnless result Fault.OutOfMemory }
    {
        let mut boxes = Vec::with_capacity(alloc, usize::from(nodes))?;
        let mut inboxes = Vec::with_capacity(alloc, usize::from(nodes))?;
        for node in 0..nodes {
            let (outbox, asks) = mailbox(alloc, MAILBOX_ROOM)?;
            boxes.push_reserved(outbox);
            inboxes.push_reserved(Inbox { node, asks });
        }
        Ok((Post { alloc, boxes }, inboxes))
    }

    /// How many mailboxes there are. Takes no memory.
    pub fn count(&self) -> usize
        ensures value { result ≡ self.now }
        ensures small { result < 2 ^ 8 }
    {
        self.boxes.len()
    }

    /// One more set of ends that send to the same mailboxes.
    pub fn try_clone(&mut self) -> Result<Post<J>, Fault>
        ensures post { IfOk result (λ post. post ≡ self.old) }
        ensures same { self.new ≡ self.old }
        ensures memory { IsOkUnless result Fault.OutOfMemory }
    {
        let mut boxes = Vec::with_capacity(self.alloc, self.boxes.len())?;
        for outbox in self.boxes.iter_mut() {
            boxes.push(outbox.try_clone()?)?;
        }
        Ok(Post {
            alloc: self.alloc,
            boxes,
        })
    }

    /// Posts an ask, and says whether its mailbox stands open. May wait while the mailbox is full.
    /// Takes no memory.
    pub(crate) fn send<R: Wait>(&mut self, rt: &R, posted: Posted<J>) -> bool
        ensures absent { self.old ≤ posted.to → result ≡ false }
        ensures same { self.new ≡ self.old }
    {
        match self.boxes.get_mut(usize::from(posted.to.number())) {
            Some(outbox) => outbox.send(rt, posted),
            None => false,
        }
    }
}
