// The nodes' mailboxes, transports over them, and workers.
ghost use Rattle.std.specs.{Prelude.{◌≡◌, length, IfOk, IsOkUnless}, List.{range_with_len}};
ghost use Rattle.dy_dots.specs.declared.nodes.TheConstants.{MAX_NODES};
ghost use Rattle.dy_transport.specs.Told.{nothing_told};

use crate::clusters::Cluster;
use dy_dots::{Fault, MAX_NODES};
use dy_mailboxes::{Gate, Inbox, Mailboxes, Post, serve};
use dy_shares::Naming;
use std::sync::Wait;

impl<J: Naming> Cluster<J> {
    /// A mailbox for each node, and the ends that its workers receive from, in the order of the
    /// nodes' numbers. The mailboxes close when every post is dropped. Start each node's worker
    /// before a post is handed out. A message lies in its mailbox as long as any post lives, so
    /// without a worker its sender may wait for ever.
    pub fn post(&self) -> Result<(Post<J>, Vec<Inbox<J>>), Fault>
        ensures post { IfOk result (λ p. p.0 ≡ J.ring.nodes) }
        ensures inboxes { IfOk result (λ p. length p.1.items ≡ J.ring.nodes) }
        ensures order { IfOk result (λ p. p.1.items ≡ range_with_len 0 J.ring.nodes) }
        ensures memory { IsOkUnless result Fault.OutOfMemory }
    {
        Post::new(self.alloc, self.ring.nodes())
    }

    /// A transport over the nodes' workers, with sending ends of its own to the post's mailboxes.
    pub fn mailboxes(&self, post: &mut Post<J>) -> Result<Mailboxes<'_, J>, Fault>
        ensures ok { IfOk result (λ mailboxes. mailboxes ≡ nothing_told MAX_NODES) }
        ensures post { post.new ≡ post.old }
        ensures memory { IsOkUnless result Fault.OutOfMemory }
    {
        let ends = post.try_clone()?;
        Mailboxes::new(
            self.alloc,
            self.nodes.as_slice(),
            &self.book,
            ends,
            MAX_NODES as usize,
        )
    }

    /// The worker of the inbox's node. It answers what comes to the node's mailbox until every post
    /// is dropped. May wait for asks and for locks.
    pub fn serve<G: Gate, R: Wait>(&self, rt: &R, inbox: Inbox<J>, gate: &G) {
        serve(rt, self.nodes.as_slice(), &self.book, inbox, gate);
    }
}
