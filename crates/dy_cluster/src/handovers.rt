ghost use Rattle.std.specs.Prelude.{◌≡◌};
ghost use Rattle.dy_cluster.specs.Named.{IsNodeOf};

use crate::clusters::Cluster;
use dy_dots::{Fault, NodeId};
use dy_handoff::{Pass, Passing};
use dy_mailboxes::Post;
use dy_shares::Naming;
use std::marker::Model;
use std::sync::Wait;

/// Passes at one node of a cluster, for a worker, and how many were made. With a post it asks the
/// homes' workers, and drops the post at its end. Without one it asks on the caller's own thread.
#[derive(Drop)]
pub struct Handover<'a, J: Naming> {
    cluster: &'a Cluster<J>,
    post: Option<Post<J>>,
    node: NodeId,
    made: u64,
    ghost ring: { IsNodeOf J.ring node },
}

impl<'a, J: Naming> Model for Handover<'a, J> {
    ghost use Rattle.std.specs.Prelude.{ℕ};

    ghost Value = { ℕ };

    ghost view = { λ handover. handover.made };
}

impl<J: Naming> Cluster<J> {
    /// A handover of this node's hints, which has made no pass. Takes no memory.
    pub fn handover(&self, post: Option<Post<J>>, node: NodeId) -> Handover<'_, J>
        requires ring { IsNodeOf J.ring node }
        ensures { result ≡ 0 }
    {
        Handover {
            cluster: self,
            post,
            node,
            made: 0,
        }
    }
}

impl<J: Naming> Passing for Handover<'_, J> {
    ghost made = { λ handover. handover };

    fn pass_once<R: Wait>(&mut self, rt: &R) -> Result<Pass, Fault> {
        self.made += 1;
        match &mut self.post {
            Some(post) => self.cluster.handoff_by_post(rt, post, self.node),
            None => self.cluster.handoff(rt, self.node),
        }
    }
}
