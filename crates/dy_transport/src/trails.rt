ghost use Rattle.std.specs.Prelude.{◌≡◌, ◌<◌, ◌+◌, ◌*◌, ◌^◌, length, IfOk, IsOkUnless};
ghost use Rattle.dy_transport.specs.{
  Told.{nothing_told, with_ask, with_none, with_reply, with_try},
  declared.transports.TheConstants.{SPARE_TRIES},
};

use crate::asked::Asked;
use crate::replies::Reply;
use crate::snapshots::show;
use crate::transports::SPARE_TRIES;
use crate::tries::Try;
use dy_dots::{Fault, NodeId};
use dy_node::{Answer, Ask};
use dy_shares::Naming;
use std::alloc::Global;
use std::marker::Model;

/// The trace of one call, with room for all of it.
pub struct Trail<J: Naming> {
    tries: Vec<Try<J>>,
    asks: Vec<Asked>,
    replies: Vec<Reply<J>>,
    drained: bool,
    room: usize,
}

impl<J: Naming> Drop for Trail<J> {
    fn drop(self) {
        let Trail {
            tries: _,
            asks: _,
            replies: _,
            drained: _,
            room: _,
        } = self;
    }
}

impl<J: Naming> Model for Trail<J> {
    ghost use Rattle.std.specs.{Prelude.{◌≤◌, ◌+◌, ◌*◌, vec_capacity}, Coded.{codes}};
    ghost use Rattle.dy_transport.specs.{
      declared.transports.TheConstants.{SPARE_TRIES},
      Told.{Told},
    };
    ghost use Rattle.dy_dots.specs.Dots.{dot_set_code};
    ghost use Rattle.dy_siblings.specs.Siblings.{siblings_code};
    ghost use Rattle.dy_shares.specs.Codes.{answer_code, receipt_parts_code as receipt_code};

    ghost Value = { Told J };

    ghost coded = { Prim.hlevel (codes, dot_set_code, siblings_code, receipt_code, answer_code) };

    ghost view = { λ t.
        record {
          tries = t.tries.items;
          asks = t.asks.items;
          replies = t.replies.items;
          drained = t.drained;
          room = t.room;
        } };

    ghost invariant = { λ t.
        (t.room ≤ vec_capacity t.asks) × (2 * t.room ≤ vec_capacity t.replies)
        × (t.room + SPARE_TRIES ≤ vec_capacity t.tries) };
}

impl<J: Naming> Trail<J> {
    /// An empty trace, with room for this many asks, two answers to each, and the tries.
    pub fn new(alloc: Global, room: usize) -> Result<Trail<J>, Fault>
        requires { room < 2 ^ 32 }
        ensures ok { IfOk result (λ trail. trail ≡ nothing_told room) }
        ensures memory { IsOkUnless result Fault.OutOfMemory }
    {
        let tries = Vec::with_capacity(alloc, room + SPARE_TRIES)?;
        let asks = Vec::with_capacity(alloc, room)?;
        let replies = Vec::with_capacity(alloc, 2 * room)?;
        Ok(Trail {
            tries,
            asks,
            replies,
            drained: false,
            room,
        })
    }

    /// For how many asks there is room. Takes no memory.
    pub fn room(&self) -> usize
        ensures { result ≡ self.now.room }
    {
        self.room
    }

    /// Adds a try. Takes no memory.
    pub fn note_try(&mut self, tried: Try<J>)
        requires { length self.old.tries < self.old.room + SPARE_TRIES }
        ensures { self.new ≡ with_try self.old tried }
    {
        self.tries.push_reserved(tried);
    }

    /// Adds an ask, after the answers that were read so far, and gives its number, from 0. Takes no
    /// memory.
    pub fn note_ask(&mut self, to: NodeId, ask: &Ask<'_, J>) -> usize
        requires { length self.old.asks < self.old.room }
        ensures number { result ≡ length self.old.asks }
        ensures told { self.new ≡ with_ask self.old to ask.now }
    {
        let number = self.asks.len();
        let read = self.replies.len();
        self.asks.push_reserved(Asked::new(to, ask, read));
        self.drained = false;
        number
    }

    /// Adds an answer to the ask of this number. Takes no memory.
    pub fn note_reply(&mut self, number: usize, node: NodeId, home: NodeId, answer: &Answer<J>)
        requires { length self.old.replies < 2 * self.old.room }
        ensures { self.new ≡ with_reply self.old number node home answer.now }
    {
        let reply = Reply {
            number,
            node,
            home,
            answer: show(answer),
        };
        self.replies.push_reserved(reply);
    }

    /// Notes that no answer is left. Takes no memory.
    pub fn note_none(&mut self)
        ensures { self.new ≡ with_none self.old }
    {
        self.drained = true;
    }

    /// Empties the trace for the next call. Takes no memory.
    pub fn renew(&mut self)
        ensures { self.new ≡ nothing_told self.old.room }
    {
        self.tries.clear();
        self.asks.clear();
        self.replies.clear();
        self.drained = false;
    }
}
