ghost use Rattle.std.specs.Prelude.{◌≡◌, ◌<◌, ◌^◌, IfOk, IsOk, IsOkUnless, OnErr, OnOk, length};
ghost use Rattle.dy_node.specs.Answers.{MayAsk};
ghost use Rattle.dy_transport.specs.Told.{nothing_told, with_ask};

use crate::lines::Line;
use crate::reaches::Reach;
use crate::transports::Transport;
use crate::tries::Try;
use dy_book::Book;
use dy_core::Place;
use dy_dots::{Fault, NodeId};
use dy_node::{Answer, Ask, Node};
use dy_shares::Naming;
use std::alloc::Global;
use std::marker::Model;
use std::sync::{Mutex, Wait};

/// A transport on the caller's own thread: an ask is answered at once. The nodes lie in the order
/// of their numbers. Each call locks the node, then the book, and never two nodes.
pub struct Direct<'a, J: Naming> {
    reach: Reach<'a, J>,
    line: Line<J>,
}

impl<'a, J: Naming> Drop for Direct<'a, J> {
    fn drop(self) {
        let Direct { reach: _, line: _ } = self;
    }
}

impl<'a, J: Naming> Model for Direct<'a, J> {
    ghost use Rattle.std.specs.Coded.{codes};
    ghost use Rattle.dy_dots.specs.Dots.{dot_set_code};
    ghost use Rattle.dy_siblings.specs.Siblings.{siblings_code};
    ghost use Rattle.dy_shares.specs.Codes.{answer_code, receipt_parts_code as receipt_code};
    ghost use Rattle.dy_transport.specs.Told.{Told};

    ghost Value = { Told J };

    ghost coded = { Prim.hlevel (codes, dot_set_code, siblings_code, receipt_code, answer_code) };

    ghost view = { λ d. d.line.told };
}

impl<'a, J: Naming> Direct<'a, J> {
    /// A transport of these nodes and this book, with room for this many asks.
    pub fn new(
        alloc: Global,
        nodes: &'a [Mutex<Node<J>>],
        book: &'a Mutex<Book<J>>,
        room: usize,
    ) -> Result<Direct<'a, J>, Fault>
        requires { room < 2 ^ 32 }
        ensures ok { IfOk result (λ direct. direct ≡ nothing_told room) }
        ensures memory { IsOkUnless result Fault.OutOfMemory }
    {
        let line = Line::new(alloc, room)?;
        let reach = Reach::new(alloc, nodes, book);
        Ok(Direct { reach, line })
    }

    // Asks a node that is down, or in another mode than the plain one. It is a call of its own,
    // since few nodes are.
    #[inline(never)]
    fn ask_by_mode<R: Wait>(&mut self, rt: &R, to: NodeId, ask: &Ask<'_, J>)
        requires room { length self.old.asks < self.old.room }
        requires may_ask { MayAsk J.ring J.n to ask.now }
        ensures { self.new ≡ with_ask self.old to ask.now }
    {
        let (first, second) = self.reach.answer_at(rt, to, ask);
        self.line.put(to, ask, first, second);
    }
}

impl<J: Naming> Transport<J> for Direct<'_, J> {
    ghost told = { λ d. d };

    fn room(&self) -> usize {
        self.line.room()
    }

    fn reach(&self) -> &Reach<'_, J> {
        &self.reach
    }

    fn note_try(&mut self, tried: &mut Option<Try<J>>) {
        if let Some(tried) = tried.take() {
            self.line.note_try(tried);
        }
    }

    fn ask<R: Wait>(&mut self, rt: &R, to: NodeId, ask: &Ask<'_, J>) {
        match self.reach.answer_plainly_at(rt, to, ask) {
            Some(answer) => self.line.put(to, ask, answer, None),
            None => self.ask_by_mode(rt, to, ask),
        }
    }

    #[inline(always)]
    fn next_reply<R: Wait>(&mut self, rt: &R) -> Option<(Place, Answer<J>)> {
        let _ = rt;
        self.line.next()
    }

    /// Takes no memory.
    fn renew<R: Wait>(&mut self, rt: &R) -> Result<(), Fault>
        ensures ok { OnOk result (self.new ≡ nothing_told self.old.room) }
        ensures err { OnErr result (self.new ≡ self.old) }
        ensures memory { IsOkUnless result Fault.OutOfMemory }
        ensures spared { IsOk result }
    {
        let _ = rt;
        self.line.renew();
        Ok(())
    }
}
