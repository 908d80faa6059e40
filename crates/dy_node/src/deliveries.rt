// Rows that wait to be stored later.
ghost use Rattle.std.specs.Prelude.{◌≡◌, ◌≢◌, ◌↔◌, ℕ, ◌<◌, Some, true, false, length, slice_get};
ghost use Rattle.std.specs.Prelude.{IsTrue};
ghost use Rattle.std.specs.Prelude.{IfOk, IfErr, OnOk, OnErr, IsErrOf, IsOkUnless};
ghost use Rattle.dy_preference.specs.Preferences.{homes_of, may_hold};
ghost use Rattle.dy_node.specs.{
  Nodes.{IsDelivered, with_message},
  Refusals.{HoldRefused},
  declared.messages.Message.{Message as MessageParts},
};

use crate::holding::hold_row;
use crate::messages::Message;
use crate::nodes::Node;
use dy_book::Book;
use dy_dots::{Fault, NodeId};
use dy_shares::Naming;
use dy_siblings::Row;

impl<J: Naming> Node<J> {
    // Adds the row behind the messages that wait.
    fn push_message(&mut self, home: NodeId, row: Row) -> Result<(), Fault>
        requires may_hold { IsTrue
            (may_hold (homes_of J.ring J.n row.key) self.old.part.node home) }
        ensures ok { OnOk result
            (self.new ≡ with_message self.old (record { home = home; row = row })) }
        ensures err { OnErr result (self.new ≡ self.old) }
        ensures memory { IsOkUnless result Fault.OutOfMemory }
    {
        self.waiting.push_back(Message { home, row })?;
        Ok(())
    }

    /// Keeps a copy of the row behind those that wait, to store it later for the home. A node that
    /// is down keeps it too.
    pub fn defer(&mut self, home: NodeId, row: &Row) -> Result<(), Fault>
        requires may_hold { IsTrue
            (may_hold (homes_of J.ring J.n row.now.key) self.old.part.node home) }
        ensures ok { OnOk result
            (self.new ≡ with_message self.old (record { home = home; row = row.now })) }
        ensures err { OnErr result (self.new ≡ self.old) }
        ensures memory { IsOkUnless result Fault.OutOfMemory }
    {
        let copy = row.try_clone(self.alloc)?;
        self.push_message(home, copy)?;
        Ok(())
    }

    // Stores the message that has waited longest.
    fn deliver_first(&mut self, book: &mut Book<J>) -> Result<(), Fault>
        requires { 0 < length self.old.waiting }
        ensures ok { OnOk result (IsDelivered book.old self.old 1 book.new self.new) }
        ensures err { OnErr result ((self.new ≡ self.old) × (book.new ≡ book.old)) }
        ensures refused { IfErr result (λ fault. (m : MessageParts)
            × (slice_get self.old.waiting 0 ≡ Some m) × HoldRefused book.old m.row (Some fault)) }
        ensures not_down { IfErr result (λ fault. fault ≢ Fault.Down) }
    {
        let Some(message) = self.waiting.front() else {
            unreachable!();
        };
        match hold_row(
            &mut self.stores,
            &mut self.share,
            book,
            message.home,
            &message.row,
        ) {
            Ok(_receipts) => {
                let _message = self.waiting.pop_front();
                Ok(())
            }
            Err(fault) => Err(fault),
        }
    }

    /// Stores the messages that wait, the oldest first, and gives how many. Where one is refused,
    /// those before it are stored, and it waits on with the rest.
    pub fn deliver(&mut self, book: &mut Book<J>) -> Result<usize, Fault>
        ensures ok { IfOk result (λ n. (n ≡ length self.old.waiting)
            × IsDelivered book.old self.old n book.new self.new) }
        ensures down { IsErrOf result Fault.Down ↔ (self.old.is_up ≡ false) }
        ensures nothing { IsErrOf result Fault.Down →
            (self.new ≡ self.old) × (book.new ≡ book.old) }
        ensures stopped { IfErr result (λ fault. (self.old.is_up ≡ true) →
            (n : ℕ) × (m : MessageParts) × (slice_get self.old.waiting n ≡ Some m)
            × IsDelivered book.old self.old n book.new self.new × HoldRefused book.new m.row
            (Some fault)) }
    {
        if !self.is_up {
            return Err(Fault::Down);
        }
        let count = self.waiting.len();
        for _number in 0..count {
            match self.deliver_first(book) {
                Ok(()) => {}
                Err(fault) => return Err(fault),
            }
        }
        Ok(count)
    }
}
