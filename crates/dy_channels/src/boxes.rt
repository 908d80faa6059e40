ghost use Rattle.std.specs.Prelude.{◌≡◌, ◌<◌, ◌+◌, true, false, IfOk, IsOkUnless};
ghost use Rattle.crossbeam_channel.specs.{
  Claims.{view},
  Ends.{receives_on, ruled_capacity, sends_on},
};

use crate::ends::{Receiver, Sender, channel};
use crossbeam_utils::sync::Unparker;
use dy_dots::Fault;
use std::alloc::Global;
use std::sync::Wait;

/// An end of a mailbox that sends, with what wakes who receives.
pub struct Outbox<T: Drop> {
    pub end: Sender<T>,
    worker: Unparker,
}

/// A mailbox with room for so many messages, whose sends take no memory: its two ends.
pub fn mailbox<T: Drop>(alloc: Global, room: usize) -> Result<(Outbox<T>, Receiver<T>), Fault>
    requires { 0 < room }
    ensures room { IfOk result (λ ends. ruled_capacity (sends_on ends.0.end.end) ≡ room) }
    ensures one { IfOk result (λ ends. receives_on ends.1.end ≡ sends_on ends.0.end.end) }
    ensures memory { IsOkUnless result Fault.OutOfMemory }
{
    let (end, receiver, worker) = channel(alloc, room)?;
    Ok((Outbox { end, worker }, receiver))
}

// Once no end sends, who receives looks once more.
impl<T: Drop> Drop for Outbox<T> {
    fn drop(self) {
        let Outbox { end, worker } = self;
        drop(end);
        worker.unpark();
    }
}

impl<T: Drop> Outbox<T> {
    /// One more end that sends to the same mailbox.
    pub fn try_clone(&mut self) -> Result<Outbox<T>, Fault>
        ensures memory { IsOkUnless result Fault.OutOfMemory }
    {
        let end = self.end.try_clone()?;
        let worker = self.worker.clone()?;
        Ok(Outbox { end, worker })
    }

    /// Sends, and says whether an end receives. May wait while the mailbox is full. Takes no
    /// memory.
    pub fn send<R: Wait>(&mut self, rt: &R, message: T) -> bool
        ensures sent { result ≡ true → view self.new.end.pass ≡ view self.old.end.pass + 1 }
        ensures lost { result ≡ false → view self.new.end.pass ≡ view self.old.end.pass }
    {
        let is_sent = self.end.send(rt, message);
        self.worker.unpark();
        is_sent
    }
}
