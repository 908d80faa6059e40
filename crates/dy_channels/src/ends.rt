ghost use Rattle.std.specs.Prelude.{◌≡◌, ◌<◌, ◌+◌, true, false};
ghost use Rattle.std.specs.Prelude.{IfErr, IfNone, IfOk, IfSome, IsOkUnless};
ghost use Rattle.crossbeam_channel.specs.{
  Claims.{IsSeatAt, view},
  Ends.{receives_on, ruled_capacity, sends_on},
};

use crate::rules::{Apart, Counted};
use crossbeam_channel::{Pass, RuledReceiver, RuledSender, TryRecvError, bounded_with};
use crossbeam_utils::sync::{Parker, Unparker};
use dy_dots::Fault;
use std::alloc::Global;
use std::sync::Wait;

/// An end of a channel that sends, and a pass for one who does, which counts what it sent.
#[derive(Drop)]
pub struct Sender<T: Drop> {
    pub end: RuledSender<T, u64, Counted>,
    pub pass: Pass<T, u64>,
    pub ghost here: { IsSeatAt (sends_on end) pass },
}

/// The end of a channel that receives, and its pass, which counts what came. It sleeps as soon as
/// nothing lies there, where the kit's looks for a while: who receives waits more often than not.
/// Whoever sends what has to be read wakes it. So where it found nothing, it sleeps before it looks
/// again.
pub struct Receiver<T: Drop> {
    pub end: RuledReceiver<T, u64, Counted>,
    pub pass: Pass<T, u64>,
    parker: Parker,
    // Whether nothing lay there when it looked last, and an end could still send.
    found_nothing: bool,
    ghost here: { IsSeatAt (receives_on end) pass },
}

impl<T: Drop> Drop for Receiver<T> {
    fn drop(self) {
        let Receiver {
            end: _,
            pass: _,
            parker: _,
            found_nothing: _,
        } = self;
    }
}

/// A channel with room for so many messages, whose sends take no memory: its two ends, and what
/// wakes the one that receives.
pub fn channel<T: Drop>(
    alloc: Global,
    room: usize,
) -> Result<(Sender<T>, Receiver<T>, Unparker), Fault>
    requires { 0 < room }
    ensures room { IfOk result (λ ends. ruled_capacity (sends_on ends.0.end) ≡ room) }
    ensures one { IfOk result (λ ends. receives_on ends.1.end ≡ sends_on ends.0.end) }
    ensures memory { IsOkUnless result Fault.OutOfMemory }
{
    let (sender, receiver, mut first) = bounded_with::<T, u64, Counted, Global>(alloc, room)?;
    let second = sender.another::<Apart>(&mut first);
    let parker = Parker::new(alloc)?;
    let waker = parker.unparker().clone()?;
    let sending = Sender {
        end: sender,
        pass: first,
    };
    let receiving = Receiver {
        end: receiver,
        pass: second,
        parker,
        found_nothing: false,
    };
    Ok((sending, receiving, waker))
}

impl<T: Drop> Sender<T> {
    /// One more end that sends over the same channel.
    pub fn try_clone(&mut self) -> Result<Sender<T>, Fault>
        ensures memory { IsOkUnless result Fault.OutOfMemory }
    {
        let end = self.end.try_clone()?;
        let pass = self.end.another::<Apart>(&mut self.pass);
        Ok(Sender { end, pass })
    }

    /// Sends, and says whether an end receives. May wait while the channel is full. Takes no
    /// memory.
    pub fn send<R: Wait>(&mut self, rt: &R, message: T) -> bool
        ensures sent { result ≡ true → view self.new.pass ≡ view self.old.pass + 1 }
        ensures lost { result ≡ false → view self.new.pass ≡ view self.old.pass }
    {
        let sent = self.end.send_as::<Counted, R>(rt, &mut self.pass, message);
        sent.is_ok()
    }
}

impl<T: Drop> Receiver<T> {
    /// The next message; none where nothing lies there and no end sends. May wait for one. Takes no
    /// memory.
    #[inline(always)]
    pub fn receive<R: Wait>(&mut self, rt: &R) -> Option<T>
        ensures some { IfSome result (λ _. view self.new.pass ≡ view self.old.pass + 1) }
        ensures none { IfNone result (view self.new.pass ≡ view self.old.pass) }
    {
        for _ in rt.forever() {
            if self.found_nothing {
                self.parker.park(rt);
            }
            match self.look(rt) {
                Ok(message) => return Some(message),
                Err(TryRecvError::Disconnected) => return None,
                Err(TryRecvError::Empty) => {}
            }
        }
        None
    }

    // The next message, or why none lies there. Takes no memory. It lies in its callers: a message
    // is copied once for each function that hands it on.
    #[inline(always)]
    fn look<R: Wait>(&mut self, rt: &R) -> Result<T, TryRecvError>
        ensures some { IfOk result (λ _. view self.new.pass ≡ view self.old.pass + 1) }
        ensures none { IfErr result (λ _. view self.new.pass ≡ view self.old.pass) }
    {
        let came = self.end.try_recv_as::<Counted, R>(rt, &mut self.pass);
        self.found_nothing = matches!(came, Err(TryRecvError::Empty));
        came
    }

    /// The next message, where one lies there. Takes no memory.
    #[inline(always)]
    pub fn take<R: Wait>(&mut self, rt: &R) -> Option<T>
        ensures some { IfSome result (λ _. view self.new.pass ≡ view self.old.pass + 1) }
        ensures none { IfNone result (view self.new.pass ≡ view self.old.pass) }
    {
        self.look(rt).ok()
    }

    /// Takes out what lies there. Takes no memory.
    pub fn drain<R: Wait>(&mut self, rt: &R) {
        for _ in rt.forever() {
            if self.take(rt).is_none() {
                break;
            }
        }
    }
}
