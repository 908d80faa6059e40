// A worker that is stopped between the comparison of its call's number and the send of its answer.
use crate::signals::Signal;
use crate::workers::with_five_workers;
use dy_clients::Fault;
use dy_scenes::{Calls, Scene, is_told};
use std::alloc::Global;
use std::sync::atomic::{AtomicBool, AtomicU64, Ordering};
use std::sync::{Mutex, Wait};
use std::test::Fail;
use std::thread::Threads;

// Each key has its letter as its value. They lie at 0cc1.., e167.., 03c7.., f129.. and fbad.. (RFC
// 1321), so node 1 is the second or the third home of each. A get of one looks at its first home,
// and asks the other two. So while node 1 answers nothing, it ends only once the third one answers.
const KEYS: [u8; 5] = [b'a', b'e', b's', b'w', b'z'];

// Stops node 1's worker with its answer to a get, which it has found to be of the present call. All
// keys are got meanwhile. Then it sends that answer: while the next get waits, or else before it
// begins.
#[derive(Drop)]
struct Stop {
    is_sent_within: bool,
    // Whether node 1 is to be stopped, and whether the next get is to wait for its answer.
    is_set: AtomicBool,
    is_due: AtomicBool,
    is_stopped: Signal,
    is_over: Signal,
    is_sent: Signal,
    is_met: Signal,
    ended: AtomicU64,
    // How many gets had ended when it went on.
    ended_at: AtomicU64,
    // How many gets two homes answered, with the letter alone.
    right: AtomicU64,
    // What the next get told.
    told: Mutex<Option<String>>,
}

impl Stop {
    fn new(is_sent_within: bool) -> Stop {
        Stop {
            is_sent_within,
            is_set: AtomicBool::new(false),
            is_due: AtomicBool::new(false),
            is_stopped: Signal::new(),
            is_over: Signal::new(),
            is_sent: Signal::new(),
            is_met: Signal::new(),
            ended: AtomicU64::new(0),
            ended_at: AtomicU64::new(0),
            right: AtomicU64::new(0),
            told: Mutex::new(None),
        }
    }

    // Whether a thread waited in vain.
    fn gave_up(&self) -> bool {
        let signals = [&self.is_stopped, &self.is_over, &self.is_sent, &self.is_met];
        signals.iter().any(|signal| signal.gave_up())
    }

    // Gets the letter, and gives what was told.
    fn get<C: Calls>(&self, calls: &mut C, letter: u8) -> Result<String, Fault> {
        let got = calls.get(letter)?;
        if got.homes == 2 && got.letter == letter {
            self.right.fetch_add(1, Ordering::SeqCst);
        }
        self.ended.fetch_add(1, Ordering::SeqCst);
        Ok(got.told)
    }

    // Gets all keys.
    fn get_all<C: Calls>(&self, calls: &mut C) -> Result<(), Fault> {
        for letter in KEYS {
            let _told = self.get(calls, letter)?;
        }
        Ok(())
    }

    // Gets what meets the answer of node 1, which passes no further ask before.
    fn meet<C: Calls>(&self, calls: &mut C) {
        let told = self.get(calls, b'a');
        self.is_met.say();
        calls.keep(&self.told, told.ok());
    }

    // Lets node 1 go on, now or once the next get waits.
    fn let_go(&self) {
        if self.is_sent_within {
            self.is_due.store(true, Ordering::SeqCst);
        } else {
            self.send();
        }
    }

    // Lets node 1 go on, and waits until it has sent its answer.
    fn send(&self) {
        self.is_over.say();
        let _ = self.is_sent.wait();
    }
}

impl Scene for Stop {
    // The get with whose answer node 1 is stopped does not end before. When node 1 passes its next
    // ask it has sent that answer.
    fn pass(&self, node: u8, is_store: bool) {
        if !is_store && node == 1 && self.is_over.is_said() {
            self.is_sent.say();
            let _ = self.is_met.wait();
        }
        if !is_store && node != 1 {
            let _ = self.is_stopped.wait();
            if self.is_due.load(Ordering::SeqCst) {
                self.send();
            }
        }
    }

    fn compared(&self, node: u8) {
        if node == 1 && self.is_set.load(Ordering::SeqCst) && !self.is_over.is_said() {
            self.is_stopped.say();
            let _ = self.is_over.wait();
            let ended = self.ended.load(Ordering::SeqCst);
            self.ended_at.store(ended, Ordering::SeqCst);
        }
    }

    // Puts all keys, gets one, all of them while node 1 is stopped, one that meets its answer, and
    // all of them.
    fn call<C: Calls>(&self, _number: usize, calls: &mut C) -> Result<(), Fault> {
        for letter in KEYS {
            calls.put_untold(letter)?;
        }
        self.is_set.store(true, Ordering::SeqCst);
        let _told = self.get(calls, b's')?;
        self.get_all(calls)?;
        self.let_go();
        self.meet(calls);
        self.get_all(calls)
    }
}

// Plays the scene, and tells whether all went as it should.
fn is_dropped<R: Threads + Wait + Sync>(
    rt: &R,
    alloc: Global,
    is_sent_within: bool,
) -> Result<bool, Fault> {
    let stop = Stop::new(is_sent_within);
    let closed = with_five_workers(rt, alloc, 1, &stop)?;
    let is_late = stop.ended_at.load(Ordering::SeqCst) == 6;
    let are_right = stop.right.load(Ordering::SeqCst) == 12 && closed.audit.gets == 12;
    let is_met = is_told(rt, &stop.told, " 0/0=rows 2/2=rows");
    Ok(is_late && are_right && is_met && !stop.gave_up())
}

// Node 1's worker is stopped with its answer to a get over five gets of its client, and sends it
// while the next one waits for the third home. Two homes answer each get, it gives its own key's
// value, and nobody waits for ever.
#[test]
fn an_answer_is_sent_within_a_later_call(rt: HostRuntime) -> Result<(), Fail> {
    assert!(rt; is_dropped(&rt, rt.alloc(), true)?);
    Ok(())
}

// The same, but it is sent when a call has ended and the next one has not begun.
#[test]
fn an_answer_is_sent_between_later_calls(rt: HostRuntime) -> Result<(), Fail> {
    assert!(rt; is_dropped(&rt, rt.alloc(), false)?);
    Ok(())
}
