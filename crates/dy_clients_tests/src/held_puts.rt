// A put that waits for a worker, and what another client calls meanwhile.
use crate::signals::Signal;
use dy_clients::Fault;
use dy_scenes::Calls;
use std::sync::Mutex;

// A put of the key `a` to three homes. It waits for a worker that is held until another client has
// called.
#[derive(Drop)]
pub struct HeldPut {
    // A worker was asked to store the row of the put.
    pub is_asked: Signal,
    // The other client has called.
    pub is_over: Signal,
    is_put: Signal,
    // What the put told, and the get.
    pub put: Mutex<Option<String>>,
    pub got: Mutex<Option<String>>,
}

impl HeldPut {
    pub fn new() -> HeldPut {
        HeldPut {
            is_asked: Signal::new(),
            is_over: Signal::new(),
            is_put: Signal::new(),
            put: Mutex::new(None),
            got: Mutex::new(None),
        }
    }

    // Whether a thread waited in vain.
    pub fn gave_up(&self) -> bool {
        self.is_asked.gave_up() || self.is_over.gave_up()
    }

    pub fn has_ended(&self) -> bool {
        self.is_put.is_said()
    }

    // Puts, as the client 0. As the other one, waits until a worker is asked, and tells whether one
    // was.
    pub fn begin<C: Calls>(&self, number: usize, calls: &mut C) -> bool {
        if number > 0 {
            return self.is_asked.wait();
        }
        let told = calls.put(3, b'a');
        self.is_put.say();
        calls.keep(&self.put, told.ok());
        false
    }

    // Gets while the put waits.
    pub fn get<C: Calls>(&self, calls: &mut C) -> Result<(), Fault> {
        let got = calls.get(b'a')?;
        if got.letter == b'a' && !self.has_ended() {
            calls.keep(&self.got, Some(got.told));
        }
        Ok(())
    }

    // Lets the worker go on, whatever came of the calls.
    pub fn end(&self, called: Result<(), Fault>) -> Result<(), Fault> {
        self.is_over.say();
        called
    }
}
