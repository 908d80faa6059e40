// What a scene calls a cluster by. Each call of a connection stands once, since its contract is
// what costs a proof most. No scene names a connection, a name of a book or a transport.
use crate::texts::{got_of, kept_text, text_of};
use dy_cluster::{
    Cluster, Connection, Context, Fault, GetDone, Key, Mode, Naming, PutDone, Transport, Value,
};
use dy_handoff::worker;
use std::alloc::Global;
use std::sync::{Mutex, Wait};

/// What a get gave: how many homes' rows were used, the letter that is the one value, and the
/// answers as a text. Where there is no such letter it is 0.
#[derive(Drop)]
pub struct Got {
    pub homes: usize,
    pub letter: u8,
    pub told: String,
}

/// The calls of a client. The names and values of keys are letters.
pub trait Calls {
    /// A put of the letter as its own value that names so many homes: its answers, as a text.
    fn put(&mut self, w: u8, letter: u8) -> Result<String, Fault>;

    /// A put that names two homes, of which no text is made.
    fn put_untold(&mut self, letter: u8) -> Result<(), Fault>;

    /// A get of the letter, which mends nothing.
    fn get(&mut self, letter: u8) -> Result<Got, Fault>;

    /// A get of the letter, which mends what it finds stale.
    fn mend(&mut self, letter: u8) -> Result<(), Fault>;

    /// Two passes of the node.
    fn hand_over(&self, node: u8);

    /// The node goes down, or comes up.
    fn set_up(&self, node: u8, is_up: bool);

    /// The node gets this mode.
    fn set_mode(&self, node: u8, mode: Mode);

    /// What the node keeps of the letter, as a text.
    fn kept(&self, node: u8, letter: u8) -> Result<String, Fault>;

    /// Keeps the text at this place, until a test reads it.
    fn keep(&self, place: &Mutex<Option<String>>, text: Option<String>);
}

/// A client who calls by a connection.
#[derive(Drop)]
pub struct Caller<'r, 'c, 'a, J: Naming, T: Transport<J>, R: Wait> {
    pub rt: &'r R,
    pub alloc: Global,
    pub connection: &'c mut Connection<'a, J, T>,
}

// A put of the letter.
fn put_letter<J: Naming, T: Transport<J>, R: Wait>(
    rt: &R,
    alloc: Global,
    connection: &mut Connection<'_, J, T>,
    w: u8,
    letter: u8,
) -> Result<PutDone<J>, Fault> {
    let key = Key::new(alloc, &[letter])?;
    let value = Value::new(alloc, [letter].as_slice())?;
    let context = Context::new(alloc);
    let done = connection.put_to(rt, w, &key, &context, value)?;
    Ok(done)
}

// A get of the letter.
fn get_letter<J: Naming, T: Transport<J>, R: Wait>(
    rt: &R,
    alloc: Global,
    connection: &mut Connection<'_, J, T>,
    letter: u8,
) -> Result<GetDone<J>, Fault> {
    let key = Key::new(alloc, &[letter])?;
    let done = connection.get_unrepaired(rt, &key)?;
    Ok(done)
}

// What the node keeps of the letter.
fn kept_at<J: Naming, R: Wait>(
    rt: &R,
    alloc: Global,
    cluster: &Cluster<J>,
    node: u8,
    letter: u8,
) -> Result<String, Fault> {
    let key = Key::new(alloc, &[letter])?;
    let Some(node) = cluster.node(usize::from(node)) else {
        return Err(Fault::NoNode);
    };
    let rows = cluster.show(rt, node, &key)?;
    kept_text(alloc, node, rows.as_slice())
}

impl<J: Naming, T: Transport<J>, R: Wait> Calls for Caller<'_, '_, '_, J, T, R> {
    fn put(&mut self, w: u8, letter: u8) -> Result<String, Fault> {
        let done = put_letter(self.rt, self.alloc, self.connection, w, letter)?;
        text_of(self.alloc, done.answers.as_slice())
    }

    fn put_untold(&mut self, letter: u8) -> Result<(), Fault> {
        let _done = put_letter(self.rt, self.alloc, self.connection, 2, letter)?;
        Ok(())
    }

    fn get(&mut self, letter: u8) -> Result<Got, Fault> {
        let alloc = self.alloc;
        let done = get_letter(self.rt, alloc, self.connection, letter)?;
        got_of(alloc, done.from.len(), &done.row, done.answers.as_slice())
    }

    fn mend(&mut self, letter: u8) -> Result<(), Fault> {
        let key = Key::new(self.alloc, &[letter])?;
        let _done = self.connection.get(self.rt, &key)?;
        Ok(())
    }

    fn hand_over(&self, node: u8) {
        let cluster = self.connection.cluster();
        if let Some(node) = cluster.node(usize::from(node)) {
            let mut passes = cluster.handover(None, node);
            worker(self.rt, &mut passes, 2);
        }
    }

    fn set_up(&self, node: u8, is_up: bool) {
        let cluster = self.connection.cluster();
        if let Some(node) = cluster.node(usize::from(node)) {
            cluster.set_up(self.rt, node, is_up);
        }
    }

    fn set_mode(&self, node: u8, mode: Mode) {
        let cluster = self.connection.cluster();
        if let Some(node) = cluster.node(usize::from(node)) {
            cluster.fault(self.rt, node, mode);
        }
    }

    fn kept(&self, node: u8, letter: u8) -> Result<String, Fault> {
        let cluster = self.connection.cluster();
        kept_at(self.rt, self.alloc, cluster, node, letter)
    }

    fn keep(&self, place: &Mutex<Option<String>>, text: Option<String>) {
        *place.lock(self.rt) = text;
    }
}
