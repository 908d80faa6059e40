// What a client does in one turn.
ghost use Rattle.std.specs.Prelude.{◌≡◌, ◌<◌, ◌+◌, ◌-◌, ◌^◌, Some};
ghost use Rattle.dy_book.specs.declared.options.Options.{Options as OptionsParts};
ghost use Rattle.dy_cluster.specs.{Lists.{list_of}, Settings.{setting}};
ghost use Rattle.dy_storm.specs.{Turns.{IsGetOf, IsTurnOf}, Words.{key_text, value_text}};

use crate::words::Words;
use dy_clients::{Connection, Context, Key, MendingGet, Naming, Transport, Value};
use std::alloc::Global;
use std::sync::Wait;

/// How many homes a put needs.
const W: u8 = 2;

/// A client by its number, and how many turns it made. This count is the number of the next turn.
#[derive(Drop)]
pub(crate) struct Player {
    pub client: usize,
    turns: u32,
    words: Words,
}

impl Player {
    /// A client that has made no turn.
    pub fn new(alloc: Global, client: usize) -> Player
        ensures client { result.client ≡ client }
        ensures turns { result.turns ≡ 0 }
    {
        Player {
            client,
            turns: 0,
            words: Words::new(alloc),
        }
    }

    /// Makes the next turn. Gets the key of this number, repairs it, and puts it with the context
    /// of the get. Gives whether the get was mended. May wait for answers and locks.
    pub fn play<J: Naming, T: Transport<J>, R: Wait>(
        &mut self,
        rt: &R,
        alloc: Global,
        connection: &mut Connection<'_, J, T>,
        number: u32,
    ) -> bool
        requires few { self.old.turns < 2 ^ 32 - 1 }
        ensures turn { (options : OptionsParts) → IsTurnOf (setting J J.ring J.n J.r options)
            (key_text number) (value_text self.old.client self.old.turns)
            connection.old.session connection.new.session result }
        ensures client { self.new.client ≡ self.old.client }
        ensures turns { self.new.turns ≡ self.old.turns + 1 }
    {
        let turn = self.turns;
        self.turns += 1;
        let Ok(key) = self.words.key_of(number) else {
            return false;
        };
        let Ok(value) = self.words.value_of(self.client, turn) else {
            return false;
        };
        play_with(rt, alloc, connection, &key, value)
    }
}

// A turn of this key and this value. Gives whether the get was mended.
fn play_with<J: Naming, T: Transport<J>, R: Wait>(
    rt: &R,
    alloc: Global,
    connection: &mut Connection<'_, J, T>,
    key: &Key,
    value: Value,
) -> bool
    ensures { (options : OptionsParts) → IsTurnOf (setting J J.ring J.n J.r options)
        key.now value connection.old.session connection.new.session result }
{
    let got = get_one(rt, connection, key);
    let context = got.context.unwrap_or(Context::new(alloc));
    // A put that is refused is told by what the audit lacks.
    let _ = connection.put_to(rt, W, key, &context, value);
    got.is_mended
}

// What the get of a turn gave: its context, where it was answered, and whether it was mended.
#[derive(Drop)]
struct Got {
    context: Option<Context>,
    is_mended: bool,
}

// The context of a get that was answered, and whether it was mended.
fn got_of<J: Naming>(got: MendingGet<J>) -> Got
    ensures context { result.context ≡ Some got.done.context }
    ensures mended { result.is_mended ≡ got.is_mended }
{
    let MendingGet { done, is_mended } = got;
    Got {
        context: Some(done.context),
        is_mended,
    }
}

// Gets the key, and repairs it.
fn get_one<J: Naming, T: Transport<J>, R: Wait>(
    rt: &R,
    connection: &mut Connection<'_, J, T>,
    key: &Key,
) -> Got
    ensures { IsGetOf J (list_of J.ring J.n key.now) J.r key.now result.context
        connection.old.session connection.new.session (T.told connection.new.transport)
        result.is_mended }
{
    match connection.get(rt, key) {
        Ok(got) => got_of(got),
        Err(_fault) => Got {
            context: None,
            is_mended: false,
        },
    }
}
