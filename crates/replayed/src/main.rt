//! The program `replayed`: runs a script on a cluster, plays the steps of the closed cluster once
//! more, and compares the world that they make with the audit.
#![tactic(auto)]

mod comparing;
mod replaying;

use crate::comparing::Compared;
use crate::replaying::replayed;
use std::alloc::Global;
use std::env::Env;
use std::fs::File;
use std::io;
use std::io::{Read, Write};
use std::process::ExitCode;
use std::sync::Wait;

fn main(rt: HostRuntime) -> ExitCode {
    ExitCode::from(status_of_words(&rt, &rt))
}

/// Runs and replays the script of the file that the first word names, and gives the status: 0 where
/// all agrees, 1 where something differs or can't be printed, and 2 where nothing was compared. The
/// leave to wait is handed on beside the runtime, which has it in `main` alone.
fn status_of_words<R: Wait>(rt: &HostRuntime, leave: &R) -> u8 {
    match script_of_words(rt) {
        Ok(script) => status_of_script(rt, leave, script.as_slice()),
        Err(error) => {
            let mut err = rt.stderr();
            let _ = writeln!(err, "replayed: {error}");
            2
        }
    }
}

/// The bytes of the file that the first word names, and none where there is no word.
fn script_of_words(rt: &HostRuntime) -> io::Result<Vec<u8>> {
    let alloc = rt.alloc();
    let mut bytes = Vec::new(alloc);
    if let Some(file) = first_word(rt)? {
        let mut input = File::open(rt, file.as_str())?;
        input.read_to_end(&mut bytes)?;
    }
    Ok(bytes)
}

/// The first word after the program's name.
fn first_word<R: Env + Alloc<A = Global>>(rt: &R) -> io::Result<Option<String>> {
    let mut words = std::env::args(rt)?.skip(1);
    Ok(words.next())
}

fn status_of_script<R: Wait>(rt: &HostRuntime, leave: &R, script: &[u8]) -> u8 {
    match replayed(leave, rt.alloc(), script) {
        Ok(compared) => status_of(rt, &compared),
        Err(stopped) => {
            let mut err = rt.stderr();
            let _ = writeln!(err, "replayed: {stopped}");
            2
        }
    }
}

/// Prints what was compared.
fn status_of(rt: &HostRuntime, compared: &Compared) -> u8 {
    match println!(rt; "{compared}") {
        Ok(()) if compared.difference.is_none() => 0,
        _ => 1,
    }
}
