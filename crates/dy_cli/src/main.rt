//! The program `dynamo`: runs scripts and storms against a replicated key-value store, and prints
//! rings.
#![tactic(auto)]

mod ends;
mod performing;
mod refusing;

use dy_jobs::Job;
use std::alloc::Global;
use std::env::Env;
use std::fs::File;
use std::io;
use std::io::{BufRead, Read};
use std::process::ExitCode;
use std::sync::Wait;
use std::thread::Threads;

fn main(rt: HostRuntime) -> ExitCode {
    ExitCode::from(status_of_words(&rt, &rt))
}

/// Does what the words after the program's name ask for, and gives the status. The leave to start
/// threads and to wait is handed on beside the runtime, which has it in `main` alone.
fn status_of_words<R: Threads + Wait + Sync>(rt: &HostRuntime, leave: &R) -> u8 {
    let alloc = rt.alloc();
    let mut err = rt.stderr();
    let words = match given_words(rt, alloc) {
        Ok(words) => words,
        Err(error) => return refusing::refuse_words(&mut err, &error).status,
    };
    match dy_jobs::words(alloc, words.as_slice()) {
        Ok(job) => status_of_job(rt, leave, &job),
        Err(1) => refusing::refuse_for_memory(&mut err).status,
        Err(status) => {
            if let Err(error) = dy_jobs::explain(rt, alloc, words.as_slice()) {
                refusing::lose_output(&mut err, &error);
            }
            status
        }
    }
}

/// Opens the file of the job, where it has one, or standard input for `-`, does the job, and gives
/// the status.
fn status_of_job<R: Threads + Wait + Sync>(rt: &HostRuntime, leave: &R, job: &Job) -> u8 {
    let Some(file) = job.file() else {
        let mut nothing: &[u8] = &[];
        return status_over(rt, leave, job, &mut nothing);
    };
    if file == "-" {
        return status_over(rt, leave, job, &mut rt.stdin());
    }
    match File::open(rt, file) {
        Ok(mut input) => status_over(rt, leave, job, &mut input),
        Err(error) => refusing::refuse_file(&mut rt.stderr(), file, &error).status,
    }
}

/// Does the job over this input, and gives the status. A service reads its lines from standard
/// input.
fn status_over<I: Read, R: Threads + Wait + Sync>(
    rt: &HostRuntime,
    leave: &R,
    job: &Job,
    input: &mut I,
) -> u8 {
    if let Job::Serve { .. } = job {
        return match io::BufReader::new(rt.alloc(), rt.stdin()) {
            Ok(mut lines) => status_over_lines(rt, leave, job, input, &mut lines),
            Err(_) => refusing::refuse_for_memory(&mut rt.stderr()).status,
        };
    }
    let mut nothing: &[u8] = &[];
    status_over_lines(rt, leave, job, input, &mut nothing)
}

/// Does the job over this input and these lines, and gives the status.
fn status_over_lines<I: Read, L: BufRead, R: Threads + Wait + Sync>(
    rt: &HostRuntime,
    leave: &R,
    job: &Job,
    input: &mut I,
    lines: &mut L,
) -> u8 {
    let alloc = rt.alloc();
    let mut err = rt.stderr();
    match io::BufWriter::new(alloc, io::writer(rt)) {
        Ok(mut out) => {
            performing::perform(leave, alloc, job, input, lines, &mut out, &mut err).status
        }
        Err(_) => refusing::refuse_for_memory(&mut err).status,
    }
}

/// The words after the program's name.
fn given_words<R: Env + Alloc<A = Global>>(rt: &R, alloc: Global) -> io::Result<Vec<String>> {
    let mut words = Vec::new(alloc);
    for word in std::env::args(rt)?.skip(1) {
        words.push(word)?;
    }
    Ok(words)
}
