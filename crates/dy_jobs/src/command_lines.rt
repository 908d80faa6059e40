ghost use Rattle.std.specs.Prelude.{◌≡◌, ◌≢◌, ◌≤◌, ◌⊎◌, IfErr, IfOk, IfSome, IsNone, OnErr, false};
ghost use Rattle.std.specs.Prelude.{map, string_bytes};
ghost use Rattle.clap.specs.{Matches.{has_subcommand}, Values.{kind_of}};
ghost use Rattle.dy_jobs.specs.Words.{AreNamed, IsJobOf};

use crate::jobs::Job;
use crate::numbers::{has_flag, has_word, storm_of};
use clap::error::ErrorKind;
use clap::{Arg, ArgAction, ArgMatches, Command, Error};
use std::alloc::{AllocError, Global};
use std::io;

/// The version that `dynamo --version` prints.
const VERSION: &str = "0.1.0";

/// What help says at its end.
const MORE_HELP: &str = "\
Examples:
  dynamo run examples/scripts/put_then_get.json
  dynamo ring examples/scripts/ring_wraps.json
  dynamo run - < script.json
  dynamo serve examples/scripts/put_then_get.json
  dynamo storm 1 8 100 --faults
  dynamo run --steps examples/scripts/put_then_get.json | tools/replay

Status:
  0  done; a command that was refused has \" E\" in its line
  1  memory ran out, or the output could not be written
  2  a bad command line (help and the version, too), a file that can't be read,
     or a refused script, ring, limit or quorum

Commands such as put and get stand in a script, or in the lines that serve reads.
Scripts and lines: docs/FORMATS.md. Refusals, and what to do: docs/REFUSALS.md.

Beside this program, in its repository:
  tools/lint FILE     names each mistake of a script, and its place
  tools/explain FILE  tells in words what a run printed; tools/picture draws it
  tools/shell         a shell to learn the commands by
  ./dynamo build      proves and builds the program";

/// The job that the words after the program's name ask for, or the status to end with.
pub fn words(alloc: Global, words: &[String]) -> Result<Job, u8>
    ensures status { IfErr result (λ status. (1 ≤ status) × (status ≤ 2)) }
    ensures job { IfOk result (IsJobOf (map string_bytes words.now)) }
{
    judged(alloc, words, matches_of(alloc, words))
}

/// The job that the words ask for by what clap makes of them, or the status to end with.
fn judged(alloc: Global, words: &[String], answer: Result<ArgMatches, Error>) -> Result<Job, u8>
    ensures memory { IfErr answer.entry (λ error. kind_of error ≡ ErrorKind.OutOfMemory
        → result ≡ Err 1) }
    ensures refused { IfErr answer.entry (λ error. kind_of error ≢ ErrorKind.OutOfMemory
        → result ≡ Err 2) }
    ensures none { IfOk answer.entry (λ matches. has_subcommand matches ≡ false
        → result ≡ Err 2) }
    ensures status { IfErr result (λ status. (1 ≤ status) × (status ≤ 2)) }
    ensures job { IfOk result (IsJobOf (map string_bytes words.now)) }
{
    match answer {
        Ok(matches) => asked(job_of(alloc, words, &matches)),
        Err(error) => Err(status_of(&error)),
    }
}

/// The job that was found, or the status to end with: 2 where none was asked for, and 1 where
/// memory ran out.
fn asked(found: Result<Option<Job>, AllocError>) -> Result<Job, u8>
    ensures job { IfOk found (λ job. IfSome job (λ job. result ≡ Ok job)) }
    ensures none { IfOk found (λ job. IsNone job → result ≡ Err 2) }
    ensures memory { OnErr found (result ≡ Err 1) }
{
    match found {
        Ok(Some(job)) => Ok(job),
        Ok(None) => Err(2),
        Err(_) => Err(1),
    }
}

/// The status to end with where clap refuses the words: 1 where memory ran out, and 2 for any other
/// cause.
fn status_of(error: &Error) -> u8
    ensures memory { kind_of error.now ≡ ErrorKind.OutOfMemory → result ≡ 1 }
    ensures other { kind_of error.now ≢ ErrorKind.OutOfMemory → result ≡ 2 }
    ensures some { (result ≡ 1) ⊎ (result ≡ 2) }
{
    match error.kind() {
        ErrorKind::OutOfMemory => 1,
        _ => 2,
    }
}

/// Prints how to use the program, where the words ask for it or ask for no job.
pub fn explain<R: Print + Eprint>(rt: &R, alloc: Global, words: &[String]) -> io::Result<()> {
    match matches_of(alloc, words) {
        Ok(matches) => match matches.subcommand_name() {
            Some("serve") => eprintln!(rt;
                "error: serve reads lines from standard input: name a file"
            ),
            _ => eprintln!(rt; "error: SEED, THREADS and PUTS are words of digits alone"),
        },
        Err(error) => error.print(rt),
    }
}

/// The job that the matches of the words name.
fn job_of(alloc: Global, words: &[String], matches: &ArgMatches) -> Result<Option<Job>, AllocError>
    ensures job { IfOk result (λ found. IfSome found (IsJobOf (map string_bytes words.now))) }
    ensures none { has_subcommand matches.now ≡ false → result ≡ Ok None }
{
    let Some((name, inner)) = matches.subcommand() else {
        return Ok(None);
    };
    Ok(match name {
        "run" => run_of(words, file_of(alloc, inner)?),
        "serve" => serve_of(words, file_of(alloc, inner)?),
        "ring" => ring_of(words, file_of(alloc, inner)?),
        "storm" => storm_job_of(words),
        _ => None,
    })
}

/// The file, where it and the name of the job are among the words.
fn named(words: &[String], name: &str, file: Option<String>) -> Option<String>
    ensures { IfSome result
        (λ file. AreNamed (map string_bytes words.now) name.now (string_bytes file)) }
{
    match file {
        Some(file) if has_word(words, name) && has_word(words, file.as_str()) => Some(file),
        _ => None,
    }
}

/// The ring of this file.
fn ring_of(words: &[String], file: Option<String>) -> Option<Job>
    ensures { IfSome result (IsJobOf (map string_bytes words.now)) }
{
    match named(words, "ring", file) {
        Some(file) => Some(Job::Ring(file)),
        None => None,
    }
}

/// The storm that the words say.
fn storm_job_of(words: &[String]) -> Option<Job>
    ensures { IfSome result (IsJobOf (map string_bytes words.now)) }
{
    match storm_of(words) {
        Some(storm) if has_word(words, "storm") => Some(Job::Storm(storm)),
        _ => None,
    }
}

/// The run of this file, with the steps where the words have their flag.
fn run_of(words: &[String], file: Option<String>) -> Option<Job>
    ensures { IfSome result (IsJobOf (map string_bytes words.now)) }
{
    match named(words, "run", file) {
        Some(file) => Some(Job::Run {
            file,
            with_steps: has_flag(words, "--steps"),
        }),
        None => None,
    }
}

/// The service of this file, with the steps where the words have their flag. There is none of
/// standard input, from which a service reads its lines.
fn serve_of(words: &[String], file: Option<String>) -> Option<Job>
    ensures { IfSome result (IsJobOf (map string_bytes words.now)) }
{
    match named(words, "serve", file) {
        Some(file) if file.as_str() == "-" => None,
        Some(file) => Some(Job::Serve {
            file,
            with_steps: has_flag(words, "--steps"),
        }),
        None => None,
    }
}

/// The file that the matches name.
fn file_of(alloc: Global, matches: &ArgMatches) -> Result<Option<String>, AllocError> {
    match matches.get_str("file") {
        Some(file) => Ok(Some(String::from_str(alloc, file)?)),
        None => Ok(None),
    }
}

/// What clap makes of the words.
fn matches_of<'a>(alloc: Global, words: &'a [String]) -> Result<ArgMatches<'a>, Error> {
    with_jobs(alloc, dynamo_command(alloc)?)?.try_get_matches_from(words)
}

/// The command of the program itself, without its jobs.
fn dynamo_command<'a>(alloc: Global) -> Result<Command<'a>, AllocError> {
    let dynamo = Command::new(alloc, "dynamo").bin_name("dynamo")?;
    Ok(
        dynamo
            .about("An always-writable, replicated key-value store")
            .version(VERSION)
            .after_help(MORE_HELP)
            .no_binary_name(true)
            .subcommand_required(true),
    )
}

/// The same, with the jobs. Each is a function of its own, so that no other has to be dropped where
/// one is refused.
fn with_jobs<'a>(alloc: Global, dynamo: Command<'a>) -> Result<Command<'a>, AllocError> {
    dynamo
        .subcommand(run_command(alloc)?)?
        .subcommand(serve_command(alloc)?)?
        .subcommand(ring_command(alloc)?)?
        .subcommand(storm_command(alloc)?)
}

/// The command that runs a script.
fn run_command<'a>(alloc: Global) -> Result<Command<'a>, AllocError> {
    Command::new(alloc, "run")
        .about("Runs a script, prints a line for each command, and then the audit")
        .arg(script_arg(alloc))?
        .arg(steps_arg(alloc))
}

/// The command that serves lines.
fn serve_command<'a>(alloc: Global) -> Result<Command<'a>, AllocError> {
    Command::new(alloc, "serve")
        .about("Does a script, and then each line of standard input as a command, and answers each")
        .arg(file_arg(alloc))?
        .arg(steps_arg(alloc))
}

/// The command that prints a ring.
fn ring_command<'a>(alloc: Global) -> Result<Command<'a>, AllocError> {
    Command::new(alloc, "ring")
        .about("Prints the ring of a script, and the preference lists of its keys")
        .arg(script_arg(alloc))
}

/// The argument of a file with a script.
fn file_arg<'a>(alloc: Global) -> Arg<'a> {
    Arg::new(alloc, "file")
        .required(true)
        .value_name("FILE")
        .help("A script, as docs/FORMATS.md describes it")
}

/// The same, where the script may stand in the input.
fn script_arg<'a>(alloc: Global) -> Arg<'a> {
    file_arg(alloc).help("A script, as docs/FORMATS.md describes it; - is standard input")
}

/// The flag that has each step told.
fn steps_arg<'a>(alloc: Global) -> Arg<'a> {
    Arg::new(alloc, "steps")
        .long("steps")
        .help("Prints each step of the custody book, too, for tools/replay to check")
        .action(ArgAction::SetTrue)
}

/// The command that plays a storm.
fn storm_command<'a>(alloc: Global) -> Result<Command<'a>, AllocError> {
    Command::new(alloc, "storm")
        .about("Gets and puts from many threads at once, and prints how many were answered")
        .arg(seed_arg(alloc))?
        .arg(threads_arg(alloc))?
        .arg(puts_arg(alloc))?
        .arg(faults_arg(alloc))?
        .arg(steps_arg(alloc))
}

/// The argument of a storm's seed.
fn seed_arg<'a>(alloc: Global) -> Arg<'a> {
    Arg::new(alloc, "seed")
        .required(true)
        .value_name("SEED")
        .help("What the keys and the faults are drawn from")
        .value_parser(clap::value_parser!(u64))
}

/// That of how many clients it has.
fn threads_arg<'a>(alloc: Global) -> Arg<'a> {
    Arg::new(alloc, "threads")
        .required(true)
        .value_name("THREADS")
        .help("How many clients there are, 1 to 32, each in a thread of its own")
        .value_parser(clap::value_parser!(u8).range(1..=32))
}

/// That of how many turns each client has.
fn puts_arg<'a>(alloc: Global) -> Arg<'a> {
    Arg::new(alloc, "puts")
        .required(true)
        .value_name("PUTS")
        .help("How often each client gets and puts, 1 to 1000")
        .value_parser(clap::value_parser!(u32).range(1..=1000))
}

/// The flag that has nodes fail meanwhile.
fn faults_arg<'a>(alloc: Global) -> Arg<'a> {
    Arg::new(alloc, "faults")
        .long("faults")
        .help("Nodes go down, return, hand over and lose answers meanwhile")
        .action(ArgAction::SetTrue)
}
