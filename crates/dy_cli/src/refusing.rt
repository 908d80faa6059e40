ghost use Rattle.std.specs.{
  Prelude.{List, OnOk, Some, ◌≡◌, ◌≢◌, ◌⊎◌, ◌++◌, ℕ, codes},
  Io.KnownBytes.{Appends},
  IoError.{error_kind},
};
ghost use Rattle.dy_lines.specs.{Refusals.{refusal_text}, Stops.{stopped_text}, Texts.{line}};
ghost use Rattle.dy_cli.specs.Ends.{IsStatusOf, IsTold};

use crate::ends::Ended;
use dy_dots::Fault;
use dy_lines::{Refusal, Stopped};
use std::io;
use std::io::{ErrorKind, Write};

/// Tells a refusal: the program's name, and the refusal's own text.
pub fn tell_refusal<E: Write>(err: &mut E, fault: Fault) -> io::Result<()>
    ensures { OnOk result (Appends (E.contents err.old) (E.contents err.new)
        (line (codes "dynamo: " ++ refusal_text fault))) }
{
    writeln!(err, "dynamo: {}", Refusal(fault))
}

/// Tells why a job stopped: the program's name, and the refusal, or how the output was lost.
pub fn tell_stopped<E: Write>(err: &mut E, stopped: &Stopped) -> io::Result<()>
    ensures { (text : List ℕ) → stopped_text stopped.now ≡ Some text →
        OnOk result (Appends (E.contents err.old) (E.contents err.new)
        (line (codes "dynamo: " ++ text))) }
{
    match stopped {
        Stopped::Refused(fault) => tell_refusal(err, *fault),
        Stopped::Output(error) => writeln!(err, "dynamo: {error}"),
    }
}

/// Tells that a word is not UTF-8.
fn tell_bad_word<E: Write>(err: &mut E) -> io::Result<()>
    ensures { OnOk result (Appends (E.contents err.old) (E.contents err.new)
        (line (codes "dynamo: a word of the command line is not UTF-8"))) }
{
    writeln!(err, "dynamo: a word of the command line is not UTF-8")
}

/// Says that memory ran out, which ends with 1. Where it can't be said, it is left unsaid.
pub fn refuse_for_memory<E: Write>(err: &mut E) -> Ended
    ensures status { result.status ≡ 1 }
    ensures told { IsTold result (refusal_text Fault.OutOfMemory)
        (E.contents err.old) (E.contents err.new) }
{
    let told = tell_refusal(err, Fault::OutOfMemory).is_ok();
    Ended { status: 1, told }
}

/// Says why there are no words, which ends with 1 where memory ran out, and with 2 where a word is
/// not UTF-8.
pub fn refuse_words<E: Write>(err: &mut E, error: &io::Error) -> Ended
    ensures memory { error_kind error.now ≡ ErrorKind.OutOfMemory → (result.status ≡ 1)
        × IsTold result (refusal_text Fault.OutOfMemory) (E.contents err.old) (E.contents err.new) }
    ensures other { error_kind error.now ≢ ErrorKind.OutOfMemory → (result.status ≡ 2)
        × IsTold result (codes "a word of the command line is not UTF-8")
        (E.contents err.old) (E.contents err.new) }
{
    match error.kind() {
        ErrorKind::OutOfMemory => refuse_for_memory(err),
        _ => {
            let told = tell_bad_word(err).is_ok();
            Ended { status: 2, told }
        }
    }
}

/// Says why the file can't be read, which ends with 1 where memory ran out, and with 2 for any
/// other cause.
pub fn refuse_file<E: Write>(err: &mut E, file: &str, error: &io::Error) -> Ended
    ensures memory { error_kind error.now ≡ ErrorKind.OutOfMemory → (result.status ≡ 1)
        × IsTold result (refusal_text Fault.OutOfMemory) (E.contents err.old) (E.contents err.new) }
    ensures other { error_kind error.now ≢ ErrorKind.OutOfMemory → result.status ≡ 2 }
    ensures some { ((result.status ≡ 1)
        × IsTold result (refusal_text Fault.OutOfMemory) (E.contents err.old) (E.contents err.new))
        ⊎ (result.status ≡ 2) }
{
    if error.kind() == ErrorKind::OutOfMemory {
        return refuse_for_memory(err);
    }
    let told = writeln!(err, "dynamo: {file}: {error}").is_ok();
    Ended { status: 2, told }
}

/// Says why a job stopped, and gives the status of that.
pub fn refuse_stopped<E: Write>(err: &mut E, stopped: &Stopped) -> Ended
    ensures status { IsStatusOf stopped.now result.status }
    ensures told { (text : List ℕ) → stopped_text stopped.now ≡ Some text →
        IsTold result text (E.contents err.old) (E.contents err.new) }
{
    let told = tell_stopped(err, stopped).is_ok();
    Ended {
        status: status_of(stopped),
        told,
    }
}

/// The status that a job ends with where it stopped early.
fn status_of(stopped: &Stopped) -> u8
    ensures { IsStatusOf stopped.now result }
{
    match stopped {
        Stopped::Refused(Fault::OutOfMemory) | Stopped::Refused(Fault::SharesMissing) => 1,
        Stopped::Refused(_) => 2,
        Stopped::Output(_) => 1,
    }
}

/// Says that help or its like could not be written, where even that can be said.
pub fn lose_output<E: Write>(err: &mut E, error: &io::Error) {
    let _ = writeln!(err, "dynamo: {error}");
}
