//! How the process ends: `main` passes in the words and the standard streams of the process, and
//! answers with the status that the process ends with.
ghost use Rattle.std.specs.Prelude.{◌≡◌, ◌≢◌, ◌≤◌, None, IfOk, IfErr};
ghost use Rattle.std.specs.IoError.{error_kind};
ghost use Rattle.sspi_program.specs.Commands.{command_of, limit_in, most_taken};
ghost use Rattle.sspi_program.specs.Run.{outside, EndsRun};
ghost use Rattle.sspi_scenario.specs.Reading.{TakesAtMost};

use crate::command::{Command, command_of};
use crate::run::exit_status;
use crate::status;
use sspi_ber::{Sink, Source};
use std::alloc::Global;
use std::env::{self, Env};
use std::io::{self, ErrorKind};

/// The words after the program's name. A word that is not UTF-8 is an error, and so is out of
/// memory, by its kind `OutOfMemory`. No contract can say which words a process was given.
pub fn words_of<R: Env + Alloc<A = Global>>(rt: &R) -> io::Result<Vec<String>> {
    let mut words = Vec::new(rt.alloc());
    for word in env::args(rt)?.skip(1) {
        words.push(word)?;
    }
    Ok(words)
}

/// What the words that were read ask for. Words that could not be read are not a command.
pub fn command_in(words: &io::Result<Vec<String>>) -> Option<Command>
    ensures read { IfOk words.now (λ words. result ≡ command_of words.items) }
    ensures unread { IfErr words.now (λ error. result ≡ None) }
{
    match words {
        Ok(words) => command_of(words),
        Err(_) => None,
    }
}

/// Runs the program on the words that were read, and answers the status that the process ends with:
/// that of `exit_status` for these words. If a word is not UTF-8 they are not a command, so it is
/// that of no words. If memory for them ran out it is 5 at once, and nothing is read or written.
pub fn ended<S: Source, W: Sink>(
    alloc: Global,
    words: io::Result<Vec<String>>,
    source: &mut S,
    sink: &mut W,
) -> u8
    // The status.
    ensures runs { IfOk words (λ words. EndsRun (command_of words.items)
        (outside (S.left source.old) (S.faults source.old) (W.written sink.old) (W.faults sink.old))
        (outside (S.left source.new) (S.faults source.new) (W.written sink.new) (W.faults sink.new))
        result) }
    ensures no_words { IfErr words (λ error. error_kind error ≢ ErrorKind.OutOfMemory → EndsRun None
        (outside (S.left source.old) (S.faults source.old) (W.written sink.old) (W.faults sink.old))
        (outside (S.left source.new) (S.faults source.new) (W.written sink.new) (W.faults sink.new))
        result) }
    ensures no_memory { IfErr words (λ error. error_kind error ≡ ErrorKind.OutOfMemory →
        (result ≡ 5) × (source.new ≡ source.old) × (sink.new ≡ sink.old)) }
    // What was read.
    ensures unread { IfOk words (λ words. limit_in (command_of words.items) ≡ None →
        source.new ≡ source.old) }
    ensures unasked { IfErr words (λ error. source.new ≡ source.old) }
    ensures taken { IfOk words (λ words. TakesAtMost
        (most_taken (limit_in (command_of words.items)))
        (S.left source.old) (S.left source.new)) }
    ensures faults { (S.faults source.old ≤ S.faults source.new) ×
        (W.faults sink.old ≤ W.faults sink.new) }
{
    match words {
        Ok(words) => exit_status(alloc, &words, source, sink),
        Err(error) if error.kind() == ErrorKind::OutOfMemory => status::NO_MEMORY,
        // A word that is not UTF-8 is not a command.
        Err(_) => exit_status(alloc, &[], source, sink),
    }
}
