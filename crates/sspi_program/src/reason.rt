//! What standard error says about a run, in words.
ghost use Rattle.std.specs.Prelude.{◌≡◌, ◌≢◌, ℕ, true, false, List, codes, string_bytes, option_map};
ghost use Rattle.std.specs.Prelude.{IfOk, MatchResult};
ghost use Rattle.sspi_ber.specs.Outside.{WriteCause, Writes};
ghost use Rattle.sspi_program.specs.Reason.{Tells, TellsReason, is_silent, kept_text, line};
ghost use Rattle.sspi_program.specs.Reason.{reason_text, refused_text, unexplained_text};
ghost use Rattle.sspi_program.specs.declared.reason.TheConstants.{USAGE};

use crate::command::Command;
use crate::run::EXPLAIN_LIMIT;
use crate::status;
use sspi_ber::{Sink, WireKind, write_all};
use sspi_scenario::{reason, text_of};
use std::alloc::{AllocError, Global};

/// The words of the program, one per line.
pub const USAGE: &str = "\
usage: sspi_run WORD, which reads standard input and writes standard output
  delegate    of a scenario: both ends exchange their messages over its link
  play        of a scenario: its ends take the deliveries of its schedule
  gate        of a scenario: delegate, and a relay passes what was delivered
  audit       of a scenario: delegate, and an auditor judges turns and log
  early       of a scenario: delegate, and the server tells the early result
  desk N      of a scenario: N of its clients at one desk, N from 1 to 64
  gen N       reads nothing: delegate of scenarios 0 to N - 1, N from 1 to 10000
  explain     of any text: its messages in hex, or why a reader refuses them
  serve FILE  of the scenario of FILE: its server, whose client is elsewhere
  connect FILE  of the scenario of FILE: its client, whose server is elsewhere
Exit status: 0 done, 1 refused, 2 no such text, 3 no input, 4 no output,
5 no memory, 6 other words. docs/FORMATS.md has the scenarios and the reports.
";

/// Why a run of this command on this text ended with this status, in words, without a final line
/// end. Empty at 0 and 1, where the report says it, and at 6, where `USAGE` does.
pub fn reason_of(
    alloc: Global,
    command: Option<Command>,
    text: &[u8],
    status: u8,
) -> Result<String, AllocError>
    ensures { IfOk result (λ told. string_bytes told ≡ reason_text command text.now status) }
{
    match status {
        status::NO_SCENARIO => refused_text(alloc, command, text),
        status::READ_FAULT => String::from_str(alloc, "standard input: a read failed"),
        status::WRITE_FAULT => String::from_str(alloc, "standard output: a write failed"),
        status::NO_MEMORY => String::from_str(alloc, "out of memory"),
        _ => Ok(String::new(alloc)),
    }
}

/// Tells standard error why a run ended with this status: the usage if the words are not a command,
/// and otherwise the reason, as a line, or `out of memory` if there was none to say it. Nothing is
/// written at 0 and 1, nor at 2 if the text was not kept. What `errors` does not take is lost.
pub fn tell_reason<E: Sink>(
    alloc: Global,
    errors: &mut E,
    command: Option<Command>,
    text: Option<&[u8]>,
    status: u8,
)
    ensures quiet { is_silent (option_map (λ t. t.now) text.entry) status ≡ true →
        errors.new ≡ errors.old }
    ensures usage { status ≡ 6 → Tells USAGE.now (E.written errors.old)
        (E.written errors.new) (E.faults errors.old) (E.faults errors.new) }
    ensures reason { is_silent (option_map (λ t. t.now) text.entry) status ≡ false → status ≢ 6 →
        TellsReason (reason_text command (kept_text (option_map (λ t. t.now) text.entry)) status)
        (E.written errors.old) (E.written errors.new) (E.faults errors.old)
        (E.faults errors.new) }
{
    match (status, text) {
        (status::DONE | status::REFUSED, _) | (status::NO_SCENARIO, None) => {}
        (status::OTHER_WORDS, _) => tell(errors, USAGE.as_bytes()),
        (_, Some(text)) => tell_made(errors, reason_of(alloc, command, text, status)),
        (_, None) => tell_made(errors, reason_of(alloc, command, &[], status)),
    }
}

fn tell<E: Sink>(errors: &mut E, text: &[u8])
    ensures { Tells text.now (E.written errors.old) (E.written errors.new) (E.faults errors.old)
        (E.faults errors.new) }
{
    let _written = write_all(errors, text);
}

/// Tells a reason as a line, or that there was no memory to make it.
fn tell_made<E: Sink>(errors: &mut E, reason: Result<String, AllocError>)
    ensures { let tells = λ (text : List ℕ). Tells (line text) (E.written errors.old)
        (E.written errors.new) (E.faults errors.old) (E.faults errors.new) in
        MatchResult reason (λ reason. tells (string_bytes reason))
        (λ _. tells (codes "out of memory")) }
{
    match reason {
        Ok(reason) => tell_line(errors, reason.as_bytes()),
        Err(_) => tell_line(errors, b"out of memory"),
    }
}

fn tell_line<E: Sink>(errors: &mut E, reason: &[u8])
    ensures { Tells (line reason.now) (E.written errors.old) (E.written errors.new)
        (E.faults errors.old) (E.faults errors.new) }
{
    let _written = write_line(errors, reason);
}

/// Writes a reason as a line.
fn write_line<E: Sink>(errors: &mut E, reason: &[u8]) -> Result<(), WireKind>
    ensures wrote { Writes (E.written errors.old) (E.written errors.new) result
        (line reason.now) }
    ensures cause { WriteCause (E.faults errors.old) (E.faults errors.new) result }
{
    write_all(errors, reason)?;
    write_all(errors, b"\n")
}

/// Why a command refuses a text.
fn refused_text(alloc: Global, command: Option<Command>, text: &[u8]) -> Result<String, AllocError>
    ensures { IfOk result (λ told. string_bytes told ≡ refused_text command text.now) }
{
    match command {
        Some(Command::Told(task)) => reason(alloc, task.purpose(), text),
        Some(Command::Explain) => String::from_str(alloc, unexplained_text(text)),
        Some(Command::Gen(_)) | None => Ok(String::new(alloc)),
    }
}

/// Why a text cannot be explained.
fn unexplained_text(text: &[u8]) -> &'static str
    ensures { result.now ≡ unexplained_text text.now }
{
    if text.len() > EXPLAIN_LIMIT {
        return "text: more than 2097152 bytes";
    }
    match text_of(text) {
        Some(_) => "",
        None => "text: not UTF-8",
    }
}
