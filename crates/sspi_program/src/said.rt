//! What a run comes to, before it is written.

ghost use Rattle.std.specs.Prelude.{◌≡◌, ◌++◌, IfOk};
ghost use Rattle.sspi_program.specs.Said.{delegated_status, early_status, heard_status, report_of};
ghost use Rattle.sspi_program.specs.Said.{status_of};
ghost use Rattle.sspi_program.specs.Telling.{IsDoneWith, SaysOf, SaysWith};

use crate::record::{Conducted, Record, RunOutcome};
use crate::status;
use sspi_delegate::{DelegateError, Delegation};
use sspi_early::{Early, EarlyError, EarlyUserAuthResult};
use sspi_report::{play_report, report};
use std::alloc::{AllocError, Global};

/// What a run comes to, before it is written.
#[derive(Drop)]
pub enum Said {
    /// The command was carried out: what is kept with its status, and the text that is due.
    Done(Conducted, Vec<u8>),
    /// The text is not a scenario. The number is that of its faulty line; 0 if no line is to blame.
    NoScenario(usize),
    /// The text is too long or is not UTF-8, so no line of it is explained.
    NoText,
    ReadFault,
    OtherWords,
    NoMemory,
}

/// What is said of a record: its report. A record that ran out of memory is dropped.
pub fn said_of(alloc: Global, made: Record) -> Said
    ensures { SaysOf made result }
{
    let Some(status) = status_of(&made.outcome) else {
        return no_memory(made, AllocError);
    };
    match report_of(alloc, &made) {
        Ok(text) => Said::Done(Conducted::keeping(status, made), text),
        Err(_) => Said::Done(Conducted::keeping(status::NO_MEMORY, made), Vec::new(alloc)),
    }
}

/// What is said of a record with this status and this text, if there was memory for them. A record
/// that ran out of memory is dropped.
pub fn said_with(alloc: Global, made: Record, told: Result<(u8, Vec<u8>), AllocError>) -> Said
    ensures { SaysWith made told result }
{
    match status_of(&made.outcome) {
        Some(_) => done_with(alloc, made, told),
        None => no_memory(made, told),
    }
}

fn done_with(alloc: Global, made: Record, told: Result<(u8, Vec<u8>), AllocError>) -> Said
    ensures { IsDoneWith made told result }
{
    match told {
        Ok((status, text)) => Said::Done(Conducted::keeping(status, made), text),
        Err(_) => Said::Done(Conducted::keeping(status::NO_MEMORY, made), Vec::new(alloc)),
    }
}

/// Drops what was made. Generic, since dropping a type parameter is one proof step, and dropping a
/// record is one for each type in it.
pub fn no_memory<R: Drop, T: Drop>(_made: R, _told: T) -> Said
    ensures { result ≡ Said.NoMemory }
{
    Said::NoMemory
}

/// Drops what this was said of. Generic, as `no_memory` is.
pub fn said_without<R: Drop>(_gone: R, said: Said) -> Said
    ensures { result ≡ said }
{
    said
}

/// The report of a record, followed by a line.
pub fn report_with(alloc: Global, kept: &Record, line: &str) -> Result<Vec<u8>, AllocError>
    ensures { IfOk result (λ text. text.items ≡ report_of kept.now ++ line.now) }
{
    let mut text = report_of(alloc, kept)?;
    text.extend_from_slice(line.as_bytes())?;
    Ok(text)
}

/// The status of an outcome; none if it ran out of memory.
pub fn status_of(outcome: &RunOutcome) -> Option<u8>
    ensures { result ≡ status_of outcome.now }
{
    match outcome {
        RunOutcome::Delegated(answer) => delegated_status(answer),
        RunOutcome::Played(Ok(_)) => Some(status::DONE),
        RunOutcome::Played(Err(_)) => None,
        RunOutcome::Early(answer) => early_status(answer),
    }
}

fn delegated_status(answer: &Result<Delegation, DelegateError>) -> Option<u8>
    ensures { result ≡ delegated_status answer.now }
{
    match answer {
        Ok(_) => Some(status::DONE),
        Err(DelegateError::InsufficientMemory) => None,
        Err(_) => Some(status::REFUSED),
    }
}

fn early_status(answer: &Result<Early, EarlyError>) -> Option<u8>
    ensures { result ≡ early_status answer.now }
{
    match answer {
        Ok(early) => Some(heard_status(early.heard)),
        Err(EarlyError::InsufficientMemory) => None,
        Err(EarlyError::Delegate(_) | EarlyError::Policy) => Some(status::REFUSED),
        Err(EarlyError::LinkFault | EarlyError::Read(_)) => Some(status::REFUSED),
    }
}

fn heard_status(heard: EarlyUserAuthResult) -> u8
    ensures { result ≡ heard_status heard }
{
    match heard {
        EarlyUserAuthResult::Success => status::DONE,
        EarlyUserAuthResult::AccessDenied => status::REFUSED,
    }
}

/// The report of an exchange or a play; empty for an early result and for a play that failed.
pub fn report_of(alloc: Global, kept: &Record) -> Result<Vec<u8>, AllocError>
    ensures { IfOk result (λ text. text.items ≡ report_of kept.now) }
{
    match &kept.outcome {
        RunOutcome::Delegated(answer) => report(alloc, kept.link.log(), answer),
        RunOutcome::Played(Ok(played)) => play_report(alloc, kept.transcript.turns(), played),
        RunOutcome::Played(Err(_)) => Ok(Vec::new(alloc)),
        RunOutcome::Early(_) => Ok(Vec::new(alloc)),
    }
}
