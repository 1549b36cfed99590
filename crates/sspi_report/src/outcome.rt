//! The line of an exchange's outcome.

ghost use Rattle.std.specs.Prelude.{◌≡◌, ◌++◌, string_bytes, option_map, codes, IfOk};
ghost use Rattle.sspi_report.specs.Outcome.{delegated_text, error_line, outcome_line, read_text};
ghost use Rattle.sspi_report.specs.Outcome.{refusal_text, write_text};
ghost use Rattle.sspi_report.specs.Entries.{line};
ghost use Rattle.sspi_report.specs.Names.{end_name};

use crate::names::{end_name, fault_name};
use sspi_ber::WireKind;
use sspi_delegate::{DelegateError, Delegation, End};
use sspi_names::AuthIdentity;
use sspi_types::Error;
use std::alloc::{AllocError, Global};

/// The line of an outcome; `None` if the exchange ran out of memory.
pub(crate) fn outcome_line(
    alloc: Global,
    outcome: &Result<Delegation, DelegateError>,
) -> Result<Option<String>, AllocError>
    ensures { IfOk result (λ told. option_map (λ text. string_bytes text) told ≡ outcome_line
        outcome.now) }
{
    match outcome {
        Ok(delegation) => {
            let line = delegated_line(alloc, delegation.rounds, &delegation.credentials)?;
            Ok(Some(line))
        }
        Err(error) => error_line(alloc, *error),
    }
}

/// The line of credentials that were delegated in this many turns of the client.
pub(crate) fn delegated_line(
    alloc: Global,
    rounds: u32,
    credentials: &AuthIdentity,
) -> Result<String, AllocError>
    ensures { IfOk result (λ text. string_bytes text ≡ line
        (delegated_text rounds credentials.now)) }
{
    let user = credentials.username.inner();
    let password = credentials.password.value.as_str();
    let text = format!(in alloc; "ok {rounds} user={user} password={password}\n")?;
    Ok(text)
}

fn error_line(alloc: Global, error: DelegateError) -> Result<Option<String>, AllocError>
    ensures { IfOk result (λ told. option_map (λ text. string_bytes text) told ≡ error_line error) }
{
    let text = match error {
        DelegateError::Client(error) => refusal_line(alloc, End::Client, error)?,
        DelegateError::Server(error) => refusal_line(alloc, End::Server, error)?,
        DelegateError::Read(end, kind) => read_line(alloc, end, kind)?,
        DelegateError::Write(end) => write_line(alloc, end)?,
        DelegateError::LinkFault => String::from_str(alloc, "link\n")?,
        DelegateError::TurnsSpent => String::from_str(alloc, "turns\n")?,
        DelegateError::InsufficientMemory => return Ok(None),
    };
    Ok(Some(text))
}

/// The line of an end's refusal.
pub(crate) fn refusal_line(alloc: Global, end: End, error: Error) -> Result<String, AllocError>
    ensures { IfOk result (λ text. string_bytes text ≡ line (end_name end ++ codes " " ++
        refusal_text error)) }
{
    let end = end_name(end);
    let kind = error.error_type.name();
    let text = match error.nstatus {
        Some(status) => {
            let number = status.0;
            format!(in alloc; "{end} {kind} 0x{number:x}\n")?
        }
        None => format!(in alloc; "{end} {kind}\n")?,
    };
    Ok(text)
}

/// The line of what an end could not read.
pub(crate) fn read_line(alloc: Global, end: End, kind: WireKind) -> Result<String, AllocError>
    ensures { IfOk result (λ text. string_bytes text ≡ line (read_text end kind)) }
{
    let end = end_name(end);
    let kind = fault_name(kind);
    let text = format!(in alloc; "read {end} {kind}\n")?;
    Ok(text)
}

/// The line of a message that is too long.
pub(crate) fn write_line(alloc: Global, end: End) -> Result<String, AllocError>
    ensures { IfOk result (λ text. string_bytes text ≡ line (write_text end)) }
{
    let end = end_name(end);
    let text = format!(in alloc; "write {end}\n")?;
    Ok(text)
}
