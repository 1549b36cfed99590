//! The lines of an early user authorization result.

ghost use Rattle.std.specs.Prelude.{◌≡◌, string_bytes, option_map, IfOk};
ghost use Rattle.sspi_report.specs.Early.{early_line, early_text, heard_line, result_name};

use crate::entries::push_entry;
use crate::names::fault_name;
use sspi_delegate::Carried;
use sspi_early::{Early, EarlyError, EarlyUserAuthResult};
use std::alloc::{AllocError, Global};

/// What follows the report of a delegation, in UTF-8: the lines of the entries that came after it,
/// the first entry first, and the line of the early result.
///
/// Each line ends with LF. There is nothing if the delegation failed, if the policy failed or if
/// the exchange ran out of memory. Fails only when out of memory.
pub fn early_report(
    alloc: Global,
    entries: &[Carried],
    outcome: &Result<Early, EarlyError>,
) -> Result<Vec<u8>, AllocError>
    ensures { IfOk result (λ text. text.items ≡ early_text entries.now outcome.now) }
{
    let Some(line) = early_line(alloc, outcome)? else {
        return Ok(Vec::new(alloc));
    };
    let mut text = String::new(alloc);
    for entry in entries {
        push_entry(alloc, &mut text, entry)?;
    }
    text.push_str(&line)?;
    Ok(text.into_bytes())
}

fn early_line(
    alloc: Global,
    outcome: &Result<Early, EarlyError>,
) -> Result<Option<String>, AllocError>
    ensures { IfOk result (λ told. option_map (λ text. string_bytes text) told ≡ early_line
        outcome.now) }
{
    let text = match outcome {
        Ok(early) => heard_line(alloc, early.told, early.heard)?,
        Err(EarlyError::Read(kind)) => {
            let kind = fault_name(*kind);
            format!(in alloc; "early read {kind}\n")?
        }
        Err(EarlyError::LinkFault) => String::from_str(alloc, "early link\n")?,
        Err(EarlyError::Delegate(_)) => return Ok(None),
        Err(EarlyError::Policy) => return Ok(None),
        Err(EarlyError::InsufficientMemory) => return Ok(None),
    };
    Ok(Some(text))
}

fn heard_line(
    alloc: Global,
    told: EarlyUserAuthResult,
    heard: EarlyUserAuthResult,
) -> Result<String, AllocError>
    ensures { IfOk result (λ text. string_bytes text ≡ heard_line told heard) }
{
    let told = result_name(told);
    let heard = result_name(heard);
    let text = format!(in alloc; "early told={told} heard={heard}\n")?;
    Ok(text)
}

/// A result as a report names it.
fn result_name(told: EarlyUserAuthResult) -> &'static str
    ensures { result.now ≡ result_name told }
{
    match told {
        EarlyUserAuthResult::Success => "success",
        EarlyUserAuthResult::AccessDenied => "denied",
    }
}
