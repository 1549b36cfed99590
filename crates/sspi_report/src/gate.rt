//! The line of a relay.

ghost use Rattle.std.specs.Prelude.{◌≡◌, string_bytes, option_map, IfOk};
ghost use Rattle.sspi_report.specs.Gate.{close_text, gate_line, passed_line, stop_text};

use crate::names::{end_name, fault_name};
use sspi_gate::{Close, GateError, GateFault, Relayed};
use std::alloc::{AllocError, Global};

/// The line of a relay, which ends with LF: how many requests were forwarded, and why no more were.
/// `None` if a stream failed or memory ran out in the relay. Fails only when out of memory.
pub fn gate_line(
    alloc: Global,
    answer: Result<Relayed, GateError>,
) -> Result<Option<String>, AllocError>
    ensures { IfOk result (λ told. option_map (λ text. string_bytes text) told ≡ gate_line answer) }
{
    match answer {
        Ok(relayed) => {
            let why = close_text(alloc, relayed.how)?;
            Ok(Some(passed_line(alloc, relayed.passed, &why)?))
        }
        Err(error) => match stop_text(alloc, error.why)? {
            Some(why) => Ok(Some(passed_line(alloc, error.passed, &why)?)),
            None => Ok(None),
        },
    }
}

fn passed_line(alloc: Global, passed: u64, why: &str) -> Result<String, AllocError>
    ensures { IfOk result (λ text. string_bytes text ≡ passed_line passed why.now) }
{
    let text = format!(in alloc; "gate passed {passed} {why}\n")?;
    Ok(text)
}

/// How a relay ended.
fn close_text(alloc: Global, how: Close) -> Result<String, AllocError>
    ensures { IfOk result (λ text. string_bytes text ≡ close_text how) }
{
    let text = match how {
        Close::Ended(end) => {
            let end = end_name(end);
            format!(in alloc; "ended {end}")?
        }
        Close::Refused(code) => {
            let number = code.0;
            format!(in alloc; "refused 0x{number:x}")?
        }
    };
    Ok(text)
}

/// Why a relay stopped.
fn stop_text(alloc: Global, why: GateFault) -> Result<Option<String>, AllocError>
    ensures { IfOk result (λ told. option_map (λ text. string_bytes text) told ≡ stop_text why) }
{
    let text = match why {
        GateFault::Bad(end, kind) => {
            let end = end_name(end);
            let kind = fault_name(kind);
            format!(in alloc; "bad {end} {kind}")?
        }
        GateFault::Version(end) => {
            let end = end_name(end);
            format!(in alloc; "version {end}")?
        }
        GateFault::TurnsSpent => String::from_str(alloc, "spent")?,
        GateFault::ReadFault(_) => return Ok(None),
        GateFault::WriteFault(_) => return Ok(None),
        GateFault::InsufficientMemory => return Ok(None),
    };
    Ok(Some(text))
}
