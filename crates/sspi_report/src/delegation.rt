//! The report of an exchange.

ghost use Rattle.std.specs.Prelude.{◌≡◌, IfOk};
ghost use Rattle.sspi_report.specs.Report.{report_text};

use crate::entries::{push_entry, room_of};
use crate::outcome::outcome_line;
use sspi_delegate::{Carried, DelegateError, Delegation};
use std::alloc::{AllocError, Global};

/// The report of an exchange, in UTF-8: the lines of the log's entries, the first entry first, and
/// the line of the outcome.
///
/// Each line ends with LF. The report of an exchange that ran out of memory is empty. Fails only
/// when out of memory.
#[tactic(auto, unfolding(crate::specs::Report::report_text))]
pub fn report(
    alloc: Global,
    log: &[Carried],
    outcome: &Result<Delegation, DelegateError>,
) -> Result<Vec<u8>, AllocError>
    ensures { IfOk result (λ text. text.items ≡ report_text log.now outcome.now) }
{
    let Some(line) = outcome_line(alloc, outcome)? else {
        return Ok(Vec::new(alloc));
    };
    let mut text = String::with_capacity(alloc, room_of(log).saturating_add(line.len()))?;
    for entry in log {
        push_entry(alloc, &mut text, entry)?;
    }
    text.push_str(&line)?;
    Ok(text.into_bytes())
}
