//! The word `audit`: an exchange whose turns and log are judged.

ghost use Rattle.std.specs.Prelude.{IfOk};
ghost use Rattle.sspi_program.specs.Audit.{IsJudged};
ghost use Rattle.sspi_program.specs.Telling.{Conducts};
ghost use Rattle.sspi_scenario.specs.Held.{HoldsValues};

use crate::command::Task;
use crate::exchange::exchange;
use crate::record::Record;
use crate::said::{Said, report_with, said_with, status_of};
use sspi_report::audit_line;
use sspi_scenario::Scenario;
use std::alloc::{AllocError, Global};

/// The ends of a scenario carry their messages to each other over its link, and an auditor judges
/// their turns and its log.
pub fn audit(alloc: Global, scenario: Scenario) -> Said
    ensures { HoldsValues scenario → Conducts Task.Audit scenario result }
{
    match exchange(alloc, scenario) {
        Ok(made) => {
            let told = audited(alloc, &made);
            said_with(alloc, made, told)
        }
        Err(_) => Said::NoMemory,
    }
}

/// The status and the text of an exchange that is judged.
fn audited(alloc: Global, kept: &Record) -> Result<(u8, Vec<u8>), AllocError>
    ensures { IfOk result (λ told. IsJudged kept.now told.0 told.1.items) }
{
    let Some(status) = status_of(&kept.outcome) else {
        return Err(AllocError);
    };
    match sspi_audit::audit(alloc, kept.transcript.turns(), kept.link.log()) {
        Ok(verdict) => {
            let line = audit_line(alloc, verdict)?;
            let text = report_with(alloc, kept, &line)?;
            Ok((status, text))
        }
        Err(_) => Err(AllocError),
    }
}
