//! The word `early`: an exchange, and the early user authorization result.

ghost use Rattle.std.specs.Prelude.{◌≡◌, ◌++◌, Some, IfOk, drop, reverse};
ghost use Rattle.std.specs.Result.{IsOkAnd};
ghost use Rattle.sspi_program.specs.Delegate.{HasExchange};
ghost use Rattle.sspi_program.specs.Early.{IsEarlyOf, behind_text};
ghost use Rattle.sspi_program.specs.Telling.{Conducts};
ghost use Rattle.sspi_program.specs.Said.{status_of};
ghost use Rattle.sspi_scenario.specs.Held.{HoldsValues};

use crate::command::Task;
use crate::exchange::exchange;
use crate::record::{Record, RunOutcome};
use crate::said::{Said, no_memory, report_of, said_with, status_of};
use sspi_early::{ListPolicy, tell_early};
use sspi_names::Username;
use sspi_report::early_report;
use sspi_scenario::Scenario;
use std::alloc::{AllocError, Global};

/// The ends of a scenario carry their messages to each other over its link, and its server tells
/// whether the user may log on.
pub fn early(alloc: Global, scenario: Scenario) -> Said
    ensures { HoldsValues scenario → Conducts Task.Early scenario result }
{
    match exchange(alloc, scenario) {
        Ok(made) => match policy_of(alloc, &made.scenario) {
            Ok(policy) => told(alloc, made, policy),
            Err(error) => no_memory(made, error),
        },
        Err(_) => Said::NoMemory,
    }
}

/// The policy that the scenario names.
fn policy_of(alloc: Global, scenario: &Scenario) -> Result<ListPolicy, AllocError>
    ensures { IfOk result (λ policy. policy ≡ scenario.now.admit) }
{
    let names = copy_names(alloc, scenario.admit.as_slice())?;
    Ok(ListPolicy::new(alloc, names))
}

fn copy_names(alloc: Global, names: &[Username]) -> Result<Vec<Username>, AllocError>
    ensures { IfOk result (λ copies. copies.items ≡ names.now) }
{
    let mut copies = Vec::new(alloc);
    for name in names {
        copies.push(name.clone(alloc)?)?;
    }
    Ok(copies)
}

/// What is said of an exchange after which its server tells what this policy decides.
fn told(alloc: Global, made: Record, policy: ListPolicy) -> Said
    ensures { HasExchange made → policy ≡ made.scenario.admit →
        Conducts Task.Early made.scenario result }
{
    let report = report_of(alloc, &made);
    let entries = made.link.log().len();
    let kept = tell(made, policy);
    let text = told_text(alloc, &kept, report, entries);
    said_with(alloc, kept, text)
}

/// The record of an exchange and of what followed it.
fn tell(made: Record, policy: ListPolicy) -> Record
    ensures { HasExchange made → policy ≡ made.scenario.admit → IsEarlyOf made result }
{
    let Record {
        scenario,
        client,
        server,
        mut link,
        kdc,
        transcript,
        outcome,
        policy: _,
    } = made;
    let mut policy = policy;
    let outcome = match outcome {
        RunOutcome::Delegated(answer) => {
            RunOutcome::Early(tell_early(&mut link, &mut policy, answer))
        }
        // An exchange has no other outcome.
        RunOutcome::Played(answer) => RunOutcome::Played(answer),
        RunOutcome::Early(answer) => RunOutcome::Early(answer),
    };
    Record {
        scenario,
        client,
        server,
        link,
        kdc,
        transcript,
        outcome,
        policy,
    }
}

/// The status and the text of an early result: the report of the delegation, and what follows it,
/// without the first `entries` entries of the log.
fn told_text(
    alloc: Global,
    kept: &Record,
    report: Result<Vec<u8>, AllocError>,
    entries: usize,
) -> Result<(u8, Vec<u8>), AllocError>
    ensures { IfOk result (λ told. (status_of kept.now.outcome ≡ Some told.0)
        × IsOkAnd report (λ text. told.1.items ≡ text.items ++
        behind_text kept.now.outcome (drop entries (reverse kept.now.link.log)))) }
{
    let mut text = report?;
    let Some(status) = status_of(&kept.outcome) else {
        return Err(AllocError);
    };
    let behind = behind(alloc, kept, entries)?;
    text.extend_from_slice(&behind)?;
    Ok((status, text))
}

fn behind(alloc: Global, kept: &Record, entries: usize) -> Result<Vec<u8>, AllocError>
    ensures { IfOk result (λ text. text.items ≡ behind_text kept.now.outcome
        (drop entries (reverse kept.now.link.log))) }
{
    let log = kept.link.log();
    let (_, behind) = log.split_at(entries.min(log.len()));
    match &kept.outcome {
        RunOutcome::Early(outcome) => early_report(alloc, behind, outcome),
        RunOutcome::Delegated(_) => Ok(Vec::new(alloc)),
        RunOutcome::Played(_) => Ok(Vec::new(alloc)),
    }
}
