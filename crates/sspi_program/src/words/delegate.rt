//! The word `delegate`: an exchange and its report.

ghost use Rattle.sspi_program.specs.Telling.{Conducts};
ghost use Rattle.sspi_scenario.specs.Held.{HoldsValues};

use crate::command::Task;
use crate::exchange::exchange;
use crate::said::{Said, said_of};
use sspi_scenario::Scenario;
use std::alloc::Global;

/// The ends of a scenario carry their messages to each other over its link.
pub fn delegate(alloc: Global, scenario: Scenario) -> Said
    ensures { HoldsValues scenario → Conducts Task.Delegate scenario result }
{
    match exchange(alloc, scenario) {
        Ok(made) => said_of(alloc, made),
        Err(_) => Said::NoMemory,
    }
}
