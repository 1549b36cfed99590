//! What the program makes of a scenario, a module for each word; of a number of scenarios; and of a
//! text with messages.

ghost use Rattle.sspi_program.specs.Telling.{Conducts};
ghost use Rattle.sspi_scenario.specs.Held.{HoldsValues};

mod audit;
mod count;
mod delegate;
mod desk;
mod early;
pub mod explain;
mod gate;
pub mod generate;
mod play;

use crate::command::Task;
use crate::said::Said;
use sspi_scenario::Scenario;
use std::alloc::Global;

/// What this task makes of a scenario.
pub fn conduct(alloc: Global, task: Task, scenario: Scenario) -> Said
    ensures { HoldsValues scenario → Conducts task scenario result }
{
    match task {
        Task::Delegate => delegate::delegate(alloc, scenario),
        Task::Play => play::play(alloc, scenario),
        Task::Gate => gate::gate(alloc, scenario),
        Task::Audit => audit::audit(alloc, scenario),
        Task::Early => early::early(alloc, scenario),
        Task::Desk(count) => desk::desk(alloc, count, scenario),
    }
}
