//! The word `play`: the deliveries of a scenario's schedule.

ghost use Rattle.std.specs.Prelude.{◌≡◌, IfOk};
ghost use Rattle.sspi_program.specs.Making.{AreEndsOf};
ghost use Rattle.sspi_program.specs.Play.{HasPlay};
ghost use Rattle.sspi_program.specs.Telling.{Conducts};

use crate::command::Task;
use crate::ends::{Ends, ends_of, given_up};
use crate::record::{Record, RunOutcome};
use crate::said::{Said, said_of};
use sspi_delegate::{MemoryLink, Transcript};
use sspi_early::ListPolicy;
use sspi_scenario::Scenario;
use std::alloc::{AllocError, Global};

/// The ends of a scenario take the deliveries of its schedule.
pub fn play(alloc: Global, scenario: Scenario) -> Said
    ensures { Conducts Task.Play scenario result }
{
    match played(alloc, scenario) {
        Ok(made) => said_of(alloc, made),
        Err(_) => Said::NoMemory,
    }
}

fn played(alloc: Global, scenario: Scenario) -> Result<Record, AllocError>
    ensures scenario { IfOk result (λ kept. kept.scenario ≡ scenario) }
    ensures play { IfOk result HasPlay }
{
    match ends_of(alloc, &scenario) {
        Ok(ends) => Ok(hand_out(alloc, scenario, ends)),
        Err(error) => given_up(scenario, error),
    }
}

/// The play of these ends.
fn hand_out(alloc: Global, scenario: Scenario, ends: Ends) -> Record
    ensures scenario { result.scenario ≡ scenario }
    ensures play { AreEndsOf scenario ends → HasPlay result }
{
    let Ends {
        mut client,
        mut server,
        mut kdc,
    } = ends;
    let mut transcript = Transcript::new(alloc);
    let answer = sspi_play::play(
        alloc,
        &mut *client,
        &mut *server,
        scenario.deliver.as_slice(),
        &mut kdc,
        &mut transcript,
    );
    Record {
        scenario,
        client,
        server,
        link: MemoryLink::new(alloc, Vec::new(alloc)),
        kdc,
        transcript,
        outcome: RunOutcome::Played(answer),
        policy: ListPolicy::new(alloc, Vec::new(alloc)),
    }
}
