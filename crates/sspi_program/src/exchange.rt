//! The exchange of a scenario's ends over its link.

ghost use Rattle.std.specs.Prelude.{◌≡◌, IfOk};
ghost use Rattle.sspi_program.specs.Delegate.{HasExchange};
ghost use Rattle.sspi_program.specs.Ends.{link_in};
ghost use Rattle.sspi_program.specs.Making.{AreEndsOf};
ghost use Rattle.sspi_scenario.specs.Held.{HoldsValues};

use crate::ends::{Ends, beside, ends_of, given_up, link_of};
use crate::record::{Record, RunOutcome};
use sspi_delegate::{MemoryLink, Transcript, delegate};
use sspi_early::ListPolicy;
use sspi_scenario::Scenario;
use std::alloc::{AllocError, Global};

/// The exchange of the two ends that the scenario names, over the link and with the KDC that it
/// names.
pub fn exchange(alloc: Global, scenario: Scenario) -> Result<Record, AllocError>
    ensures scenario { IfOk result (λ kept. kept.scenario ≡ scenario) }
    ensures exchange { HoldsValues scenario → IfOk result HasExchange }
{
    match ends_and_link(alloc, &scenario) {
        Ok((ends, link)) => Ok(meet(alloc, scenario, ends, link)),
        Err(error) => given_up(scenario, error),
    }
}

/// The ends and the link that the scenario names.
fn ends_and_link(alloc: Global, scenario: &Scenario) -> Result<(Ends, MemoryLink), AllocError>
    ensures ends { IfOk result (λ both. AreEndsOf scenario.now both.0) }
    ensures link { IfOk result (λ both. both.1 ≡ link_in scenario.now) }
{
    let link = link_of(alloc, scenario)?;
    beside(ends_of(alloc, scenario), link)
}

/// The exchange of these ends over this link.
fn meet(alloc: Global, scenario: Scenario, ends: Ends, link: MemoryLink) -> Record
    ensures scenario { result.scenario ≡ scenario }
    ensures exchange { AreEndsOf scenario ends → link ≡ link_in scenario → HoldsValues scenario →
        HasExchange result }
{
    let Ends {
        mut client,
        mut server,
        mut kdc,
    } = ends;
    let mut link = link;
    let mut transcript = Transcript::new(alloc);
    let answer = delegate(
        alloc,
        &mut *client,
        &mut *server,
        &mut link,
        &mut kdc,
        scenario.turns,
        &mut transcript,
    );
    Record {
        scenario,
        client,
        server,
        link,
        kdc,
        transcript,
        outcome: RunOutcome::Delegated(answer),
        policy: ListPolicy::new(alloc, Vec::new(alloc)),
    }
}
