//! The word `gen`: exchanges of scenarios that are made from their numbers.

ghost use Rattle.std.specs.Prelude.{◌≡◌, ◌+◌, IfOk, OnOk};
ghost use Rattle.sspi_program.specs.Delegate.{HasExchange};
ghost use Rattle.sspi_program.specs.Generate.{AreNumbered};
ghost use Rattle.sspi_program.specs.Telling.{Generates, SumsUp};
ghost use Rattle.sspi_scenario.specs.Numbered.{numbered};

use crate::exchange::exchange;
use crate::record::{Conducted, Record, Tally};
use crate::said::{Said, no_memory, status_of};
use crate::status;
use crate::words::count::summary_of;
use sspi_report::summary_text;
use sspi_scenario::numbered::numbered;
use std::alloc::{AllocError, Global};

/// The ends of `count` scenarios, made from the numbers from 0 on, carry their messages to each
/// other, one pair of ends after the other. A summary counts the outcomes.
pub fn generate(alloc: Global, count: u32) -> Said
    ensures { Generates count result }
{
    let mut tally = Tally::new(alloc);
    match add_exchanges(alloc, count, &mut tally) {
        Ok(()) => summed(alloc, tally),
        Err(error) => no_memory(tally, error),
    }
}

/// What is said of these exchanges.
fn summed(alloc: Global, tally: Tally) -> Said
    ensures { SumsUp tally result }
{
    match summary_text(alloc, summary_of(tally.as_slice())) {
        Ok(text) => Said::Done(Conducted::tallying(status::DONE, tally), text.into_bytes()),
        Err(_) => Said::Done(
            Conducted::tallying(status::NO_MEMORY, tally),
            Vec::new(alloc),
        ),
    }
}

/// Adds the exchanges of `count` numbers.
fn add_exchanges(alloc: Global, count: u32, tally: &mut Tally) -> Result<(), AllocError>
    ensures { AreNumbered 0 tally.old → OnOk result (AreNumbered count tally.new) }
{
    for number in 0..count {
        add_exchange(alloc, number, tally)?;
    }
    Ok(())
}

/// Adds the exchange of a number. Also fails if that ran out of memory.
fn add_exchange(alloc: Global, number: u32, tally: &mut Tally) -> Result<(), AllocError>
    ensures { AreNumbered number tally.old → OnOk result (AreNumbered (number + 1) tally.new) }
{
    let made = exchange_at(alloc, number)?;
    let had_memory = status_of(&made.outcome).is_some();
    tally.push(made)?;
    if had_memory { Ok(()) } else { Err(AllocError) }
}

/// The exchange of a number.
fn exchange_at(alloc: Global, number: u32) -> Result<Record, AllocError>
    ensures scenario { IfOk result (λ made. made.scenario ≡ numbered number) }
    ensures exchange { IfOk result HasExchange }
{
    let scenario = numbered(alloc, number)?;
    exchange(alloc, scenario)
}
