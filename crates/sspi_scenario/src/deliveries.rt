//! Reads a delivery of a scenario's schedule.

ghost use Rattle.sspi_scenario.specs.Deliveries.{delivery_of};
ghost use Rattle.sspi_scenario.specs.Reads.{Reads};

use crate::error::LineError;
use crate::hexadecimal;
use crate::lines::sides;
use crate::words::end_named;
use sspi_play::Delivery;
use std::alloc::Global;

/// The delivery of a text: its end, a space, and what is delivered, in hex. If nothing is
/// delivered, the space may be missing.
#[tactic(auto, unfolding(crate::specs::Deliveries::delivery_of))]
pub fn delivery(alloc: Global, text: &str) -> Result<Delivery, LineError>
    ensures { Reads result (delivery_of text.now) }
{
    let (end, digits) = sides(text);
    let Some(to) = end_named(end) else {
        return Err(LineError::Fault);
    };
    Ok(Delivery {
        to,
        bytes: hexadecimal::bytes(alloc, digits)?,
    })
}
