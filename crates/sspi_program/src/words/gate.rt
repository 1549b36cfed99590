//! The word `gate`: an exchange whose deliveries pass a relay.

ghost use Rattle.std.specs.Prelude.{◌≡◌, IfOk};
ghost use Rattle.sspi_program.specs.Gate.{IsGated, Relays, delivered_from, relayed_status};
ghost use Rattle.sspi_program.specs.Gate.{stream_of};
ghost use Rattle.sspi_program.specs.Telling.{Conducts};
ghost use Rattle.sspi_scenario.specs.Held.{HoldsValues};

use crate::command::Task;
use crate::exchange::exchange;
use crate::record::Record;
use crate::said::{Said, report_with, said_with};
use crate::status;
use sspi_ber::{SliceSource, VecSink};
use sspi_delegate::{Carried, End};
use sspi_gate::{GateError, Relayed, relay};
use sspi_report::gate_line;
use sspi_scenario::Scenario;
use std::alloc::{AllocError, Global};

/// The ends of a scenario carry their messages to each other over its link, and a relay passes on
/// what that delivered.
pub fn gate(alloc: Global, scenario: Scenario) -> Said
    ensures { HoldsValues scenario → Conducts Task.Gate scenario result }
{
    match exchange(alloc, scenario) {
        Ok(made) => {
            let told = gated(alloc, &made);
            said_with(alloc, made, told)
        }
        Err(_) => Said::NoMemory,
    }
}

/// The status and the text of an exchange whose deliveries a relay passes on.
fn gated(alloc: Global, kept: &Record) -> Result<(u8, Vec<u8>), AllocError>
    ensures { IfOk result (λ told. IsGated kept.now told.0 told.1.items) }
{
    let log = kept.link.log();
    let client = stream_of(alloc, End::Client, log)?;
    let server = stream_of(alloc, End::Server, log)?;
    let answer = relay_streams(alloc, &client, &server, kept.scenario.turns);
    match gate_line(alloc, answer)? {
        Some(line) => {
            let text = report_with(alloc, kept, &line)?;
            Ok((relayed_status(answer), text))
        }
        None => Err(AllocError),
    }
}

/// What was delivered of the messages of an end, one after the other.
fn stream_of(alloc: Global, end: End, log: &[Carried]) -> Result<Vec<u8>, AllocError>
    ensures { IfOk result (λ stream. stream.items ≡ stream_of end log.now) }
{
    let mut stream = Vec::new(alloc);
    for entry in log {
        stream.extend_from_slice(delivered_from(end, entry))?;
    }
    Ok(stream)
}

fn delivered_from(end: End, entry: &Carried) -> &[u8]
    ensures { result.now ≡ delivered_from end entry.now }
{
    match (end, entry.from) {
        (End::Client, End::Client) | (End::Server, End::Server) => entry.delivered.as_slice(),
        _ => &[],
    }
}

/// The relay of two streams in memory, which do not fail.
fn relay_streams(
    alloc: Global,
    client: &[u8],
    server: &[u8],
    limit: u32,
) -> Result<Relayed, GateError>
    ensures { Relays limit client.now server.now result }
{
    let mut client_in = SliceSource::new(client);
    let mut server_in = SliceSource::new(server);
    let mut server_out = VecSink::new(alloc);
    let mut client_out = VecSink::new(alloc);
    relay(
        alloc,
        &mut client_in,
        &mut server_out,
        &mut server_in,
        &mut client_out,
        limit,
    )
}

fn relayed_status(answer: Result<Relayed, GateError>) -> u8
    ensures { result ≡ relayed_status answer }
{
    match answer {
        Ok(_) => status::DONE,
        Err(_) => status::REFUSED,
    }
}
