//! The word `desk`: clients of a scenario with a session each at one desk.

ghost use Rattle.std.specs.Prelude.{◌≡◌, ℕ, [], length, IfErr, MatchResult, OnOk};
ghost use Rattle.std.specs.List.{list_all};
ghost use Rattle.sspi_program.specs.Desk.{is_ok, place_in, places_in, seats_status};
ghost use Rattle.sspi_program.specs.Telling.{Conducts, SaysOfSeats};
ghost use Rattle.sspi_scenario.specs.declared.scenario.Scenario.{Scenario};
ghost use Rattle.sspi_seats.specs.Table.{with_place};

use crate::command::Task;
use crate::ends::ends_of;
use crate::record::{Conducted, PlainSeat, Seats};
use crate::said::{Said, no_memory, said_without};
use crate::status;
use sspi_credssp::TableProxy;
use sspi_mech::{Kerberos, Ntlm, PlainKdc};
use sspi_report::seats_report;
use sspi_scenario::Scenario;
use sspi_seats::{JoinError, SeatOutcome, Table};
use std::alloc::Global;

/// The clients of a scenario, which have a session each at one desk.
type PlainTable = Table<Ntlm, Kerberos, TableProxy, PlainKdc>;

/// `count` clients of a scenario have a session each at one desk.
pub fn desk(alloc: Global, count: u32, scenario: Scenario) -> Said
    ensures { Conducts (Task.Desk count) scenario result }
{
    let mut table = PlainTable::new(alloc, count);
    match seat_all(alloc, count, &scenario, &mut table) {
        Ok(()) => {
            let said = serve(alloc, scenario.turns, table);
            said_without(scenario, said)
        }
        Err(_) => no_memory(table, scenario),
    }
}

/// Seats `count` clients. An empty table with that limit does not fill up before that.
fn seat_all(
    alloc: Global,
    count: u32,
    scenario: &Scenario,
    table: &mut PlainTable,
) -> Result<(), JoinError>
    ensures { table.old ≡ record { limit = count; places = [] } → MatchResult result
        (λ _. table.new.places ≡ places_in count scenario.now)
        (λ error. error ≡ JoinError.InsufficientMemory) }
{
    for seat in 0..count {
        seat_one(alloc, scenario, table)?;
    }
    Ok(())
}

/// Seats one more client.
fn seat_one(alloc: Global, scenario: &Scenario, table: &mut PlainTable) -> Result<(), JoinError>
    ensures seated { OnOk result (table.new ≡ with_place table.old (place_in scenario.now)) }
    ensures full { IfErr result (λ error. error ≡ JoinError.Full →
        length table.old.places ≡ table.old.limit) }
{
    let ends = ends_of(alloc, scenario)?;
    table.join(
        Box::into_inner(ends.client),
        ends.kdc,
        Box::into_inner(ends.server),
    )
}

/// What is said of the clients at a table, once they are served.
fn serve(alloc: Global, limit: u32, table: PlainTable) -> Said
    ensures { (count : ℕ) (scenario : Scenario) → table.places ≡ places_in count scenario →
        limit ≡ scenario.turns →
        Conducts (Task.Desk count) scenario result }
{
    match table.finish(limit) {
        Ok(seats) => said_of_seats(alloc, seats),
        Err(_) => Said::NoMemory,
    }
}

fn said_of_seats(alloc: Global, seats: Seats) -> Said
    ensures { SaysOfSeats seats result }
{
    let status = seats_status(seats.as_slice());
    match seats_report(alloc, seats.as_slice()) {
        Ok(text) => Said::Done(Conducted::seating(status, seats), text),
        Err(_) => Said::Done(
            Conducted::seating(status::NO_MEMORY, seats),
            Vec::new(alloc),
        ),
    }
}

/// 0 if every server has the credentials, and otherwise 1.
fn seats_status(seats: &[PlainSeat]) -> u8
    ensures { result ≡ seats_status seats.now }
{
    if are_ok(seats) {
        status::DONE
    } else {
        status::REFUSED
    }
}

/// Whether every server has the credentials.
fn are_ok(seats: &[PlainSeat]) -> bool
    ensures { result ≡ list_all (λ seat. is_ok seat.outcome) seats.now }
{
    seats.iter().all(|seat| is_ok(&seat.outcome))
}

fn is_ok(outcome: &SeatOutcome) -> bool
    ensures { result ≡ is_ok outcome.now }
{
    matches!(outcome, SeatOutcome::Ok(_, _))
}
