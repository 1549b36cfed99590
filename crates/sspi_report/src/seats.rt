//! The lines of a table's seats.

ghost use Rattle.std.specs.Prelude.{◌≡◌, ◌++◌, string_bytes, IfOk, OnOk};
ghost use Rattle.sspi_report.specs.Entries.{line};
ghost use Rattle.sspi_report.specs.Seats.{seat_line, seat_text, seats_text};

use crate::outcome::{delegated_line, read_line, refusal_line, write_line};
use sspi_delegate::End;
use sspi_seats::{Seat, SeatOutcome};
use std::alloc::{AllocError, Global};

/// The report of a table in UTF-8: for each seat, in order, `session`, its number from 0, and its
/// outcome, in the form of the last line of a delegation's report. Each line ends with LF. Fails
/// only when out of memory.
pub fn seats_report<N, K, C, D>(
    alloc: Global,
    seats: &[Seat<N, K, C, D>],
) -> Result<Vec<u8>, AllocError>
    ensures { IfOk result (λ text. text.items ≡ seats_text seats.now) }
{
    let mut text = String::new(alloc);
    for (session, seat) in seats.iter().enumerate() {
        push_seat(alloc, &mut text, session, &seat.outcome)?;
    }
    Ok(text.into_bytes())
}

/// Appends the line of a seat.
fn push_seat(
    alloc: Global,
    text: &mut String,
    session: usize,
    outcome: &SeatOutcome,
) -> Result<(), AllocError>
    ensures { OnOk result (string_bytes text.new ≡ string_bytes text.old ++
        seat_line session outcome.now) }
{
    let line = seat_line(alloc, session, outcome)?;
    text.push_str(&line)
}

/// The line of a session, which ends with LF. Fails only when out of memory.
pub fn seat_line(alloc: Global, session: usize, outcome: &SeatOutcome) -> Result<String, AllocError>
    ensures { IfOk result (λ text. string_bytes text ≡ seat_line session outcome.now) }
{
    let outcome = outcome_line(alloc, outcome)?;
    let line = format!(in alloc; "session {session} {outcome}")?;
    Ok(line)
}

/// The outcome of a seat.
fn outcome_line(alloc: Global, outcome: &SeatOutcome) -> Result<String, AllocError>
    ensures { IfOk result (λ text. string_bytes text ≡ line (seat_text outcome.now)) }
{
    match outcome {
        SeatOutcome::Ok(turns, credentials) => delegated_line(alloc, *turns, credentials),
        SeatOutcome::Client(error) => refusal_line(alloc, End::Client, *error),
        SeatOutcome::Server(error) => refusal_line(alloc, End::Server, *error),
        SeatOutcome::Read(end, kind) => read_line(alloc, *end, *kind),
        SeatOutcome::Write(end) => write_line(alloc, *end),
        SeatOutcome::TurnsSpent => String::from_str(alloc, "turns\n"),
    }
}
