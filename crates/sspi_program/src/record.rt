//! What is kept of a run, with its exit status.

ghost use Rattle.std.specs.Prelude.{◌≡◌};
ghost use Rattle.sspi_program.specs.Kept;
ghost use Rattle.sspi_program.specs.Kept.{keeping, seating, tallying};

use crate::ends::{Client, Server};
use sspi_credssp::TableProxy;
use sspi_delegate::{DelegateError, Delegation, MemoryLink, Transcript};
use sspi_early::{Early, EarlyError, ListPolicy};
use sspi_mech::{Kerberos, Ntlm, PlainKdc};
use sspi_play::Played;
use sspi_scenario::Scenario;
use sspi_seats::Seat;
use sspi_types::Rows;

/// What a run came to.
#[derive(Drop)]
pub struct Conducted {
    /// The exit status of the program.
    pub status: u8,
    /// What the ends of a scenario did, if it had one.
    pub kept: Option<Record>,
    /// What the ends of many scenarios did, if it made them.
    pub tally: Option<Tally>,
    /// What the sessions of a desk came to, if there was one.
    pub seats: Option<Seats>,
}

impl Conducted {
    /// A run with this status, of which nothing is kept.
    pub fn nothing(status: u8) -> Conducted
        ensures { result ≡ Kept.nothing status }
    {
        Conducted {
            status,
            kept: None,
            tally: None,
            seats: None,
        }
    }

    /// The same with this record kept.
    pub fn keeping(status: u8, kept: Record) -> Conducted
        ensures { result ≡ keeping status kept }
    {
        Conducted {
            status,
            kept: Some(kept),
            tally: None,
            seats: None,
        }
    }

    /// The same with these records kept.
    pub fn tallying(status: u8, tally: Tally) -> Conducted
        ensures { result ≡ tallying status tally }
    {
        Conducted {
            status,
            kept: None,
            tally: Some(tally),
            seats: None,
        }
    }

    /// The same with these sessions kept.
    pub fn seating(status: u8, seats: Seats) -> Conducted
        ensures { result ≡ seating status seats }
    {
        Conducted {
            status,
            kept: None,
            tally: None,
            seats: Some(seats),
        }
    }
}

/// What the ends of many scenarios did, in the order of the scenarios.
pub type Tally = Rows<Record>;

/// What the sessions of a desk came to, number 0 first.
pub type Seats = Rows<PlainSeat>;

/// A client of a scenario and its session.
pub type PlainSeat = Seat<Ntlm, Kerberos, TableProxy, PlainKdc>;

/// What the ends of a scenario did: the scenario, all that took part as it was left, and the
/// outcome.
#[derive(Drop)]
pub struct Record {
    pub scenario: Scenario,
    pub client: Box<Client>,
    pub server: Box<Server>,
    /// In a play it carried nothing, and has no edits.
    pub link: MemoryLink,
    pub kdc: PlainKdc,
    pub transcript: Transcript,
    pub outcome: RunOutcome,
    /// Who may log on; only an early result has names here.
    pub policy: ListPolicy,
}

/// What the ends of a scenario came to.
#[derive(Drop)]
pub enum RunOutcome {
    /// They carried their messages to each other.
    Delegated(Result<Delegation, DelegateError>),
    /// They took the deliveries of a schedule.
    Played(Result<Played, DelegateError>),
    /// They carried their messages to each other, and the server told whether the user may log on.
    Early(Result<Early, EarlyError>),
}
