//! The state of an exchange between two of its recorded turns.
ghost use Rattle.std.specs.Prelude.{◌≡◌, ◌↔◌, false, true, List, [], ◌∷◌, length, slice_get};
ghost use Rattle.std.specs.Prelude.{IsTrue, IfOk, IfErr, IfSome};
ghost use Rattle.sspi_credssp.specs.declared.turn.Turn.{Turn};
ghost use Rattle.sspi_delegate.specs.Turns.{client_state, is_over, server_state};
ghost use Rattle.sspi_delegate.specs.Log.{IsEntry};
ghost use Rattle.sspi_delegate.specs.Turns.{AllGoOn, GoesOn, next_end};
ghost use Rattle.sspi_audit.specs.Frames.{client_before, client_frame, server_before, server_frame};
ghost use Rattle.sspi_audit.specs.Frames.{server_note, told_by};
ghost use Rattle.sspi_audit.specs.Run.{HeedsPeer, RunTurn};
ghost use Rattle.sspi_audit.specs.Shown.{HasLongBlobs, IsGiven, ShownTurn, ShowsTurn};
ghost use Rattle.sspi_audit.specs.Standings.{client_note, Stands};
ghost use Rattle.sspi_types.specs.Errors.{memory_error};

use crate::client::shows_client;
use crate::entry::{gives, is_entry};
use crate::fields::is_long;
use crate::frame::Frame;
use crate::heeds::{client_heeds, server_heeds};
use crate::server::shows_server;
use sspi_credssp::{CredSspState, End, Outcome, Turn};
use sspi_delegate::Carried;
use sspi_tsreq::TsRequest;
use sspi_types::{Error, SecurityStatus};
use std::alloc::Global;

#[derive(Drop)]
pub(crate) struct Standing {
    /// Whose turn is next.
    pub next: End,
    /// Whether each turn went on.
    pub going: bool,
    pub client: Frame,
    pub server: Frame,
}

impl Standing {
    /// Before the first turn.
    pub fn new() -> Standing
        ensures { Stands [] result }
    {
        Standing {
            next: End::Client,
            going: true,
            client: before(false),
            server: before(true),
        }
    }
}

fn before(looks: bool) -> Frame
    ensures client { looks ≡ false → result ≡ client_before [] }
    ensures server { looks ≡ true → result ≡ server_before [] }
{
    Frame {
        state: CredSspState::NegoToken,
        looks,
        noted: None,
        version: None,
    }
}

/// A client at its next turn, which pins the version if this is its second request.
fn client_at(before: &Frame, turn: &Turn) -> Frame
    ensures { (past : List Turn) → before.now ≡ client_before past →
        result ≡ client_frame past turn.now }
{
    Frame {
        state: before.state,
        looks: before.looks,
        noted: client_note(before.looks, before.noted, turn.delivered.version),
        version: before.version,
    }
}

fn client_note(looks: bool, noted: Option<u32>, version: u32) -> Option<u32>
    ensures { result ≡ client_note looks noted version }
{
    match noted {
        Some(noted) => Some(noted),
        None if looks => Some(version),
        None => None,
    }
}

/// A server at its next turn, which pins the version if this is its first request.
fn server_at(before: &Frame, turn: &Turn) -> Frame
    ensures { (past : List Turn) → before.now ≡ server_before past →
        result ≡ server_frame past turn.now }
{
    Frame {
        state: before.state,
        looks: true,
        noted: server_note(before.noted, turn.delivered.version),
        version: before.version,
    }
}

pub(crate) fn server_note(noted: Option<u32>, version: u32) -> Option<u32>
    ensures { result ≡ server_note noted version }
{
    match noted {
        Some(noted) => Some(noted),
        None => Some(version),
    }
}

/// An end's own version after a turn with this outcome.
fn version_after(version: Option<u32>, outcome: &Outcome) -> Option<u32>
    ensures { result ≡ told_by version outcome.now }
{
    match (version, outcome) {
        (Some(own), _) => Some(own),
        (None, Outcome::Reply(reply)) => Some(reply.version),
        (None, Outcome::Final(reply)) => Some(reply.version),
        (None, _) => None,
    }
}

/// The client's state after it has made this turn in the given state.
fn client_state_after(state: CredSspState, turn: &Turn) -> CredSspState
    ensures { (past : List Turn) → state ≡ client_state past →
        result ≡ client_state (turn.now ∷ past) }
{
    match &turn.outcome {
        Outcome::Final(_) => CredSspState::Final,
        Outcome::Reply(_) if turn.acts.proved && state != CredSspState::Final => {
            CredSspState::AuthInfo
        }
        _ => state,
    }
}

fn has_ended(status: Option<SecurityStatus>) -> bool
    ensures { result ≡ is_over status }
{
    matches!(
        status,
        Some(SecurityStatus::Ok) | Some(SecurityStatus::CompleteNeeded)
    )
}

/// The server's state after it has made this turn in the given state.
fn server_state_after(state: CredSspState, turn: &Turn) -> CredSspState
    ensures { (past : List Turn) → state ≡ server_state past →
        result ≡ server_state (turn.now ∷ past) }
{
    match (state, &turn.outcome) {
        (CredSspState::Final, _) => CredSspState::Final,
        (_, Outcome::Finished) => CredSspState::Final,
        (CredSspState::AuthInfo, _) => CredSspState::AuthInfo,
        (_, Outcome::Reply(_)) if turn.acts.proved => CredSspState::AuthInfo,
        (_, Outcome::Reply(_)) if has_ended(turn.acts.status) => CredSspState::PubKeyInfo,
        (state, _) => state,
    }
}

/// The client after it has made this turn.
fn client_after(before: &Frame, turn: &Turn) -> Frame
    ensures { (past : List Turn) → before.now ≡ client_before past →
        result ≡ client_before (turn.now ∷ past) }
{
    Frame {
        state: client_state_after(before.state, turn),
        looks: true,
        noted: client_note(before.looks, before.noted, turn.delivered.version),
        version: version_after(before.version, &turn.outcome),
    }
}

/// The server after it has made this turn.
fn server_after(before: &Frame, turn: &Turn) -> Frame
    ensures { (past : List Turn) → before.now ≡ server_before past →
        result ≡ server_before (turn.now ∷ past) }
{
    Frame {
        state: server_state_after(before.state, turn),
        looks: true,
        noted: server_note(before.noted, turn.delivered.version),
        version: version_after(before.version, &turn.outcome),
    }
}

/// The exchange goes on after this outcome.
fn goes_on(outcome: &Outcome) -> bool
    ensures { IsTrue result ↔ GoesOn outcome.now }
{
    matches!(outcome, Outcome::Reply(_) | Outcome::Final(_))
}

/// A sealed blob is long enough to hold its tag.
fn has_long_blobs(turn: &Turn) -> bool
    ensures { IsTrue result ↔ HasLongBlobs turn.now turn.now.outcome }
{
    match &turn.outcome {
        Outcome::Reply(reply) => !turn.acts.proved || is_long(&reply.pub_key_auth),
        Outcome::Final(reply) => is_long(&reply.auth_info),
        _ => true,
    }
}

/// The log fits the next turn: it was given the delivery of the entry before its own, and its own
/// entry records its message.
fn is_logged(alloc: Global, place: usize, turn: &Turn, log: &[Carried]) -> Result<bool, Error>
    ensures logged { IfOk result (λ logged. (past : List Turn) → length past ≡ place →
        (IsTrue logged ↔ IsGiven past log.now turn.now.delivered ×
        IfSome (slice_get log.now place) (IsEntry turn.now))) }
    ensures only { IfErr result (λ error. error ≡ memory_error) }
{
    if is_given(alloc, place, &turn.delivered, log)? {
        is_entered(alloc, place, turn, log)
    } else {
        Ok(false)
    }
}

fn is_given(
    alloc: Global,
    place: usize,
    request: &TsRequest,
    log: &[Carried],
) -> Result<bool, Error>
    ensures given { IfOk result (λ given. (past : List Turn) → length past ≡ place → (IsTrue given ↔
        IsGiven past log.now request.now)) }
    ensures only { IfErr result (λ error. error ≡ memory_error) }
{
    match place.checked_sub(1) {
        None => Ok(request == &TsRequest::default()),
        Some(before) => match log.get(before) {
            None => Ok(true),
            Some(entry) => gives(alloc, entry, request),
        },
    }
}

fn is_entered(alloc: Global, place: usize, turn: &Turn, log: &[Carried]) -> Result<bool, Error>
    ensures entered { IfOk result (λ entered. IsTrue entered ↔
        IfSome (slice_get log.now place) (IsEntry turn.now)) }
    ensures only { IfErr result (λ error. error ≡ memory_error) }
{
    match log.get(place) {
        None => Ok(true),
        Some(entry) => is_entry(alloc, turn, entry),
    }
}

impl Standing {
    /// What is known of its end allows this to be the next turn.
    fn shows(&self, turn: &Turn) -> bool
        ensures { (past : List Turn) → Stands past self.now → (IsTrue result ↔
            ShowsTurn turn.now.end past turn.now) }
    {
        match turn.end {
            End::Client => shows_client(&client_at(&self.client, turn), turn),
            End::Server => shows_server(&server_at(&self.server, turn), turn),
        }
    }

    /// This turn may be the next one.
    pub fn judges(
        &self,
        alloc: Global,
        place: usize,
        turn: &Turn,
        log: &[Carried],
    ) -> Result<bool, Error>
        ensures judges { IfOk result (λ shown. (past : List Turn) → Stands past self.now →
            length past ≡ place →
            (IsTrue shown ↔ ShownTurn log.now past turn.now)) }
        ensures only { IfErr result (λ error. error ≡ memory_error) }
    {
        if self.allows(turn) && has_long_blobs(turn) {
            is_logged(alloc, place, turn, log)
        } else {
            Ok(false)
        }
    }

    /// Given what is known of its end before it, this turn heeds its peer.
    fn heeds(&self, turn: &Turn) -> bool
        ensures { (past : List Turn) → Stands past self.now → (IsTrue result ↔
            HeedsPeer turn.now.end past turn.now) }
    {
        match turn.end {
            End::Client => client_heeds(&self.client, turn),
            End::Server => server_heeds(&self.server, turn),
        }
    }

    /// This turn may be the next one of a run.
    pub fn judges_run(
        &self,
        alloc: Global,
        place: usize,
        turn: &Turn,
        log: &[Carried],
    ) -> Result<bool, Error>
        ensures judges { IfOk result (λ shown. (past : List Turn) → Stands past self.now →
            length past ≡ place →
            (IsTrue shown ↔ RunTurn log.now past turn.now)) }
        ensures only { IfErr result (λ error. error ≡ memory_error) }
    {
        if self.heeds(turn) {
            self.judges(alloc, place, turn, log)
        } else {
            Ok(false)
        }
    }

    /// It is this end's turn, the exchange has not ended, and the end may have made this turn.
    fn allows(&self, turn: &Turn) -> bool
        ensures { (past : List Turn) → Stands past self.now →
            (IsTrue result ↔ (turn.now.end ≡ next_end past) × AllGoOn past ×
            ShowsTurn turn.now.end past turn.now) }
    {
        self.going && turn.end == self.next && self.shows(turn)
    }

    /// Moves past this turn.
    pub fn pass(&mut self, turn: &Turn)
        ensures { (past : List Turn) → Stands past self.old → Stands (turn.now ∷ past) self.new }
    {
        self.going = self.going && goes_on(&turn.outcome);
        match turn.end {
            End::Client => {
                self.next = End::Server;
                self.client = client_after(&self.client, turn);
            }
            End::Server => {
                self.next = End::Client;
                self.server = server_after(&self.server, turn);
            }
        }
    }
}
