//! Whether a turn may have had its effects, and gone on, given its end's state and the pinned
//! version.
ghost use Rattle.std.specs.Prelude.{◌≡◌, ◌↔◌, Some, true, false, length, IsTrue, IsSome, nat_lt};
ghost use Rattle.sspi_types.specs.declared.security_status.SecurityStatus.TheVariants as statuses;
ghost use Rattle.sspi_credssp.specs.declared.state.CredSspState.TheVariants.{AuthInfo, NegoToken};
ghost use Rattle.sspi_credssp.specs.Requests.{is_code, IsLong};
ghost use Rattle.sspi_credssp.specs.Turn.{IsOver, MayCheck, HasNonce, IsOwn, ShowsClientActs};
ghost use Rattle.sspi_credssp.specs.Turn.{ShowsServerActs, AtNoted, FitsNoted};
ghost use Rattle.sspi_credssp.specs.Turn.{UnlessRefused};

use crate::fields::{has_code, is_long};
use crate::frame::Frame;
use sspi_credssp::{Acts, CredSspState, Outcome, Turn};
use sspi_types::{Bytes, SecurityStatus};

/// The end does not look at versions, or has pinned this one.
fn fits_noted(looks: bool, noted: Option<u32>, version: u32) -> bool
    ensures { IsTrue result ↔ FitsNoted looks noted version }
{
    !looks || noted == Some(version)
}

/// Unless the turn was refused, the delivered version fits the pinned one.
pub(crate) fn heeds_version(frame: &Frame, turn: &Turn) -> bool
    ensures { IsTrue result ↔ UnlessRefused turn.now.outcome (FitsNoted frame.now.looks
        frame.now.noted turn.now.delivered.version) }
{
    match turn.outcome {
        Outcome::Refused(_, _) => true,
        _ => fits_noted(frame.looks, frame.noted, turn.delivered.version),
    }
}

/// Unless the turn was refused, the peer reported no error.
pub(crate) fn heeds_code(turn: &Turn) -> bool
    ensures { IsTrue result ↔ UnlessRefused turn.now.outcome (is_code turn.now.delivered.error_code
        ≡ false) }
{
    match turn.outcome {
        Outcome::Refused(_, _) => true,
        _ => !has_code(&turn.delivered.error_code),
    }
}

/// A message has its end's own version, if that is known.
pub(crate) fn is_own(own: Option<u32>, version: u32) -> bool
    ensures { IsTrue result ↔ IsOwn own version }
{
    match own {
        None => true,
        Some(own) => version == own,
    }
}

fn is_over(status: Option<SecurityStatus>) -> bool
    ensures { IsTrue result ↔ IsOver status }
{
    matches!(
        status,
        Some(SecurityStatus::Ok) | Some(SecurityStatus::CompleteNeeded)
    )
}

fn may_check(state: CredSspState, status: Option<SecurityStatus>) -> bool
    ensures { IsTrue result ↔ MayCheck state status }
{
    match state {
        CredSspState::NegoToken => is_over(status),
        CredSspState::PubKeyInfo => true,
        CredSspState::AuthInfo => false,
        CredSspState::Final => false,
    }
}

fn has_full_length(nonce: &[u8]) -> bool
    ensures { IsTrue result ↔ (length nonce.now ≡ 32) }
{
    nonce.len() == 32
}

/// A version is pinned, and from version 5 on there is a nonce.
pub(crate) fn has_nonce(noted: Option<u32>, nonce: &Option<[u8; 32]>) -> bool
    ensures { IsTrue result ↔ AtNoted noted (λ noted. HasNonce (nat_lt noted 5) nonce.now) }
{
    match (noted, nonce) {
        (None, _) => false,
        (Some(noted), _) if noted < 5 => true,
        (Some(_), None) => false,
        (Some(_), Some(nonce)) => has_full_length(nonce),
    }
}

/// A step is taken, and answered, only while the authentication goes on.
fn steps_in_time(state: CredSspState, acts: Acts) -> bool
    ensures { IsTrue result ↔ (acts.negotiated ≡ true → state ≡ NegoToken) × (IsSome acts.status →
        acts.negotiated ≡ true) }
{
    if acts.negotiated {
        state == CredSspState::NegoToken
    } else {
        acts.status.is_none()
    }
}

/// A client makes its proof only once its authentication has ended and it has pinned a version.
fn may_prove(noted: Option<u32>, acts: Acts) -> bool
    ensures { IsTrue result ↔ (acts.proved ≡ true → (acts.status ≡ Some statuses.Ok) ×
        IsSome noted) }
{
    !acts.proved || (acts.status == Some(SecurityStatus::Ok) && noted.is_some())
}

/// The end is waiting for its peer's last blob, and this one is long enough to hold a seal.
fn has_last(state: CredSspState, blob: &Option<Bytes>) -> bool
    ensures { IsTrue result ↔ (state ≡ AuthInfo) × IsLong blob.now }
{
    state == CredSspState::AuthInfo && is_long(blob)
}

/// The `Acts` of a client's turn.
pub(crate) fn shows_client_acts(frame: &Frame, turn: &Turn) -> bool
    ensures { IsTrue result ↔ ShowsClientActs frame.now turn.now }
{
    let acts = turn.acts;
    steps_in_time(frame.state, acts)
        && may_prove(frame.noted, acts)
        && (!acts.checked || has_last(frame.state, &turn.delivered.pub_key_auth))
        && (!acts.sealed || acts.checked)
        && !acts.opened
}

/// A server checks the client's proof only once the authentication has ended.
fn may_open_proof(frame: &Frame, turn: &Turn) -> bool
    ensures { IsTrue result ↔ MayCheck frame.now.state turn.now.acts.status ×
        IsLong turn.now.delivered.pub_key_auth }
{
    may_check(frame.state, turn.acts.status) && is_long(&turn.delivered.pub_key_auth)
}

/// The `Acts` of a server's turn.
pub(crate) fn shows_server_acts(frame: &Frame, turn: &Turn) -> bool
    ensures { IsTrue result ↔ ShowsServerActs frame.now turn.now }
{
    let acts = turn.acts;
    steps_in_time(frame.state, acts)
        && (!acts.checked || may_open_proof(frame, turn))
        && (!acts.proved || (acts.checked && has_nonce(frame.noted, &turn.delivered.client_nonce)))
        && (!acts.opened || has_last(frame.state, &turn.delivered.auth_info))
        && !acts.sealed
}
