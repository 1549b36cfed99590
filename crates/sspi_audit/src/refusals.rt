//! Whether a turn with these effects can have been refused with this kind (MS-CSSP 3.1.5).
ghost use Rattle.std.specs.Prelude.{◌≡◌, ◌⊎◌, ◌↔◌, None, false, IsTrue, nat_lt};
ghost use Rattle.sspi_credssp.specs.Acts.{no_acts};
ghost use Rattle.sspi_credssp.specs.Exchange.{BlobStops};
ghost use Rattle.sspi_credssp.specs.Noted.{differs, OrMemory};
ghost use Rattle.sspi_credssp.specs.ServerCause.{lacks_nonce};
ghost use Rattle.sspi_audit.specs.Refusals.{AreUnreadable, ClientRefuses, ClientStateRefuses};
ghost use Rattle.sspi_audit.specs.Refusals.{ClientStops, FindsOldServer, OpenedRefused};
ghost use Rattle.sspi_audit.specs.Refusals.{ProofRefusedBack, ServerRefuses, ServerStateRefuses};
ghost use Rattle.sspi_audit.specs.Refusals.{ServerStops, TokenRefused, TokenRefusedBack};

use crate::fields::{has_code, is_long};
use crate::frame::Frame;
use sspi_credssp::{Acts, CredSspState, Turn};
use sspi_tsreq::TsRequest;
use sspi_types::{Bytes, ErrorKind, SecurityStatus};

/// A version is pinned, and it is not this one.
pub(crate) fn differs(noted: Option<u32>, version: u32) -> bool
    ensures { result ≡ differs noted version }
{
    match noted {
        None => false,
        Some(noted) => noted != version,
    }
}

/// The end did nothing on its context.
pub(crate) fn are_none(acts: Acts) -> bool
    ensures { IsTrue result ↔ (acts ≡ no_acts) }
{
    acts.status.is_none()
        && !acts.negotiated
        && !acts.proved
        && !acts.checked
        && !acts.sealed
        && !acts.opened
}

/// A blob that can hold no seal is refused with one kind only, any other with any kind.
fn blob_stops(blob: &Option<Bytes>, kind: ErrorKind) -> bool
    ensures { IsTrue result ↔ BlobStops blob.now kind (λ blob. Unit {0}) }
{
    is_long(blob) || kind == ErrorKind::InvalidToken
}

fn finds_old_server(frame: &Frame, turn: &Turn, kind: ErrorKind) -> bool
    ensures { IsTrue result ↔ FindsOldServer frame.now turn.now kind }
{
    frame.looks
        && frame.noted.is_none()
        && are_none(turn.acts)
        && kind == ErrorKind::DowngradeDetected
}

fn token_refused(frame: &Frame, acts: Acts, kind: ErrorKind) -> bool
    ensures { IsTrue result ↔ OrMemory kind (TokenRefused frame.now acts acts.status kind) }
{
    match acts.status {
        _ if kind == ErrorKind::InsufficientMemory => true,
        None => acts.negotiated || !frame.looks,
        Some(SecurityStatus::Ok) => frame.looks || kind == ErrorKind::InternalError,
        Some(_) => false,
    }
}

fn client_state_refuses(frame: &Frame, turn: &Turn, kind: ErrorKind) -> bool
    ensures { IsTrue result ↔ ClientStateRefuses frame.now turn.now frame.now.state kind }
{
    match frame.state {
        CredSspState::NegoToken => token_refused(frame, turn.acts, kind),
        CredSspState::PubKeyInfo => kind == ErrorKind::OutOfSequence,
        CredSspState::AuthInfo => blob_stops(&turn.delivered.pub_key_auth, kind),
        CredSspState::Final => kind == ErrorKind::OutOfSequence,
    }
}

/// A client may have refused with this kind, and has sealed neither its proof nor its credentials.
pub(crate) fn client_refuses(frame: &Frame, turn: &Turn, kind: ErrorKind) -> bool
    ensures { IsTrue result ↔ ClientRefuses frame.now turn.now kind }
{
    !turn.acts.sealed && !turn.acts.proved && client_stops(frame, turn, kind)
}

fn client_stops(frame: &Frame, turn: &Turn, kind: ErrorKind) -> bool
    ensures { IsTrue result ↔ ClientStops frame.now turn.now kind }
{
    if has_code(&turn.delivered.error_code) {
        kind == ErrorKind::InvalidToken
    } else if differs(frame.noted, turn.delivered.version) {
        kind == ErrorKind::MessageAltered
    } else {
        finds_old_server(frame, turn, kind) || client_state_refuses(frame, turn, kind)
    }
}

fn token_refused_back(frame: &Frame, acts: Acts, kind: ErrorKind) -> bool
    ensures { IsTrue result ↔ OrMemory kind (TokenRefusedBack frame.now acts acts.status kind) }
{
    match acts.status {
        _ if kind == ErrorKind::InsufficientMemory => true,
        None => acts.negotiated || frame.noted.is_none(),
        Some(SecurityStatus::ContinueNeeded) => false,
        Some(SecurityStatus::CompleteNeeded) => true,
        Some(SecurityStatus::Ok) => true,
        Some(_) => kind == ErrorKind::InternalError,
    }
}

/// The version is 5 or later, and the nonce is missing.
fn lacks_nonce(version: u32, nonce: &Option<[u8; 32]>) -> bool
    ensures { result ≡ lacks_nonce (nat_lt version 5) nonce.now }
{
    version >= 5 && nonce.is_none()
}

fn proof_refused_back(noted: Option<u32>, request: &TsRequest, kind: ErrorKind) -> bool
    ensures { IsTrue result ↔ ProofRefusedBack noted request.now kind }
{
    match noted {
        None => false,
        Some(noted) if lacks_nonce(noted, &request.client_nonce) => kind == ErrorKind::InvalidToken,
        Some(_) => blob_stops(&request.pub_key_auth, kind),
    }
}

fn are_unreadable(kind: ErrorKind) -> bool
    ensures { IsTrue result ↔ AreUnreadable kind }
{
    kind == ErrorKind::InvalidToken
        || kind == ErrorKind::UnsupportedFunction
        || kind == ErrorKind::InvalidParameter
}

fn opened_refused(turn: &Turn, kind: ErrorKind) -> bool
    ensures { IsTrue result ↔ BlobStops turn.now.delivered.auth_info kind
        (λ blob. OpenedRefused turn.now.acts.opened kind) }
{
    if is_long(&turn.delivered.auth_info) {
        !turn.acts.opened || kind == ErrorKind::InsufficientMemory || are_unreadable(kind)
    } else {
        kind == ErrorKind::InvalidToken
    }
}

fn server_state_refuses(frame: &Frame, turn: &Turn, kind: ErrorKind) -> bool
    ensures { IsTrue result ↔ ServerStateRefuses frame.now turn.now frame.now.state kind }
{
    match frame.state {
        CredSspState::NegoToken => token_refused_back(frame, turn.acts, kind),
        CredSspState::PubKeyInfo => proof_refused_back(frame.noted, &turn.delivered, kind),
        CredSspState::AuthInfo => opened_refused(turn, kind),
        CredSspState::Final => kind == ErrorKind::UnsupportedFunction,
    }
}

/// A server may have refused with this kind, and has not sealed its proof.
pub(crate) fn server_refuses(frame: &Frame, turn: &Turn, kind: ErrorKind) -> bool
    ensures { IsTrue result ↔ ServerRefuses frame.now turn.now kind }
{
    !turn.acts.proved && server_stops(frame, turn, kind)
}

fn server_stops(frame: &Frame, turn: &Turn, kind: ErrorKind) -> bool
    ensures { IsTrue result ↔ ServerStops frame.now turn.now kind }
{
    if differs(frame.noted, turn.delivered.version) {
        kind == ErrorKind::MessageAltered
    } else {
        server_state_refuses(frame, turn, kind)
    }
}
