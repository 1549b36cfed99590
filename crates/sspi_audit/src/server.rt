//! Whether recorded bytes show a server's turn (MS-CSSP 3.1.5.2).
ghost use Rattle.std.specs.Prelude.{◌≡◌, ◌↔◌, None, Some, IsTrue};
ghost use Rattle.sspi_credssp.specs.Requests.{error_request, error_code_of, stripped};
ghost use Rattle.sspi_credssp.specs.Turn.{IsVersionBack, ShowsAnswer, ShowsError, ShowsNegoBack};
ghost use Rattle.sspi_credssp.specs.Turn.{ShowsOver, ShowsProofBack, ShowsServer};
ghost use Rattle.sspi_credssp.specs.Turn.{ShowsStateBack, ShowsTokenBack};

use crate::acts::{heeds_version, is_own, shows_server_acts};
use crate::client::is_token_reply;
use crate::fields::{same_code, same_nonce, same_octets};
use crate::frame::Frame;
use sspi_credssp::{CredSspState, Outcome, Turn, construct_error};
use sspi_tsreq::TsRequest;
use sspi_types::{Error, ErrorKind, NStatusCode, Reason, SecurityStatus};

/// The reply is the delivered request, except for the version and the proof, without a token.
fn is_proof_back(reply: &TsRequest, delivered: &TsRequest) -> bool
    ensures { IsTrue result ↔ (reply.now ≡ record delivered.now {
      version = reply.now.version;
      nego_tokens = None;
      pub_key_auth = reply.now.pub_key_auth;
    }) }
{
    reply.nego_tokens.is_none()
        && same_octets(&reply.auth_info, &delivered.auth_info)
        && same_code(&reply.error_code, &delivered.error_code)
        && same_nonce(&reply.client_nonce, &delivered.client_nonce)
}

fn shows_token_back(frame: &Frame, turn: &Turn, reply: &TsRequest) -> bool
    ensures { IsTrue result ↔ ShowsTokenBack frame.now turn.now reply.now }
{
    !turn.acts.proved
        && is_own(frame.version, reply.version)
        && is_token_reply(reply, &turn.delivered, &turn.output)
}

fn shows_proof_back(frame: &Frame, turn: &Turn, reply: &TsRequest) -> bool
    ensures { IsTrue result ↔ ShowsProofBack frame.now turn.now reply.now }
{
    turn.acts.checked
        && turn.acts.proved
        && is_own(frame.version, reply.version)
        && is_proof_back(reply, &turn.delivered)
}

fn shows_over(frame: &Frame, turn: &Turn, reply: &TsRequest) -> bool
    ensures { IsTrue result ↔
        ShowsOver frame.now turn.now turn.now.delivered.pub_key_auth reply.now }
{
    match turn.delivered.pub_key_auth {
        None => shows_token_back(frame, turn, reply) && !turn.output.is_empty(),
        Some(_) => shows_proof_back(frame, turn, reply),
    }
}

fn shows_nego_back(frame: &Frame, turn: &Turn, reply: &TsRequest) -> bool
    ensures { IsTrue result ↔ ShowsNegoBack frame.now turn.now turn.now.acts.status reply.now }
{
    match turn.acts.status {
        Some(SecurityStatus::ContinueNeeded) => shows_token_back(frame, turn, reply),
        Some(SecurityStatus::CompleteNeeded) => shows_over(frame, turn, reply),
        Some(SecurityStatus::Ok) => shows_over(frame, turn, reply),
        _ => false,
    }
}

fn shows_state_back(frame: &Frame, turn: &Turn, reply: &TsRequest) -> bool
    ensures { IsTrue result ↔ ShowsStateBack frame.now turn.now frame.now.state reply.now }
{
    match frame.state {
        CredSspState::NegoToken => shows_nego_back(frame, turn, reply),
        CredSspState::PubKeyInfo => shows_proof_back(frame, turn, reply),
        CredSspState::AuthInfo => false,
        CredSspState::Final => false,
    }
}

/// If the server's own version is known, an error request has that or the delivered one.
fn is_version_back(own: Option<u32>, delivered: u32, version: u32) -> bool
    ensures { IsTrue result ↔ IsVersionBack own delivered version }
{
    match own {
        None => true,
        Some(own) => version == delivered || version == own,
    }
}

/// The code that tells a client of a refusal.
fn code_of(kind: ErrorKind) -> NStatusCode
    ensures { result ≡ error_code_of kind }
{
    construct_error(&Error::new(kind, Reason::ErrorStatus))
}

/// The delivered request, except for the version and the code, without what its state takes out.
fn is_error_request(
    state: CredSspState,
    kind: ErrorKind,
    reply: &TsRequest,
    delivered: &TsRequest,
) -> bool
    ensures { IsTrue result ↔
        (reply.now ≡ error_request state reply.now.version kind delivered.now) }
{
    reply.error_code == Some(code_of(kind))
        && same_nonce(&reply.client_nonce, &delivered.client_nonce)
        && is_stripped(state, reply, delivered)
}

fn is_stripped(state: CredSspState, reply: &TsRequest, delivered: &TsRequest) -> bool
    ensures { IsTrue result ↔ (reply.now.nego_tokens ≡ (stripped state delivered.now).nego_tokens) ×
        (reply.now.auth_info ≡ (stripped state delivered.now).auth_info) ×
        (reply.now.pub_key_auth ≡ (stripped state delivered.now).pub_key_auth) }
{
    match state {
        CredSspState::NegoToken => {
            reply.nego_tokens.is_none()
                && same_octets(&reply.auth_info, &delivered.auth_info)
                && same_octets(&reply.pub_key_auth, &delivered.pub_key_auth)
        }
        CredSspState::PubKeyInfo => {
            reply.nego_tokens.is_none()
                && same_octets(&reply.auth_info, &delivered.auth_info)
                && reply.pub_key_auth.is_none()
        }
        CredSspState::AuthInfo => {
            same_octets(&reply.nego_tokens, &delivered.nego_tokens)
                && reply.auth_info.is_none()
                && same_octets(&reply.pub_key_auth, &delivered.pub_key_auth)
        }
        CredSspState::Final => {
            same_octets(&reply.nego_tokens, &delivered.nego_tokens)
                && same_octets(&reply.auth_info, &delivered.auth_info)
                && same_octets(&reply.pub_key_auth, &delivered.pub_key_auth)
        }
    }
}

fn shows_error(frame: &Frame, turn: &Turn, kind: ErrorKind, reply: &TsRequest) -> bool
    ensures { IsTrue result ↔ ShowsError frame.now turn.now kind reply.now }
{
    is_version_back(frame.version, turn.delivered.version, reply.version)
        && is_error_request(frame.state, kind, reply, &turn.delivered)
}

fn shows_answer(frame: &Frame, turn: &Turn) -> bool
    ensures { IsTrue result ↔ ShowsAnswer frame.now turn.now turn.now.outcome }
{
    match &turn.outcome {
        Outcome::Reply(reply) => shows_state_back(frame, turn, reply),
        Outcome::Final(_) => false,
        Outcome::Finished => frame.state == CredSspState::AuthInfo && turn.acts.opened,
        Outcome::Refused(_, None) => false,
        Outcome::Refused(kind, Some(reply)) => shows_error(frame, turn, *kind, reply),
    }
}

/// What is known of the server allows this turn.
pub(crate) fn shows_server(frame: &Frame, turn: &Turn) -> bool
    ensures { IsTrue result ↔ ShowsServer frame.now turn.now }
{
    heeds_version(frame, turn) && shows_server_acts(frame, turn) && shows_answer(frame, turn)
}
