//! Whether recorded bytes show a client's turn (MS-CSSP 3.1.5.1).
ghost use Rattle.std.specs.Prelude.{◌≡◌, ◌↔◌, None, Some, IsTrue};
ghost use Rattle.sspi_credssp.specs.Requests.{unless_empty};
ghost use Rattle.sspi_credssp.specs.Turn.{ShowsClient, ShowsFinal, ShowsNego, ShowsProof};
ghost use Rattle.sspi_credssp.specs.Turn.{ShowsReply, ShowsToken};

use crate::acts::{heeds_code, heeds_version, is_own, shows_client_acts};
use crate::fields::{is_octets, same_code, same_nonce, same_octets};
use crate::frame::Frame;
use sspi_credssp::{CredSspState, Outcome, Turn};
use sspi_tsreq::TsRequest;
use sspi_types::{Bytes, SecurityStatus};

/// The reply is the delivered request, except for the version and the token.
pub(crate) fn is_token_reply(reply: &TsRequest, delivered: &TsRequest, token: &Bytes) -> bool
    ensures { IsTrue result ↔ (reply.now ≡ record delivered.now {
      version = reply.now.version;
      nego_tokens = Some token.now;
    }) }
{
    is_octets(&reply.nego_tokens, token)
        && same_octets(&reply.auth_info, &delivered.auth_info)
        && same_octets(&reply.pub_key_auth, &delivered.pub_key_auth)
        && same_code(&reply.error_code, &delivered.error_code)
        && same_nonce(&reply.client_nonce, &delivered.client_nonce)
}

/// The field holds the token, or is absent if the token is empty.
fn is_unless_empty(field: &Option<Bytes>, token: &Bytes) -> bool
    ensures { IsTrue result ↔ (field.now ≡ unless_empty token.now) }
{
    if token.is_empty() {
        field.is_none()
    } else {
        is_octets(field, token)
    }
}

/// The reply is the delivered request, except for the version, the token, the nonce and the proof.
fn is_proof_reply(reply: &TsRequest, delivered: &TsRequest, token: &Bytes) -> bool
    ensures { IsTrue result ↔ (reply.now ≡ record delivered.now {
      version = reply.now.version;
      nego_tokens = unless_empty token.now;
      client_nonce = reply.now.client_nonce;
      pub_key_auth = reply.now.pub_key_auth;
    }) }
{
    is_unless_empty(&reply.nego_tokens, token)
        && same_octets(&reply.auth_info, &delivered.auth_info)
        && same_code(&reply.error_code, &delivered.error_code)
}

/// The delivered request, except for the version and the credentials, without token and proof.
fn is_final_reply(reply: &TsRequest, delivered: &TsRequest) -> bool
    ensures { IsTrue result ↔ (reply.now ≡ record delivered.now {
      version = reply.now.version;
      nego_tokens = None;
      pub_key_auth = None;
      auth_info = reply.now.auth_info;
    }) }
{
    reply.nego_tokens.is_none()
        && reply.pub_key_auth.is_none()
        && same_code(&reply.error_code, &delivered.error_code)
        && same_nonce(&reply.client_nonce, &delivered.client_nonce)
}

fn shows_token(frame: &Frame, turn: &Turn, reply: &TsRequest) -> bool
    ensures { IsTrue result ↔ ShowsToken frame.now turn.now reply.now }
{
    frame.state == CredSspState::NegoToken
        && is_own(frame.version, reply.version)
        && is_token_reply(reply, &turn.delivered, &turn.output)
}

fn shows_proof(frame: &Frame, turn: &Turn, reply: &TsRequest) -> bool
    ensures { IsTrue result ↔ ShowsProof frame.now turn.now reply.now }
{
    frame.state == CredSspState::NegoToken
        && turn.acts.proved
        && is_own(frame.version, reply.version)
        && reply.client_nonce.is_some()
        && is_proof_reply(reply, &turn.delivered, &turn.output)
}

fn shows_final(frame: &Frame, turn: &Turn, reply: &TsRequest) -> bool
    ensures { IsTrue result ↔ ShowsFinal frame.now turn.now reply.now }
{
    frame.state == CredSspState::AuthInfo
        && turn.acts.checked
        && turn.acts.sealed
        && is_own(frame.version, reply.version)
        && is_final_reply(reply, &turn.delivered)
}

fn shows_nego(frame: &Frame, turn: &Turn, reply: &TsRequest) -> bool
    ensures { IsTrue result ↔ ShowsNego frame.now turn.now turn.now.acts.status reply.now }
{
    match turn.acts.status {
        None => false,
        Some(SecurityStatus::Ok) => shows_proof(frame, turn, reply),
        Some(_) => shows_token(frame, turn, reply),
    }
}

fn shows_reply(frame: &Frame, turn: &Turn) -> bool
    ensures { IsTrue result ↔ ShowsReply frame.now turn.now turn.now.outcome }
{
    match &turn.outcome {
        Outcome::Reply(reply) => shows_nego(frame, turn, reply),
        Outcome::Final(reply) => shows_final(frame, turn, reply),
        Outcome::Finished => false,
        Outcome::Refused(_, reply) => reply.is_none(),
    }
}

/// What is known of the client allows this turn.
pub(crate) fn shows_client(frame: &Frame, turn: &Turn) -> bool
    ensures { IsTrue result ↔ ShowsClient frame.now turn.now }
{
    heeds_code(turn)
        && heeds_version(frame, turn)
        && shows_client_acts(frame, turn)
        && shows_reply(frame, turn)
}
