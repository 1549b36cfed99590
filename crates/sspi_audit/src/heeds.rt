//! How an end heeds its peer, as far as recorded bytes show it (MS-CSSP 3.1.5).
ghost use Rattle.std.specs.Prelude.{◌≡◌, ◌↔◌, [], None, true, IsTrue, nat_lt};
ghost use Rattle.sspi_credssp.specs.Acts.{no_acts};
ghost use Rattle.sspi_credssp.specs.Noted.{differs};
ghost use Rattle.sspi_credssp.specs.Turn.{AtNoted, HasNonce};
ghost use Rattle.sspi_audit.specs.Refusals.{ClientRefuses, ServerRefuses};
ghost use Rattle.sspi_audit.specs.Run.{ClientHeeds, ErrorTells, IfRefused, ServerHeeds};
ghost use Rattle.sspi_audit.specs.Run.{TellsVersion};
ghost use Rattle.sspi_audit.specs.Frames.{server_note};

use crate::acts::has_nonce;
use crate::fields::has_code;
use crate::frame::Frame;
use crate::refusals::{are_none, client_refuses, differs, server_refuses};
use crate::standing::server_note;
use sspi_credssp::{Outcome, Turn};

/// Given a version other than the pinned one, an end does nothing.
fn heeds_version(frame: &Frame, turn: &Turn) -> bool
    ensures { IsTrue result ↔ (differs frame.now.noted turn.now.delivered.version ≡ true →
        turn.now.acts ≡ no_acts) }
{
    !differs(frame.noted, turn.delivered.version) || are_none(turn.acts)
}

/// If no step answered, there is no token.
fn has_no_stray_token(turn: &Turn) -> bool
    ensures { IsTrue result ↔ (turn.now.acts.status ≡ None → turn.now.output ≡ []) }
{
    turn.acts.status.is_some() || turn.output.is_empty()
}

fn client_refusal(frame: &Frame, turn: &Turn) -> bool
    ensures { IsTrue result ↔ IfRefused turn.now.outcome (ClientRefuses frame.now turn.now) }
{
    match &turn.outcome {
        Outcome::Refused(kind, _) => client_refuses(frame, turn, *kind),
        _ => true,
    }
}

/// Given what is known of the client before this turn, the turn heeds the server.
pub(crate) fn client_heeds(frame: &Frame, turn: &Turn) -> bool
    ensures { IsTrue result ↔ ClientHeeds frame.now turn.now }
{
    (!has_code(&turn.delivered.error_code) || are_none(turn.acts))
        && heeds_version(frame, turn)
        && has_no_stray_token(turn)
        && client_refusal(frame, turn)
}

fn server_refusal(frame: &Frame, turn: &Turn) -> bool
    ensures { IsTrue result ↔ IfRefused turn.now.outcome (ServerRefuses frame.now turn.now) }
{
    match &turn.outcome {
        Outcome::Refused(kind, _) => server_refuses(frame, turn, *kind),
        _ => true,
    }
}

/// From version 5 on, a proof is opened only with a nonce.
fn opens_with_nonce(frame: &Frame, turn: &Turn) -> bool
    ensures { IsTrue result ↔ (turn.now.acts.checked ≡ true →
        AtNoted (server_note frame.now.noted turn.now.delivered.version)
        (λ noted. HasNonce (nat_lt noted 5) turn.now.delivered.client_nonce)) }
{
    !turn.acts.checked
        || has_nonce(
            server_note(frame.noted, turn.delivered.version),
            &turn.delivered.client_nonce,
        )
}

fn tells_version(frame: &Frame, delivered: u32, version: u32) -> bool
    ensures { IsTrue result ↔ TellsVersion frame.now.version frame.now.noted delivered version }
{
    match frame.version {
        None => true,
        Some(_) if differs(frame.noted, delivered) => version == delivered,
        Some(own) => version == own,
    }
}

fn error_tells(frame: &Frame, turn: &Turn) -> bool
    ensures { IsTrue result ↔ ErrorTells frame.now turn.now.delivered turn.now.outcome }
{
    match &turn.outcome {
        Outcome::Refused(_, Some(reply)) => {
            tells_version(frame, turn.delivered.version, reply.version)
        }
        _ => true,
    }
}

/// Given what is known of the server before this turn, the turn heeds the client.
pub(crate) fn server_heeds(frame: &Frame, turn: &Turn) -> bool
    ensures { IsTrue result ↔ ServerHeeds frame.now turn.now }
{
    heeds_version(frame, turn)
        && has_no_stray_token(turn)
        && opens_with_nonce(frame, turn)
        && server_refusal(frame, turn)
        && error_tells(frame, turn)
}
