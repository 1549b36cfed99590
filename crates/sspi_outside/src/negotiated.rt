//! A SPNEGO token over a mechanism that the host keeps (RFC 4178 5).
ghost use Rattle.std.specs.Prelude.{◌≡◌, IfOk, option_copied, option_map};
ghost use Rattle.sspi_outside.specs.Negotiated.{handed_offer, handed_response, list_to_sign};
ghost use Rattle.sspi_outside.specs.Negotiated.{offered, signed};

use crate::last::text_of;
use crate::opened::{show, token_of};
use sspi_tokens::{NegTokenInit, NegTokenTarg};
use sspi_types::Bytes;
use std::alloc::{AllocError, Global};

/// The offer that a negotiation over `Outside` is given in place of the received one.
///
/// `step` is the envelope of the step that the host's context made with the offer's token; empty if
/// it made none. An offer without a token stays without one.
pub fn handed_offer(
    alloc: Global,
    token: NegTokenInit,
    step: &[u8],
) -> Result<NegTokenInit, AllocError>
    ensures { IfOk result (λ it. it ≡ handed_offer token step.now) }
{
    let mut token = token;
    if token.mech_token.is_some() {
        token.mech_token = token_of(alloc, step)?;
    }
    Ok(token)
}

/// The later token that a negotiation is given in place of the received one.
///
/// `step` is the envelope of the step with its `responseToken`; empty if the host made none.
/// `verified` is the list of mechanisms, as `encode_mech_types` encodes it, over which the host's
/// context verified its `mechListMIC`. If it is `None`, the MIC verifies over no list, whatever was
/// received: the host verified none, or found it bad.
pub fn handed_response(
    alloc: Global,
    token: NegTokenTarg,
    step: &[u8],
    verified: Option<&[u8]>,
) -> Result<NegTokenTarg, AllocError>
    ensures { IfOk result (λ it. it ≡ handed_response token step.now
        (option_copied verified.entry)) }
{
    let mut token = token;
    token.response_token = token_of(alloc, step)?;
    show(alloc, &mut token.mech_list_mic, verified)?;
    Ok(token)
}

/// The list that the host has to sign for the token that the negotiation made; `None` if the token
/// has no MIC.
pub fn list_to_sign(token: &NegTokenTarg) -> Option<&[u8]>
    ensures { option_copied result ≡ list_to_sign token.now }
{
    text_of(&token.mech_list_mic)
}

/// The token with the host's MIC in place of that list. One without a MIC stays without.
pub fn signed(token: NegTokenTarg, mic: Bytes) -> NegTokenTarg
    ensures { result ≡ signed mic token }
{
    let mut token = token;
    if token.mech_list_mic.is_some() {
        token.mech_list_mic = Some(mic);
    }
    token
}
