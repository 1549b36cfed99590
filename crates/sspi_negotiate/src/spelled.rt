//! Encodes tokens, and the mechanism list over which MICs are made.

ghost use Rattle.sspi_mech.specs.Answered.{answered};
ghost use Rattle.sspi_tokens.specs.Spelling.{spelled_init, spelled_list, spelled_targ};
ghost use Rattle.sspi_negotiate.specs.Spelled.{IsSpelled};

use sspi_mech::Refusal;
use sspi_tokens::{MechTypeList, NegTokenInit, NegTokenTarg, encode_mech_types};
use sspi_types::Bytes;
use std::alloc::Global;

pub(crate) fn spelled_init(alloc: Global, token: &NegTokenInit) -> Result<Bytes, Refusal>
    ensures text { IsSpelled (spelled_init token.now) (answered result) }
{
    let text = token.encode(alloc)?;
    Ok(Bytes::from_vec(text))
}

pub(crate) fn spelled_targ(alloc: Global, token: &NegTokenTarg) -> Result<Bytes, Refusal>
    ensures text { IsSpelled (spelled_targ token.now) (answered result) }
{
    let text = token.encode(alloc)?;
    Ok(Bytes::from_vec(text))
}

/// The text over which MICs are made.
pub(crate) fn spelled_list(alloc: Global, list: &MechTypeList) -> Result<Bytes, Refusal>
    ensures text { IsSpelled (spelled_list list.now) (answered result) }
{
    let text = encode_mech_types(alloc, list)?;
    Ok(Bytes::from_vec(text))
}
