//! The benchmark of NegTokenResp: decoding and encoding.

use crate::sums::{len_of, sum_of_text};
use crate::work::Work;
use sspi_tokens::{NegResult, NegTokenTarg};
use sspi_types::Error;
use std::alloc::Global;

/// A number to which each field of the token adds.
fn sum_of(token: &NegTokenTarg) -> u64 {
    let mut sum = match token.neg_result {
        None => 0,
        Some(NegResult::AcceptComplete) => 1,
        Some(NegResult::AcceptIncomplete) => 2,
        Some(NegResult::Other) => 3,
    };
    if let Some(oid) = &token.supported_mech {
        sum = (oid.content().len() as u64).wrapping_add(sum);
    }
    sum = len_of(&token.response_token).wrapping_add(sum);
    len_of(&token.mech_list_mic).wrapping_add(sum)
}

fn decode(alloc: Global, bytes: &[u8]) -> Result<u64, Error> {
    let token = NegTokenTarg::decode(alloc, bytes)?;
    Ok(sum_of(&token))
}

fn encode(alloc: Global, token: &NegTokenTarg) -> Result<u64, Error> {
    let text = token.encode(alloc)?;
    Ok(sum_of_text(&text))
}

/// Does the work `times` times on the NegTokenTarg that the bytes begin with.
pub(crate) fn repeat(alloc: Global, work: Work, bytes: &[u8], times: u32) -> Result<u64, Error> {
    let token = NegTokenTarg::decode(alloc, bytes)?;
    repeat_with(alloc, work, bytes, &token, times)
}

/// The same with the decoded token, which is borrowed, so that leaving the loop drops nothing.
fn repeat_with(
    alloc: Global,
    work: Work,
    bytes: &[u8],
    token: &NegTokenTarg,
    times: u32,
) -> Result<u64, Error> {
    let mut sum = 0u64;
    for _ in 0..times {
        let one = match work {
            Work::Decode => decode(alloc, bytes)?,
            Work::Encode => encode(alloc, token)?,
            Work::Both => encode(alloc, token)?.wrapping_add(decode(alloc, bytes)?),
        };
        sum = sum.wrapping_add(one);
    }
    Ok(sum)
}
