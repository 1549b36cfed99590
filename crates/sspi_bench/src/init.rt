//! The benchmark of NegTokenInit: decoding and encoding.

use crate::sums::{len_of, sum_of_text};
use crate::work::Work;
use sspi_tokens::NegTokenInit;
use sspi_types::Error;
use std::alloc::Global;

/// A number to which the list and the token add.
fn sum_of(token: &NegTokenInit) -> u64 {
    let mut sum = len_of(&token.mech_token);
    if let Some(list) = &token.mech_types {
        for oid in list.as_slice() {
            sum = sum.wrapping_add(oid.content().len() as u64);
        }
    }
    sum
}

fn decode(alloc: Global, bytes: &[u8]) -> Result<u64, Error> {
    let token = NegTokenInit::decode(alloc, bytes)?;
    Ok(sum_of(&token))
}

fn encode(alloc: Global, token: &NegTokenInit) -> Result<u64, Error> {
    let text = token.encode(alloc)?;
    Ok(sum_of_text(&text))
}

/// Does the work `times` times on the NegTokenInit that the bytes begin with.
pub(crate) fn repeat(alloc: Global, work: Work, bytes: &[u8], times: u32) -> Result<u64, Error> {
    let token = NegTokenInit::decode(alloc, bytes)?;
    repeat_with(alloc, work, bytes, &token, times)
}

/// The same with the decoded token, which is borrowed, so that leaving the loop drops nothing.
fn repeat_with(
    alloc: Global,
    work: Work,
    bytes: &[u8],
    token: &NegTokenInit,
    times: u32,
) -> Result<u64, Error> {
    let mut sum = 0u64;
    for _ in 0..times {
        let one = match work {
            Work::Decode => decode(alloc, bytes)?,
            Work::Encode => encode(alloc, token)?,
            Work::Both => encode(alloc, token)?.wrapping_add(decode(alloc, bytes)?),
        };
        sum = sum.wrapping_add(one);
    }
    Ok(sum)
}
