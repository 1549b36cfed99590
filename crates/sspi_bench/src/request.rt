//! The benchmark of TSRequest: decoding, encoding and reading in pieces.

ghost use Rattle.std.specs.Prelude.{◌<◌};

use crate::sums::{given_up, len_of, sum_of_text};
use crate::work::Work;
use sspi_ber::WireKind;
use sspi_tsreq::{TsReader, TsRequest};
use std::alloc::Global;

/// A number to which each field of the request adds.
fn sum_of(request: &TsRequest) -> u64 {
    let mut sum = u64::from(request.version);
    sum = sum.wrapping_add(len_of(&request.nego_tokens));
    sum = sum.wrapping_add(len_of(&request.auth_info));
    sum = sum.wrapping_add(len_of(&request.pub_key_auth));
    if let Some(code) = request.error_code {
        sum = sum.wrapping_add(u64::from(code.0));
    }
    if let Some(nonce) = request.client_nonce {
        sum = sum.wrapping_add(u64::from(nonce[31]));
    }
    sum
}

fn decode(alloc: Global, bytes: &[u8]) -> Result<u64, WireKind> {
    let request = TsRequest::from_buffer(alloc, bytes)?;
    Ok(sum_of(&request))
}

fn encode(alloc: Global, request: &TsRequest) -> Result<u64, WireKind> {
    let text = request.encode(alloc)?;
    Ok(sum_of_text(&text))
}

/// Does the work `times` times on the TSRequest that the bytes begin with.
pub(crate) fn repeat(alloc: Global, work: Work, bytes: &[u8], times: u32) -> Result<u64, WireKind> {
    let request = TsRequest::from_buffer(alloc, bytes)?;
    repeat_with(alloc, work, bytes, &request, times)
}

/// The same with the decoded request, which is borrowed, so that leaving the loop drops nothing.
fn repeat_with(
    alloc: Global,
    work: Work,
    bytes: &[u8],
    request: &TsRequest,
    times: u32,
) -> Result<u64, WireKind> {
    let mut sum = 0u64;
    for _ in 0..times {
        let one = match work {
            Work::Decode => decode(alloc, bytes)?,
            Work::Encode => encode(alloc, request)?,
            Work::Both => encode(alloc, request)?.wrapping_add(decode(alloc, bytes)?),
        };
        sum = sum.wrapping_add(one);
    }
    Ok(sum)
}

fn feed_all(reader: &mut TsReader, bytes: &[u8], size: usize) -> Result<(), WireKind>
    requires { 0 < size }
{
    for piece in bytes.chunks(size) {
        reader.feed(piece)?;
    }
    Ok(())
}

fn feed(alloc: Global, bytes: &[u8], size: usize) -> Result<u64, WireKind>
    requires { 0 < size }
{
    let mut reader = TsReader::new(alloc);
    match feed_all(&mut reader, bytes, size) {
        Ok(()) => Ok(sum_of(&reader.finish()?)),
        Err(kind) => given_up(reader, kind),
    }
}

/// Reads `times` times, from pieces of `size` bytes, the TSRequest that the bytes begin with.
pub(crate) fn repeat_fed(
    alloc: Global,
    size: usize,
    bytes: &[u8],
    times: u32,
) -> Result<u64, WireKind>
    requires { 0 < size }
{
    let mut sum = 0u64;
    for _ in 0..times {
        sum = sum.wrapping_add(feed(alloc, bytes, size)?);
    }
    Ok(sum)
}
