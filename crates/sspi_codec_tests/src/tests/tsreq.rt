//! Requests and credentials, decoded, encoded, refused and read in pieces.

use crate::tests::checks::{given, gives, holds};
use sspi_ber::{VecSink, WireKind};
use sspi_tsreq::{TsReader, TsRequest};
use std::alloc::Global;
use std::process::Abort;

mod creds;
mod early;
mod faults;
mod lengths;
mod octets;
mod pieces;
mod requests;
mod streams;

/// What a reader answers at the end, or the fault that it reported before.
fn finished(reader: TsReader, fed: Result<(), WireKind>) -> Result<TsRequest, WireKind> {
    fed?;
    reader.finish()
}

fn feed(reader: &mut TsReader, bytes: &[u8], size: usize) -> Result<(), WireKind> {
    let mut rest = bytes;
    for _ in 0..bytes.len() {
        if rest.is_empty() {
            break;
        }
        let (piece, behind) = rest.split_at(size.min(rest.len()));
        reader.feed(piece)?;
        rest = behind;
    }
    Ok(())
}

/// What a reader answers when it is fed the bytes, `size` at a time.
fn fed(alloc: Global, bytes: &[u8], size: usize) -> Result<TsRequest, WireKind> {
    let mut reader = TsReader::new(alloc);
    let fed = feed(&mut reader, bytes, size);
    finished(reader, fed)
}

fn feed_two(reader: &mut TsReader, front: &[u8], behind: &[u8]) -> Result<(), WireKind> {
    reader.feed(front)?;
    reader.feed(behind)
}

/// What a reader answers when it is fed the bytes in two pieces.
fn fed_cut(alloc: Global, bytes: &[u8], at: usize) -> Result<TsRequest, WireKind> {
    let (front, behind) = bytes.split_at(at.min(bytes.len()));
    let mut reader = TsReader::new(alloc);
    let fed = feed_two(&mut reader, front, behind);
    finished(reader, fed)
}

/// Longer texts come in pieces of one size, and are cut only in their header.
const LONGEST_CUT: usize = 200;

/// The smallest piece size of a text, how many sizes follow, and at how many places it is cut.
fn ways(len: usize) -> (usize, usize, usize) {
    if len > LONGEST_CUT {
        (1000, 1, 6)
    } else {
        (1, 7, len)
    }
}

/// A call has this fault. Generic: dropping a value of a type parameter is one step of a proof.
fn fails<T: Drop>(rt: &impl Abort, answer: Result<T, WireKind>, kind: WireKind, what: &str) {
    match answer {
        Ok(_) => holds(rt, false, what),
        Err(fault) => holds(rt, fault == kind, what),
    }
}

/// The bytes begin with the request, whole or in any pieces.
fn reads(rt: &impl Abort, alloc: Global, bytes: &[u8], request: &TsRequest, what: &str) {
    gives(rt, TsRequest::from_buffer(alloc, bytes), request, what);
    let (least, sizes, cuts) = ways(bytes.len());
    for size in 0..sizes {
        gives(
            rt,
            fed(alloc, bytes, least.saturating_add(size)),
            request,
            what,
        );
    }
    for at in 0..cuts {
        gives(rt, fed_cut(alloc, bytes, at), request, what);
    }
}

/// The bytes have this fault, whole or in any pieces.
fn refuses(rt: &impl Abort, alloc: Global, bytes: &[u8], kind: WireKind, what: &str) {
    fails(rt, TsRequest::from_buffer(alloc, bytes), kind, what);
    let (least, sizes, cuts) = ways(bytes.len());
    for size in 0..sizes {
        fails(
            rt,
            fed(alloc, bytes, least.saturating_add(size)),
            kind,
            what,
        );
    }
    for at in 0..cuts {
        fails(rt, fed_cut(alloc, bytes, at), kind, what);
    }
}

fn writes(rt: &impl Abort, alloc: Global, request: &TsRequest, bytes: &[u8], what: &str) {
    let mut sink = VecSink::new(alloc);
    holds(rt, request.encode_ts_request(&mut sink).is_ok(), what);
    holds(rt, sink.written() == bytes, what);
    match request.buffer_len() {
        Ok(len) => holds(rt, len as usize == bytes.len(), what),
        Err(_) => holds(rt, false, what),
    }
}

/// A SEQUENCE of this content, which has fewer than 256 bytes.
fn framed(rt: &impl Abort, alloc: Global, content: &[u8]) -> Vec<u8> {
    let mut bytes = Vec::new(alloc);
    let header = [0x30, 0x81, (content.len() % 0x100) as u8];
    given(rt, bytes.extend_from_slice(&header));
    given(rt, bytes.extend_from_slice(content));
    bytes
}
