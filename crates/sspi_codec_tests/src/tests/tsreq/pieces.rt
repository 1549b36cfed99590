//! Requests read in pieces, with faults that wait for the rest.

use crate::tests::checks::gives;
use crate::tests::tsreq::{fails, fed, finished, refuses};
use sspi_ber::WireKind;
use sspi_tsreq::{TsReader, TsRequest};
use std::alloc::Global;

/// Version 6 and a field with tag `a2` and an invalid length, in a content that is whole; and in
/// one that lacks a byte.
const BAD: &[u8] = &[0x30, 0x07, 0xa0, 0x03, 0x02, 0x01, 0x06, 0xa2, 0x8a];

const CUT: &[u8] = &[0x30, 0x08, 0xa0, 0x03, 0x02, 0x01, 0x06, 0xa2, 0x8a];

/// Version 6 in a content of 65531 bytes, of which 65526 are still missing.
const LONG: &[u8] = &[0x30, 0x82, 0xff, 0xfb, 0xa0, 0x03, 0x02, 0x01, 0x06];

const ZEROS: &[u8] = &[0; 1000];

fn feed_zeros(reader: &mut TsReader, times: u32) -> Result<(), WireKind> {
    for _ in 0..times {
        reader.feed(ZEROS)?;
    }
    Ok(())
}

/// `LONG` and 65000 zeros, then the last ones.
fn feed_long(reader: &mut TsReader, last: &[u8]) -> Result<(), WireKind> {
    reader.feed(LONG)?;
    feed_zeros(reader, 65)?;
    reader.feed(last)
}

fn feed_beyond(reader: &mut TsReader) -> Result<(), WireKind> {
    feed_long(reader, &ZEROS[..526])?;
    feed_zeros(reader, 100)
}

/// The message of `LONG` with the rest of its content in zeros, 1000 at a time, and 100000 further
/// zeros after it.
fn fed_zeros(alloc: Global) -> Result<TsRequest, WireKind> {
    let mut reader = TsReader::new(alloc);
    let fed = feed_beyond(&mut reader);
    finished(reader, fed)
}

/// The same without the last zero of the content.
fn fed_too_few(alloc: Global) -> Result<TsRequest, WireKind> {
    let mut reader = TsReader::new(alloc);
    let fed = feed_long(&mut reader, &ZEROS[..525]);
    finished(reader, fed)
}

#[test]
fn a_fault_waits_for_the_content(rt: HostRuntime) {
    refuses(&rt, rt.alloc(), BAD, WireKind::InvalidData, "bad");
    refuses(&rt, rt.alloc(), CUT, WireKind::UnexpectedEof, "cut");
    let nothing = fed(rt.alloc(), &[], 1);
    fails(&rt, nothing, WireKind::UnexpectedEof, "nothing");
}

#[test]
fn what_is_behind_the_request_is_dropped(rt: HostRuntime) {
    let zeros = fed_zeros(rt.alloc());
    gives(&rt, zeros, &TsRequest::default(), "zeros");
    let too_few = fed_too_few(rt.alloc());
    fails(&rt, too_few, WireKind::UnexpectedEof, "too few zeros");
}
