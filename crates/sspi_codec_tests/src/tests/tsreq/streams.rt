//! Requests from sources and to sinks that fail.

use crate::tests::checks::{given, gives, holds};
use crate::tests::tsreq::octets::{SECOND, octets};
use crate::tests::tsreq::{fails, reads};
use sspi_ber::{FaultySink, FaultySource, SliceSource, WireKind};
use sspi_tsreq::TsRequest;
use std::alloc::Global;
use std::process::Abort;

/// The header of these bytes gives `size` bytes in all, and what follows it stays in the source.
fn measures(rt: &impl Abort, alloc: Global, digits: &str, size: usize, rest: &str) {
    let bytes = octets(rt, alloc, digits);
    let mut source = SliceSource::new(&bytes);
    gives(rt, TsRequest::read_length(&mut source), &size, digits);
    holds(
        rt,
        source.rest() == octets(rt, alloc, rest).as_slice(),
        digits,
    );
}

fn measures_nothing(rt: &impl Abort, alloc: Global, digits: &str) {
    let bytes = octets(rt, alloc, digits);
    let size = TsRequest::read_length(&mut SliceSource::new(&bytes));
    fails(rt, size, WireKind::UnexpectedEof, digits);
}

/// A content of five bytes, whose length is not in its shortest form.
const LONGER: &str = "308105a003020106";

/// Any fault of a header counts as the end.
const NO_LENGTHS: &str = "
3105
30
308005
3081
308201
30830005
3083100001
308400000005";

// The header is taken, the content stays.
#[test]
fn whole_lengths(rt: HostRuntime) {
    let bytes = octets(&rt, rt.alloc(), LONGER);
    reads(&rt, rt.alloc(), &bytes, &TsRequest::default(), LONGER);
    measures(&rt, rt.alloc(), LONGER, 8, "a003020106");
    measures(&rt, rt.alloc(), "3005", 7, "");
    measures(&rt, rt.alloc(), "3082ffffa0", 65539, "a0");
    measures(&rt, rt.alloc(), "3083000005", 10, "");
    measures(&rt, rt.alloc(), "3083100000a0", 1048581, "a0");
    for digits in NO_LENGTHS.lines() {
        measures_nothing(&rt, rt.alloc(), digits);
    }
}

fn length_fails_at(rt: &impl Abort, call: u64) {
    let mut source = FaultySource::new(&[0x30, 0x81, 0x05, 0xa0], call);
    let size = TsRequest::read_length(&mut source);
    fails(rt, size, WireKind::ReadFault, "a failing source");
}

// A source that fails at each byte of the header.
#[test]
fn failing_sources(rt: HostRuntime) {
    length_fails_at(&rt, 0);
    length_fails_at(&rt, 1);
    length_fails_at(&rt, 2);
}

/// A sink that fails at this call has a prefix of the encoding.
fn sink_fails_at(rt: &impl Abort, alloc: Global, call: u64) {
    let spelling = octets(rt, alloc, SECOND);
    let request = given(rt, TsRequest::from_buffer(alloc, &spelling));
    let mut sink = FaultySink::new(alloc, call);
    let written = request.encode_ts_request(&mut sink);
    fails(rt, written, WireKind::WriteFault, "a failing sink");
    holds(rt, sink.written().len() < spelling.len(), "too much");
    holds(rt, spelling.starts_with(sink.written()), "no front");
}

#[test]
fn failing_sinks(rt: HostRuntime) {
    sink_fails_at(&rt, rt.alloc(), 0);
    sink_fails_at(&rt, rt.alloc(), 1);
    sink_fails_at(&rt, rt.alloc(), 2);
    sink_fails_at(&rt, rt.alloc(), 5);
}
