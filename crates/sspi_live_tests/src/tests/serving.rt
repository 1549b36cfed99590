//! A server over a channel that has what a client sent.

ghost use Rattle.std.specs.Prelude.{◌<◌};

use crate::tests::pieces::Pieces;
use crate::tests::recorded::{MIXED, PLAIN, Recorded, bytes, whole};
use crate::tests::stage::{delegates, given, refuses, served, stops};
use sspi_ber::{FaultySink, FaultySource, SliceSource, VecSink, WireKind};
use sspi_credssp::End;
use sspi_delegate::DelegateError;
use sspi_types::ErrorKind;
use std::alloc::Global;
use std::process::Abort;

/// What belongs to the next protocol: a header, a length that no request has, and a byte.
const BEHIND: [&[u8]; 4] = [
    b"",
    b"\x30",
    b"\x30\x05\xa0\x03\x02\x01\x06",
    b"\x03\0\0\x13",
];

/// What was written is the first `count` messages of the server.
fn wrote(rt: &impl Abort, alloc: Global, recorded: &Recorded, written: &[u8], count: usize) {
    let wanted = given(rt, bytes(alloc, recorded.server, count, b""));
    assert!(rt; written == wanted.as_slice());
}

fn in_pieces(rt: &impl Abort, alloc: Global, most: usize, behind: &[u8]) {
    let sent = given(rt, bytes(alloc, PLAIN.client, 3, behind));
    let mut source = Pieces::new(&sent, most);
    let mut sink = VecSink::new(alloc);
    let came = served(rt, alloc, &PLAIN, &mut source, &mut sink, 9);
    delegates(rt, &came, 3);
    assert!(rt; source.source.rest() == behind);
    wrote(rt, alloc, &PLAIN, sink.written(), 2);
}

#[test]
fn pieces_and_what_is_behind(rt: HostRuntime) {
    for most in [1usize, 2, 7, 4096] {
        for behind in BEHIND {
            in_pieces(&rt, rt.alloc(), most, behind);
        }
    }
}

fn refused(rt: &impl Abort, alloc: Global, most: usize, behind: &[u8]) {
    let sent = given(rt, bytes(alloc, MIXED.client, 2, behind));
    let mut source = Pieces::new(&sent, most);
    let mut sink = VecSink::new(alloc);
    let came = served(rt, alloc, &MIXED, &mut source, &mut sink, 9);
    refuses(rt, &came, 2, ErrorKind::MessageAltered, None);
    assert!(rt; source.source.rest() == behind);
    wrote(rt, alloc, &MIXED, sink.written(), 2);
}

#[test]
fn a_refusal_is_told(rt: HostRuntime) {
    for most in [1usize, 2, 7] {
        for behind in BEHIND {
            refused(&rt, rt.alloc(), most, behind);
        }
    }
}

/// The stream ends after `len` bytes.
fn cut(rt: &impl Abort, alloc: Global, sent: &[u8], len: usize) {
    let (front, _) = sent.split_at(len.min(sent.len()));
    let mut source = SliceSource::new(front);
    let mut sink = VecSink::new(alloc);
    let came = served(rt, alloc, &PLAIN, &mut source, &mut sink, 9);
    let turns = whole(PLAIN.client, len);
    stops(
        rt,
        &came,
        turns,
        DelegateError::Read(End::Server, WireKind::UnexpectedEof),
    );
    assert!(rt; source.rest().is_empty());
    wrote(rt, alloc, &PLAIN, sink.written(), turns);
}

#[test]
fn streams_that_end(rt: HostRuntime) {
    let sent = given(&rt, bytes(rt.alloc(), PLAIN.client, 3, b""));
    assert_eq!(&rt; sent.len(), 19 + 149 + 104);
    for len in 0..sent.len() {
        cut(&rt, rt.alloc(), &sent, len);
    }
}

/// The call with this number fails. The requests take three, four and three calls, one for each
/// byte of a header and one for the rest.
fn failing_source(rt: &impl Abort, alloc: Global, sent: &[u8], call: u64)
    requires { call < 10 }
{
    let mut source = FaultySource::new(sent, call);
    let mut sink = VecSink::new(alloc);
    let came = served(rt, alloc, &PLAIN, &mut source, &mut sink, 9);
    let turns = match call {
        0..=2 => 0,
        3..=6 => 1,
        _ => 2,
    };
    stops(rt, &came, turns, DelegateError::LinkFault);
    assert_eq!(rt; source.faults, 1);
    assert_eq!(rt; source.calls, call + 1);
    wrote(rt, alloc, &PLAIN, sink.written(), turns);
}

#[test]
fn sources_that_fail(rt: HostRuntime) {
    let sent = given(&rt, bytes(rt.alloc(), PLAIN.client, 3, b""));
    for call in 0..10u64 {
        failing_source(&rt, rt.alloc(), &sent, call);
    }
}

/// The write with this number fails; each message takes one.
fn failing_sink(rt: &impl Abort, alloc: Global, recorded: &Recorded, call: u64) -> FaultySink
    requires { call < 10 }
{
    let sent = given(rt, bytes(alloc, recorded.client, 3, b""));
    let mut source = SliceSource::new(&sent);
    let mut sink = FaultySink::new(alloc, call);
    let came = served(rt, alloc, recorded, &mut source, &mut sink, 9);
    if recorded.versions.0 == 6 || call == 0 {
        stops(rt, &came, call as usize + 1, DelegateError::LinkFault);
    } else {
        refuses(rt, &came, 2, ErrorKind::MessageAltered, None);
    }
    sink
}

#[test]
fn sinks_that_fail(rt: HostRuntime) {
    for call in 0..2u64 {
        for recorded in [PLAIN, MIXED] {
            let sink = failing_sink(&rt, rt.alloc(), &recorded, call);
            assert_eq!(&rt; sink.faults, 1);
            assert_eq!(&rt; sink.calls, call + 1);
            wrote(&rt, rt.alloc(), &recorded, sink.written(), call as usize);
        }
    }
}

/// At most `limit` turns are allowed.
fn limited(rt: &impl Abort, alloc: Global, sent: &[u8], limit: u32) {
    let mut source = SliceSource::new(sent);
    let mut sink = VecSink::new(alloc);
    let came = served(rt, alloc, &PLAIN, &mut source, &mut sink, limit);
    let turns = limit as usize;
    stops(rt, &came, turns, DelegateError::TurnsSpent);
    assert_eq!(rt;
        whole(
            PLAIN.client,
            sent.len() - source.rest().len().min(sent.len())
        ),
        turns
    );
    wrote(rt, alloc, &PLAIN, sink.written(), turns);
}

#[test]
fn few_turns(rt: HostRuntime) {
    let sent = given(&rt, bytes(rt.alloc(), PLAIN.client, 3, b""));
    for limit in 0..3u32 {
        limited(&rt, rt.alloc(), &sent, limit);
    }
}

/// A whole element that is not a request: its version is missing.
#[test]
fn no_request(rt: HostRuntime) {
    let mut source = SliceSource::new(b"\x30\x02\x05\0\x30");
    let mut sink = VecSink::new(rt.alloc());
    let came = served(&rt, rt.alloc(), &PLAIN, &mut source, &mut sink, 9);
    stops(
        &rt,
        &came,
        0,
        DelegateError::Read(End::Server, WireKind::InvalidData),
    );
    assert!(&rt; source.rest() == b"\x30".as_slice());
}
