//! A client over a channel that has what a server sent.

ghost use Rattle.std.specs.Prelude.{◌<◌};

use crate::tests::pieces::Pieces;
use crate::tests::recorded::{MIXED, PLAIN, bytes, whole};
use crate::tests::stage::{connected, given, refuses, sends_all, stops};
use sspi_ber::{FaultySink, FaultySource, SliceSource, VecSink, WireKind};
use sspi_credssp::End;
use sspi_delegate::DelegateError;
use sspi_types::{ErrorKind, NStatusCode};
use std::alloc::Global;
use std::process::Abort;

/// What was written is the first `count` messages of the client.
fn wrote(rt: &impl Abort, alloc: Global, messages: &[&str], written: &[u8], count: usize) {
    let wanted = given(rt, bytes(alloc, messages, count, b""));
    assert!(rt; written == wanted.as_slice());
}

fn in_pieces(rt: &impl Abort, alloc: Global, most: usize, behind: &[u8]) {
    let sent = given(rt, bytes(alloc, PLAIN.server, 2, behind));
    let mut source = Pieces::new(&sent, most);
    let mut sink = VecSink::new(alloc);
    let came = connected(rt, alloc, &PLAIN, &mut source, &mut sink, 9);
    sends_all(rt, &came);
    assert!(rt; source.source.rest() == behind);
    wrote(rt, alloc, PLAIN.client, sink.written(), 3);
}

/// A server that refuses says so after the last message: that is not read.
#[test]
fn pieces_and_what_is_behind(rt: HostRuntime) {
    for most in [1usize, 2, 7, 4096] {
        in_pieces(&rt, rt.alloc(), most, b"");
        in_pieces(&rt, rt.alloc(), most, b"\x30");
        in_pieces(
            &rt,
            rt.alloc(),
            most,
            b"\x30\x0d\xa0\x03\x02\x01\x06\xa4\x06\x02\x04\xc0\x07\x03\x08",
        );
    }
}

/// The server reports its refusal by a code, which then is the client's own error.
#[test]
fn a_refusal_is_heard(rt: HostRuntime) {
    let alloc = rt.alloc();
    let sent = given(&rt, bytes(alloc, MIXED.server, 2, b""));
    let mut source = SliceSource::new(&sent);
    let mut sink = VecSink::new(alloc);
    let came = connected(&rt, alloc, &MIXED, &mut source, &mut sink, 9);
    let status = Some(NStatusCode(0xc007030f));
    refuses(&rt, &came, 3, ErrorKind::InvalidToken, status);
    wrote(&rt, alloc, MIXED.client, sink.written(), 2);
}

/// The stream ends after `len` bytes.
fn cut(rt: &impl Abort, alloc: Global, sent: &[u8], len: usize) {
    let (front, _) = sent.split_at(len.min(sent.len()));
    let mut source = SliceSource::new(front);
    let mut sink = VecSink::new(alloc);
    let came = connected(rt, alloc, &PLAIN, &mut source, &mut sink, 9);
    let turns = whole(PLAIN.server, len).saturating_add(1);
    stops(
        rt,
        &came,
        turns,
        DelegateError::Read(End::Client, WireKind::UnexpectedEof),
    );
    wrote(rt, alloc, PLAIN.client, sink.written(), turns);
}

#[test]
fn streams_that_end(rt: HostRuntime) {
    let sent = given(&rt, bytes(rt.alloc(), PLAIN.server, 2, b""));
    assert_eq!(&rt; sent.len(), 27 + 95);
    for len in 0..sent.len() {
        cut(&rt, rt.alloc(), &sent, len);
    }
}

/// The call with this number fails; each of the two requests takes three.
fn failing_source(rt: &impl Abort, alloc: Global, sent: &[u8], call: u64)
    requires { call < 10 }
{
    let mut source = FaultySource::new(sent, call);
    let mut sink = VecSink::new(alloc);
    let came = connected(rt, alloc, &PLAIN, &mut source, &mut sink, 9);
    let turns = (call / 3) as usize + 1;
    stops(rt, &came, turns, DelegateError::LinkFault);
    assert_eq!(rt; source.faults, 1);
    wrote(rt, alloc, PLAIN.client, sink.written(), turns);
}

#[test]
fn sources_that_fail(rt: HostRuntime) {
    let sent = given(&rt, bytes(rt.alloc(), PLAIN.server, 2, b""));
    for call in 0..6u64 {
        failing_source(&rt, rt.alloc(), &sent, call);
    }
}

/// The write with this number fails; each message takes one.
fn failing_sink(rt: &impl Abort, alloc: Global, sent: &[u8], call: u64)
    requires { call < 10 }
{
    let mut source = SliceSource::new(sent);
    let mut sink = FaultySink::new(alloc, call);
    let came = connected(rt, alloc, &PLAIN, &mut source, &mut sink, 9);
    stops(rt, &came, call as usize + 1, DelegateError::LinkFault);
    assert_eq!(rt; sink.faults, 1);
    assert_eq!(rt; sink.calls, call + 1);
    wrote(rt, alloc, PLAIN.client, sink.written(), call as usize);
}

#[test]
fn sinks_that_fail(rt: HostRuntime) {
    let sent = given(&rt, bytes(rt.alloc(), PLAIN.server, 2, b""));
    for call in 0..3u64 {
        failing_sink(&rt, rt.alloc(), &sent, call);
    }
}

/// At most `limit` turns are allowed.
fn limited(rt: &impl Abort, alloc: Global, sent: &[u8], limit: u32) {
    let mut source = SliceSource::new(sent);
    let mut sink = VecSink::new(alloc);
    let came = connected(rt, alloc, &PLAIN, &mut source, &mut sink, limit);
    stops(rt, &came, limit as usize, DelegateError::TurnsSpent);
    wrote(rt, alloc, PLAIN.client, sink.written(), limit as usize);
}

#[test]
fn few_turns(rt: HostRuntime) {
    let sent = given(&rt, bytes(rt.alloc(), PLAIN.server, 2, b""));
    for limit in 0..3u32 {
        limited(&rt, rt.alloc(), &sent, limit);
    }
}
