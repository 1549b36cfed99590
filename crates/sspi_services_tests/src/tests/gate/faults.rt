//! Streams that are cut anywhere, and a source or a sink that fails at each of its calls.

ghost use Rattle.std.specs.Prelude.{◌<◌};

use crate::tests::gate::words::{closed, relays, stopped};
use sspi_ber::{FaultySink, FaultySource, SliceSource, VecSink, WireKind};
use sspi_gate::{Close, End, GateFault, relay};
use std::alloc::Global;
use std::process::Abort;

/// Three requests of seven bytes each, which take three calls of a source and one of a sink each.
const THREE: &[u8] = &[
    0x30, 0x05, 0xa0, 0x03, 0x02, 0x01, 0x06, 0x30, 0x05, 0xa0, 0x03, 0x02, 0x01, 0x06, 0x30, 0x05,
    0xa0, 0x03, 0x02, 0x01, 0x06,
];

fn front(len: usize) -> &'static [u8] {
    THREE.split_at(len.min(THREE.len())).0
}

/// The client's stream is cut: whole requests are handed on, and what is left of the next, if
/// anything, ends too early.
fn client_cut(rt: &impl Abort, alloc: Global, len: usize)
    requires { len < 21 }
{
    let whole = len / 7;
    let passed = 2 * whole as u64;
    let wanted = if len % 7 == 0 {
        closed(passed, Close::Ended(End::Client))
    } else {
        stopped(passed, GateFault::Bad(End::Client, WireKind::UnexpectedEof))
    };
    relays(
        rt,
        alloc,
        front(len),
        THREE,
        9,
        wanted,
        7 * whole,
        7 * whole,
    );
}

/// The same for the server's.
fn server_cut(rt: &impl Abort, alloc: Global, len: usize)
    requires { len < 21 }
{
    let whole = len / 7;
    let passed = 2 * whole as u64 + 1;
    let wanted = if len % 7 == 0 {
        closed(passed, Close::Ended(End::Server))
    } else {
        stopped(passed, GateFault::Bad(End::Server, WireKind::UnexpectedEof))
    };
    relays(
        rt,
        alloc,
        THREE,
        front(len),
        9,
        wanted,
        7 * whole + 7,
        7 * whole,
    );
}

#[test]
fn cut_streams(rt: HostRuntime) {
    for len in 0..21usize {
        client_cut(&rt, rt.alloc(), len);
        server_cut(&rt, rt.alloc(), len);
    }
}

fn client_read_fails(rt: &impl Abort, alloc: Global, call: u64)
    requires { call < 9 }
{
    let mut client_in = FaultySource::new(THREE, call);
    let mut server_in = SliceSource::new(THREE);
    let mut server_out = VecSink::new(alloc);
    let mut client_out = VecSink::new(alloc);
    let answer = relay(
        alloc,
        &mut client_in,
        &mut server_out,
        &mut server_in,
        &mut client_out,
        9,
    );
    let whole = call / 3;
    assert_eq!(rt;
        answer,
        stopped(2 * whole, GateFault::ReadFault(End::Client))
    );
    assert_eq!(rt; server_out.written().len() as u64, 7 * whole);
    assert_eq!(rt; client_out.written().len() as u64, 7 * whole);
}

fn server_read_fails(rt: &impl Abort, alloc: Global, call: u64)
    requires { call < 9 }
{
    let mut client_in = SliceSource::new(THREE);
    let mut server_in = FaultySource::new(THREE, call);
    let mut server_out = VecSink::new(alloc);
    let mut client_out = VecSink::new(alloc);
    let answer = relay(
        alloc,
        &mut client_in,
        &mut server_out,
        &mut server_in,
        &mut client_out,
        9,
    );
    let whole = call / 3;
    assert_eq!(rt;
        answer,
        stopped(2 * whole + 1, GateFault::ReadFault(End::Server))
    );
    assert_eq!(rt; server_out.written().len() as u64, 7 * whole + 7);
    assert_eq!(rt; client_out.written().len() as u64, 7 * whole);
}

#[test]
fn failing_sources(rt: HostRuntime) {
    for call in 0..9u64 {
        client_read_fails(&rt, rt.alloc(), call);
        server_read_fails(&rt, rt.alloc(), call);
    }
}

fn server_write_fails(rt: &impl Abort, alloc: Global, call: u64)
    requires { call < 9 }
{
    let mut client_in = SliceSource::new(THREE);
    let mut server_in = SliceSource::new(THREE);
    let mut server_out = FaultySink::new(alloc, call);
    let mut client_out = VecSink::new(alloc);
    let answer = relay(
        alloc,
        &mut client_in,
        &mut server_out,
        &mut server_in,
        &mut client_out,
        9,
    );
    assert_eq!(rt;
        answer,
        stopped(2 * call, GateFault::WriteFault(End::Server))
    );
    assert_eq!(rt; server_out.sink.written().len() as u64, 7 * call);
    assert_eq!(rt; client_out.written().len() as u64, 7 * call);
}

fn client_write_fails(rt: &impl Abort, alloc: Global, call: u64)
    requires { call < 9 }
{
    let mut client_in = SliceSource::new(THREE);
    let mut server_in = SliceSource::new(THREE);
    let mut server_out = VecSink::new(alloc);
    let mut client_out = FaultySink::new(alloc, call);
    let answer = relay(
        alloc,
        &mut client_in,
        &mut server_out,
        &mut server_in,
        &mut client_out,
        9,
    );
    assert_eq!(rt;
        answer,
        stopped(2 * call + 1, GateFault::WriteFault(End::Client))
    );
    assert_eq!(rt; server_out.written().len() as u64, 7 * call + 7);
    assert_eq!(rt; client_out.sink.written().len() as u64, 7 * call);
}

#[test]
fn failing_sinks(rt: HostRuntime) {
    for call in 0..3u64 {
        server_write_fails(&rt, rt.alloc(), call);
        client_write_fails(&rt, rt.alloc(), call);
    }
}
