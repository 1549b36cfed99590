//! The early user authorization result, written and read.

use sspi_ber::{FaultySink, FaultySource, SliceSource, VecSink, WireKind};
use sspi_tsreq::{EARLY_USER_AUTH_RESULT_PDU_SIZE, EarlyUserAuthResult};
use std::alloc::Global;
use std::process::Abort;

fn is_written_and_read(
    rt: &impl Abort,
    alloc: Global,
    early: EarlyUserAuthResult,
    number: u32,
    bytes: &[u8],
) {
    let mut sink = VecSink::new(alloc);
    assert!(rt; early.to_buffer(&mut sink).is_ok());
    assert!(rt; sink.written() == bytes);
    assert!(rt; early.buffer_len() == EARLY_USER_AUTH_RESULT_PDU_SIZE);
    assert!(rt; early.to_u32() == number);
    assert!(rt; EarlyUserAuthResult::from_u32(number) == Some(early));
    let read = EarlyUserAuthResult::from_buffer(&mut SliceSource::new(bytes));
    assert!(rt; read == Ok(early));
}

fn is_refused(rt: &impl Abort, bytes: &[u8], kind: WireKind) {
    let read = EarlyUserAuthResult::from_buffer(&mut SliceSource::new(bytes));
    assert!(rt; read == Err(kind));
}

#[test]
fn early_results(rt: HostRuntime) {
    is_written_and_read(
        &rt,
        rt.alloc(),
        EarlyUserAuthResult::Success,
        0,
        &[0, 0, 0, 0],
    );
    is_written_and_read(
        &rt,
        rt.alloc(),
        EarlyUserAuthResult::AccessDenied,
        5,
        &[5, 0, 0, 0],
    );
    assert!(rt; EarlyUserAuthResult::from_u32(1).is_none());
    is_refused(&rt, &[1, 0, 0, 0], WireKind::InvalidData);
    is_refused(&rt, &[5, 0, 0, 1], WireKind::InvalidData);
    is_refused(&rt, &[5, 0, 0], WireKind::UnexpectedEof);
}

#[test]
fn a_result_over_a_failing_source(rt: HostRuntime) {
    let mut source = FaultySource::new(&[5, 0, 0, 0], 0);
    let read = EarlyUserAuthResult::from_buffer(&mut source);
    assert!(rt; read == Err(WireKind::ReadFault));
    let read = EarlyUserAuthResult::from_buffer(&mut source);
    assert!(rt; read == Ok(EarlyUserAuthResult::AccessDenied));
}

#[test]
fn a_result_over_a_failing_sink(rt: HostRuntime) {
    let mut sink = FaultySink::new(rt.alloc(), 0);
    let written = EarlyUserAuthResult::AccessDenied.to_buffer(&mut sink);
    assert!(rt; written == Err(WireKind::WriteFault));
    assert!(rt; sink.written().is_empty());
    let written = EarlyUserAuthResult::AccessDenied.to_buffer(&mut sink);
    assert!(rt; written.is_ok());
    assert!(rt; sink.written() == &[5u8, 0, 0, 0][..]);
}
