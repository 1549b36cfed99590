//! Types of buffers, and the search for one.

use crate::tests::checks::{answered, holds, refusal, told};
use sspi_types::{
    BufferType, ErrorKind, Reason, SecurityBuffer, SecurityBufferFlags, SecurityBufferType,
};
use std::alloc::Global;
use std::process::Abort;

#[test]
fn buffer_types_are_read(rt: HostRuntime) {
    reads(
        &rt,
        0x80000001,
        BufferType::Data,
        SecurityBufferFlags::SECBUFFER_READONLY,
    );
    reads(
        &rt,
        18,
        BufferType::ApplicationProtocol,
        SecurityBufferFlags::NONE,
    );
    is_no_type(&rt, 19);
    is_no_type(&rt, 0x20000001);
    is_no_type(&rt, 0xF0000000);
}

fn reads(rt: &impl Abort, number: u32, buffer_type: BufferType, buffer_flags: SecurityBufferFlags) {
    match SecurityBufferType::try_from(number) {
        Ok(read) => {
            assert!(rt; read.buffer_type == buffer_type && read.buffer_flags == buffer_flags);
            assert_eq!(rt; u32::from(read), number);
        }
        Err(_) => assert!(rt; false, "{number:x}"),
    }
}

fn is_no_type(rt: &impl Abort, number: u32) {
    match SecurityBufferType::try_from(number) {
        Ok(_) => assert!(rt; false, "{number:x}"),
        Err(error) => {
            holds(rt, error.error_type == ErrorKind::InternalError, "kind");
            holds(rt, error.description == Reason::Number, "reason");
        }
    }
}

fn push(
    rt: &impl Abort,
    alloc: Global,
    buffers: &mut Vec<SecurityBuffer>,
    bytes: &[u8],
    buffer_type: BufferType,
) {
    let bytes = answered(rt, Vec::from_slice(alloc, bytes), "bytes");
    let buffer = SecurityBuffer::new(bytes, buffer_type);
    answered(rt, buffers.push(buffer), "buffer");
}

/// A header, and two tokens.
fn three(rt: &impl Abort, alloc: Global) -> Vec<SecurityBuffer> {
    let mut buffers = Vec::new(alloc);
    push(rt, alloc, &mut buffers, b"header", BufferType::StreamHeader);
    push(rt, alloc, &mut buffers, b"first", BufferType::Token);
    push(rt, alloc, &mut buffers, b"second", BufferType::Token);
    buffers
}

#[test]
fn the_first_buffer_of_a_type_is_found(rt: HostRuntime) {
    let mut buffers = three(&rt, rt.alloc());
    is_missing(&rt, &buffers, BufferType::Data);
    grows(&rt, &mut buffers);
    has(&rt, &buffers, 0, b"header");
    has(&rt, &buffers, 1, b"first of two");
    has(&rt, &buffers, 2, b"second");
}

// A search that finds nothing leaves each buffer as it was.
#[test]
fn a_refused_search_changes_nothing(rt: HostRuntime) {
    let mut buffers = three(&rt, rt.alloc());
    is_refused(&rt, &mut buffers, BufferType::Data);
    has(&rt, &buffers, 0, b"header");
    has(&rt, &buffers, 1, b"first");
    has(&rt, &buffers, 2, b"second");
}

fn is_missing(rt: &impl Abort, buffers: &[SecurityBuffer], buffer_type: BufferType) {
    let error = refusal(
        rt,
        SecurityBuffer::find_buffer(buffers, buffer_type),
        "found",
    );
    holds(rt, error.error_type == ErrorKind::InvalidToken, "missing");
}

fn is_refused(rt: &impl Abort, buffers: &mut Vec<SecurityBuffer>, buffer_type: BufferType) {
    let error = refusal(
        rt,
        SecurityBuffer::find_buffer_mut(buffers, buffer_type),
        "found",
    );
    holds(rt, error.error_type == ErrorKind::InvalidToken, "refused");
    let found = SecurityBuffer::first_mut(buffers, buffer_type).is_some();
    holds(rt, !found, "first");
}

fn grows(rt: &impl Abort, buffers: &mut Vec<SecurityBuffer>) {
    let found = SecurityBuffer::find_buffer_mut(buffers, BufferType::Token);
    let token = answered(rt, found, "found");
    answered(rt, token.buffer.push_slice(b" of"), "of");
    let first = SecurityBuffer::first_mut(buffers, BufferType::Token);
    let token = told(rt, first, "first");
    answered(rt, token.buffer.push_slice(b" two"), "two");
}

fn has(rt: &impl Abort, buffers: &[SecurityBuffer], place: usize, bytes: &[u8]) {
    let buffer = told(rt, buffers.get(place), "place");
    holds(rt, buffer.buffer.as_slice() == bytes, "bytes");
}

// The first token is found, and a copy is equal.
#[test]
fn a_found_buffer_is_copied(rt: HostRuntime) {
    let buffers = three(&rt, rt.alloc());
    copies(&rt, rt.alloc(), &buffers);
}

fn copies(rt: &impl Abort, alloc: Global, buffers: &[SecurityBuffer]) {
    let found = answered(
        rt,
        SecurityBuffer::find_buffer(buffers, BufferType::Token),
        "found",
    );
    let copy = answered(rt, found.clone(alloc), "copy");
    holds(rt, copy == *found, "equal");
    holds(rt, copy.buffer.as_slice() == b"first".as_slice(), "first");
}
