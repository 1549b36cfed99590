//! The lengths in all messages and tokens: each of the four forms, at each place, and at the
//! lengths where the shortest form changes.

use sspi_ber::VecSink;
use sspi_tokens::{NegTokenInit, NegTokenTarg};
use sspi_tsreq::{CredSspMode, TsRequest, read_ts_credentials_from_slice, write_ts_credentials};
use std::alloc::Global;
use std::process::Abort;

mod forms;
mod places;

/// What has lengths in it.
#[derive(Clone, Copy, Debug, PartialEq, Eq)]
enum Kind {
    Request,
    Credentials,
    Offer,
    Answer,
}

/// What is read from these bytes, written again; `None` if they are refused.
fn again(alloc: Global, kind: Kind, bytes: &[u8]) -> Option<Vec<u8>> {
    match kind {
        Kind::Request => request_again(alloc, bytes),
        Kind::Credentials => credentials_again(alloc, bytes),
        Kind::Offer => offer_again(alloc, bytes),
        Kind::Answer => answer_again(alloc, bytes),
    }
}

fn request_again(alloc: Global, bytes: &[u8]) -> Option<Vec<u8>> {
    let request = TsRequest::from_buffer(alloc, bytes).ok()?;
    let mut sink = VecSink::new(alloc);
    match request.encode_ts_request(&mut sink) {
        Ok(()) => Some(sink.into_inner()),
        Err(_) => None,
    }
}

fn credentials_again(alloc: Global, bytes: &[u8]) -> Option<Vec<u8>> {
    let credentials = read_ts_credentials_from_slice(alloc, bytes).ok()?;
    write_ts_credentials(alloc, &credentials, CredSspMode::WithCredentials).ok()
}

fn offer_again(alloc: Global, bytes: &[u8]) -> Option<Vec<u8>> {
    let token = NegTokenInit::decode(alloc, bytes).ok()?;
    token.encode(alloc).ok()
}

fn answer_again(alloc: Global, bytes: &[u8]) -> Option<Vec<u8>> {
    let token = NegTokenTarg::decode(alloc, bytes).ok()?;
    token.encode(alloc).ok()
}

/// What the test needs could not be made.
fn unmade(rt: &impl Abort) {
    assert!(rt; false, "want of memory, or a text of digits that is none");
}
