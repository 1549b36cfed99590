//! Tokens with every choice of fields.

use crate::tests::checks::{given, gives, holds};
use crate::tests::tokens::is_spelled;
use sspi_tokens::{NegResult, NegTokenTarg, Oid};
use sspi_types::Bytes;
use std::alloc::Global;
use std::process::Abort;

/// The fields of a NegTokenTarg, each as it is encoded.
const RESULT: [u8; 5] = [0xa0, 0x03, 0x0a, 0x01, 0x01];

const MECH: [u8; 14] = [
    0xa1, 0x0c, 0x06, 0x0a, 0x2b, 0x06, 0x01, 0x04, 0x01, 0x82, 0x37, 0x02, 0x02, 0x0a,
];

const RESPONSE: [u8; 6] = [0xa2, 0x04, 0x04, 0x02, 0x4e, 0x32];

const MIC: [u8; 7] = [0xa3, 0x05, 0x04, 0x03, 0x01, 0x00, 0x00];

fn result(is_set: bool) -> Option<NegResult> {
    if is_set {
        Some(NegResult::AcceptIncomplete)
    } else {
        None
    }
}

fn mech(rt: &impl Abort, alloc: Global, is_set: bool) -> Option<Oid> {
    if is_set {
        Some(given(rt, Oid::ntlm_ssp(alloc)))
    } else {
        None
    }
}

fn octets(rt: &impl Abort, alloc: Global, is_set: bool, content: &[u8]) -> Option<Bytes> {
    if is_set {
        Some(given(rt, Bytes::from_slice(alloc, content)))
    } else {
        None
    }
}

/// A token with those of the four fields whose bit is set.
fn token_of(rt: &impl Abort, alloc: Global, choice: u8) -> NegTokenTarg {
    NegTokenTarg {
        neg_result: result(choice & 1 != 0),
        supported_mech: mech(rt, alloc, choice & 2 != 0),
        response_token: octets(rt, alloc, choice & 4 != 0, b"N2"),
        mech_list_mic: octets(rt, alloc, choice & 8 != 0, &[0x01, 0x00, 0x00]),
    }
}

fn push(rt: &impl Abort, text: &mut Bytes, is_set: bool, octets: &[u8]) {
    if is_set {
        given(rt, text.push_slice(octets));
    }
}

/// The encoding of these fields, one after another.
fn fields_of(rt: &impl Abort, alloc: Global, choice: u8) -> Bytes {
    let mut content = Bytes::new(alloc);
    push(rt, &mut content, choice & 1 != 0, &RESULT);
    push(rt, &mut content, choice & 2 != 0, &MECH);
    push(rt, &mut content, choice & 4 != 0, &RESPONSE);
    push(rt, &mut content, choice & 8 != 0, &MIC);
    content
}

/// The token around these fields.
fn framed(rt: &impl Abort, alloc: Global, fields: &[u8]) -> Bytes {
    let len = (fields.len() & 0x7f) as u8;
    let header = [0xa1, (len + 2) & 0x7f, 0x30, len];
    let mut whole = given(rt, Bytes::from_slice(alloc, &header));
    push(rt, &mut whole, true, fields);
    whole
}

/// The token is encoded as these bytes, is read from them, and has a copy.
fn both(rt: &impl Abort, alloc: Global, token: &NegTokenTarg, whole: &[u8]) {
    is_spelled(rt, token.encode(alloc), whole);
    gives(
        rt,
        NegTokenTarg::decode(alloc, whole),
        token,
        "made otherwise",
    );
    gives(rt, token.clone(alloc), token, "made otherwise");
}

fn choice(rt: &impl Abort, alloc: Global, choice: u8) {
    let fields = fields_of(rt, alloc, choice);
    let whole = framed(rt, alloc, fields.as_slice());
    both(rt, alloc, &token_of(rt, alloc, choice), whole.as_slice());
}

#[test]
fn every_choice_of_fields(rt: HostRuntime) {
    for fields in 0..16u8 {
        choice(&rt, rt.alloc(), fields);
    }
}

/// The token says this result and nothing else.
fn says(rt: &impl Abort, alloc: Global, bytes: &[u8], wanted: NegResult) {
    let token = given(rt, NegTokenTarg::decode(alloc, bytes));
    holds(rt, token.neg_result == Some(wanted), "another result");
    holds(rt, token.supported_mech.is_none(), "a mechanism");
    holds(rt, token.response_token.is_none(), "a token");
    holds(rt, token.mech_list_mic.is_none(), "a MIC");
}

fn is_written_again(rt: &impl Abort, alloc: Global, bytes: &[u8]) {
    let token = given(rt, NegTokenTarg::decode(alloc, bytes));
    is_spelled(rt, token.encode(alloc), bytes);
}

// Accept-completed is 0; reject (2), request-mic (3), a content of two octets and one of none count
// as any other result.
#[test]
fn results(rt: HostRuntime) {
    let alloc = rt.alloc();
    let complete = &[0xa1, 0x07, 0x30, 0x05, 0xa0, 0x03, 0x0a, 0x01, 0x00];
    says(&rt, alloc, complete, NegResult::AcceptComplete);
    let reject = &[0xa1, 0x07, 0x30, 0x05, 0xa0, 0x03, 0x0a, 0x01, 0x02];
    says(&rt, alloc, reject, NegResult::Other);
    is_written_again(&rt, alloc, reject);
    let request_mic = &[0xa1, 0x07, 0x30, 0x05, 0xa0, 0x03, 0x0a, 0x01, 0x03];
    says(&rt, alloc, request_mic, NegResult::Other);
    let wide = &[0xa1, 0x08, 0x30, 0x06, 0xa0, 0x04, 0x0a, 0x02, 0x00, 0x00];
    says(&rt, alloc, wide, NegResult::Other);
    let empty = &[0xa1, 0x06, 0x30, 0x04, 0xa0, 0x02, 0x0a, 0x00];
    says(&rt, alloc, empty, NegResult::Other);
}
