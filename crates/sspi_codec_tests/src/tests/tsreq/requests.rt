//! Requests, one per line: what is done, the fields of the request, and its bytes.
//!
//! A request is both written and read so (`both`), or only one of the two (`written`, `read`);
//! `fits` and `passes` are about how many bytes it takes, and whether they are too many. It has
//! version 6 only, except as the words `version=`, `token=`, `auth=`, `proof=`, `code=` and
//! `nonce=` say. Each request has a copy, and its code, unless it is that of success, is its error.

use crate::tests::checks::{given, gives, holds, parted};
use crate::tests::tsreq::octets::octets;
use crate::tests::tsreq::{fails, reads, writes};
use sspi_ber::{VecSink, WireKind};
use sspi_tsreq::TsRequest;
use sspi_types::{Bytes, Error, ErrorKind, NStatusCode, Reason};
use std::alloc::Global;
use std::process::Abort;

fn field(rt: &impl Abort, alloc: Global, value: &str) -> Option<Bytes> {
    Some(Bytes::from_vec(octets(rt, alloc, value)))
}

fn nonce(rt: &impl Abort, alloc: Global, value: &str) -> Option<[u8; 32]> {
    match octets(rt, alloc, value).first_chunk::<32>() {
        Some(nonce) => Some(*nonce),
        None => rt.abort(),
    }
}

fn code(rt: &impl Abort, value: &str) -> Option<NStatusCode> {
    Some(NStatusCode(given(rt, u32::from_str_radix(value, 16))))
}

fn set(rt: &impl Abort, alloc: Global, request: &mut TsRequest, name: &str, value: &str) {
    match name {
        "version" => request.version = given(rt, value.parse()),
        "token" => request.nego_tokens = field(rt, alloc, value),
        "auth" => request.auth_info = field(rt, alloc, value),
        "proof" => request.pub_key_auth = field(rt, alloc, value),
        "code" => request.error_code = code(rt, value),
        "nonce" => request.client_nonce = nonce(rt, alloc, value),
        _ => rt.abort(),
    }
}

fn request(rt: &impl Abort, alloc: Global, words: &str) -> TsRequest {
    let mut request = TsRequest::default();
    for word in words.split_whitespace() {
        let (name, value) = parted(rt, word, "=");
        set(rt, alloc, &mut request, name, value);
    }
    request
}

/// A copy is equal to the request, which is the default one only if it has no words.
fn is_copied(rt: &impl Abort, alloc: Global, request: &TsRequest, words: &str) {
    gives(rt, request.clone(alloc), request, words);
    let is_default = *request == TsRequest::default();
    holds(rt, is_default == words.is_empty(), words);
}

fn is_error(rt: &impl Abort, answer: Result<(), Error>, code: Option<NStatusCode>, line: &str) {
    let is_success = code.unwrap_or(NStatusCode::SUCCESS) == NStatusCode::SUCCESS;
    match answer {
        Ok(()) => holds(rt, is_success, line),
        Err(error) => {
            holds(rt, !is_success, line);
            holds(rt, error.error_type == ErrorKind::InvalidToken, line);
            holds(rt, error.description == Reason::ErrorStatus, line);
            holds(rt, error.nstatus == code, line);
        }
    }
}

/// The request takes `size` bytes, and is read from them.
fn fits(rt: &impl Abort, alloc: Global, request: &TsRequest, size: u32, line: &str) {
    holds(rt, request.buffer_len() == Ok(size), line);
    let mut sink = VecSink::new(alloc);
    holds(rt, request.encode_ts_request(&mut sink).is_ok(), line);
    holds(rt, sink.written().len() == size as usize, line);
    reads(rt, alloc, sink.written(), request, line);
}

/// Nothing is written.
fn passes(rt: &impl Abort, alloc: Global, request: &TsRequest, line: &str) {
    let mut sink = VecSink::new(alloc);
    let written = request.encode_ts_request(&mut sink);
    fails(rt, written, WireKind::InvalidData, line);
    holds(rt, sink.written().is_empty(), line);
    fails(rt, request.buffer_len(), WireKind::InvalidData, line);
}

/// The request is read from these bytes, and is written as the same bytes.
fn both(rt: &impl Abort, alloc: Global, request: &TsRequest, bytes: &[u8], line: &str) {
    reads(rt, alloc, bytes, request, line);
    writes(rt, alloc, request, bytes, line);
}

/// A failure reports the line.
fn goes(rt: &impl Abort, alloc: Global, verb: &str, request: &TsRequest, value: &str, line: &str) {
    match verb {
        "both" => both(rt, alloc, request, &octets(rt, alloc, value), line),
        "read" => reads(rt, alloc, &octets(rt, alloc, value), request, line),
        "written" => writes(rt, alloc, request, &octets(rt, alloc, value), line),
        "fits" => fits(rt, alloc, request, given(rt, value.parse()), line),
        "passes" => passes(rt, alloc, request, line),
        _ => rt.abort(),
    }
}

fn line(rt: &impl Abort, alloc: Global, line: &str) {
    let (verb, rest) = parted(rt, line, "|");
    let (words, value) = parted(rt, rest, "|");
    let request = request(rt, alloc, words);
    is_copied(rt, alloc, &request, words);
    is_error(rt, request.check_error(), request.error_code, line);
    goes(rt, alloc, verb, &request, value, line);
}

fn each_goes(rt: &impl Abort, alloc: Global, lines: &str) {
    for each in lines.lines() {
        line(rt, alloc, each);
    }
}

/// Two messages, one of them with ten zeros after it, an empty token, and the code of success.
const MESSAGES: &str = "\
both|auth=01000000e0bae3bac27254e8010000006e037c4c9d024e5eeba19fab603297cd95cffe8f4470796e6ccdea746a nonce=221012ad125c7a15feb64\
b1fcb94833ac56f664cf3bce7548a5d9e050a4691db|first
read|auth=01000000e0bae3bac27254e8010000006e037c4c9d024e5eeba19fab603297cd95cffe8f4470796e6ccdea746a nonce=221012ad125c7a15feb64\
b1fcb94833ac56f664cf3bce7548a5d9e050a4691db|first+00*10
both|proof=01000000d8b30c7e37512184000000006c47c8e302599219d199dfbd0ff571613adf7403effca52316233755ff9120d8 code=c00700ea nonce=\
f88dd4b7559a94e5e87f2b2f94c23858a984fc07697df85776c957a31512eb32|second
both|version=2 token=|300fa003020102a10830063004a0020400
both|code=0|300aa003020106a403020100";

/// The least and the greatest number of each length, and one between.
const VERSIONS: &str = "\
both|version=0|3005a003020100
both|version=127|3005a00302017f
both|version=128|3006a00402020080
both|version=200|3006a004020200c8
both|version=32767|3006a00402027fff
both|version=32768|3007a0050203008000
both|version=8388607|3007a00502037fffff
both|version=8388608|3008a006020400800000
both|version=4294967295|3008a0060204ffffffff";

/// Unsigned numbers that are not in their shortest encoding; of eight bytes, the low 32 bits count.
const LONGER_NUMBERS: &str = "\
read|version=200|3005a0030201c8
read||3006a00402020006
read||3007a0050203000006
read||3008a006020400000006
read||300ca00a02080000000100000006";

/// Written at 3 and 4 and from 6 on, read from 3 on.
const CODES: &str = "\
both|version=3 code=c0070308|300da003020103a4060204c0070308
both|version=4 code=c0070308|300da003020104a4060204c0070308
both|version=6 code=c0070308|300da003020106a4060204c0070308
both|version=7 code=c0070308|300da003020107a4060204c0070308
written|version=5 code=c0070308|3005a003020105
read|version=5 code=c0070308|300da003020105a4060204c0070308
written|version=2 code=c0070308|3005a003020102
read|version=2|300da003020102a4060204c0070308";

/// Written and read from 5 on.
const NONCES: &str = "\
both|version=5 nonce=07*32|3029a003020105a5220420+07*32
both|version=6 nonce=07*32|3029a003020106a5220420+07*32
both|version=7 nonce=07*32|3029a003020107a5220420+07*32
written|version=4 nonce=07*32|3005a003020104
read|version=4|3029a003020104a5220420+07*32";

/// The lengths around a field are judged by their form alone; that of the content itself counts, in
/// any form.
const NESTED_LENGTHS: &str = "\
read|token=41 auth=42 proof=43 code=5|3023a07f020106a100307f3005a081ff040141a282fffb04810142a300040143a47f020105";

#[test]
fn messages(rt: HostRuntime) {
    each_goes(&rt, rt.alloc(), MESSAGES);
    each_goes(&rt, rt.alloc(), VERSIONS);
    each_goes(&rt, rt.alloc(), LONGER_NUMBERS);
    each_goes(&rt, rt.alloc(), CODES);
    each_goes(&rt, rt.alloc(), NONCES);
    each_goes(&rt, rt.alloc(), NESTED_LENGTHS);
}

/// What is not read: a second token; a field out of its order, whole or damaged; what does not
/// begin with a field's tag; and fields that the version does not look for, a code at version 2 and
/// a nonce at version 4.
const TAILS: &str = "\
read|token=41|308117a003020106a10930073005a0030401413005a003040142
read|proof=41|30810ea003020106a303040141a2020400
read|proof=41|30810ca003020106a303040141a280
read||308107a003020106a080
read||308107a003020106a680
read||308108a00302010600a280
read|version=2|3006a003020102a4
read|version=4|3006a003020104a5";

/// The longest content has 1048576 bytes.
const LIMITS: &str = "\
fits|auth=07*65519|65536
fits|auth=07*65523|65541
fits|auth=07*1048561|1048581
passes|auth=07*1048562|";

#[test]
fn what_is_behind_a_request(rt: HostRuntime) {
    each_goes(&rt, rt.alloc(), TAILS);
}

#[test]
fn the_limit(rt: HostRuntime) {
    each_goes(&rt, rt.alloc(), LIMITS);
}
