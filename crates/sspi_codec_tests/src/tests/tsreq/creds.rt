//! Credentials, one per line: what is done, the domain, the user and the password, and the text in
//! the words of `octets`.
//!
//! Credentials are written as the text and read from it by both readers (`both`), or only read
//! (`read`); `kept` is what is written if they stay at the client.

use crate::tests::checks::{given, gives, holds, parted};
use crate::tests::tsreq::octets::octets;
use sspi_ber::{FaultySource, SliceSource};
use sspi_names::{AuthIdentityBuffers, CredentialsBuffers, KeytabIdentity, Username, Utf16Text};
use sspi_tsreq::{
    CredSspMode, read_ts_credentials, read_ts_credentials_from_slice, write_ts_credentials,
};
use sspi_types::{Bytes, Error, ErrorKind, Reason, Secret};
use std::alloc::Global;
use std::process::Abort;

/// The user `a` with the password `1`.
const SHORT: &str = "301ba003020101a11404123010a0020400a10404026100a20404023100";

fn utf16(rt: &impl Abort, alloc: Global, text: &str) -> Utf16Text {
    given(rt, Utf16Text::from_str(alloc, text))
}

fn buffers(domain: Utf16Text, user: Utf16Text, password: Utf16Text) -> CredentialsBuffers {
    CredentialsBuffers::AuthIdentity(AuthIdentityBuffers {
        user,
        domain,
        password: Secret { value: password },
    })
}

/// A call has this refusal.
fn is_refused<T: Drop>(rt: &impl Abort, answer: Result<T, Error>, refusal: Error, what: &str) {
    match answer {
        Ok(_) => holds(rt, false, what),
        Err(error) => holds(rt, error == refusal, what),
    }
}

fn reads(rt: &impl Abort, alloc: Global, text: &[u8], buffers: &CredentialsBuffers, what: &str) {
    let read = read_ts_credentials(alloc, &mut SliceSource::new(text));
    gives(rt, read, buffers, what);
    let read = read_ts_credentials_from_slice(alloc, text);
    gives(rt, read, buffers, what);
}

fn writes(
    rt: &impl Abort,
    alloc: Global,
    buffers: &CredentialsBuffers,
    mode: CredSspMode,
    text: &[u8],
    what: &str,
) {
    let written = given(rt, write_ts_credentials(alloc, buffers, mode));
    holds(rt, written.as_slice() == text, what);
}

fn goes(
    rt: &impl Abort,
    alloc: Global,
    line: &str,
    verb: &str,
    buffers: &CredentialsBuffers,
    text: &[u8],
) {
    match verb {
        "both" => {
            writes(rt, alloc, buffers, CredSspMode::WithCredentials, text, line);
            reads(rt, alloc, text, buffers, line);
        }
        "read" => reads(rt, alloc, text, buffers, line),
        "kept" => writes(rt, alloc, buffers, CredSspMode::CredentialLess, text, line),
        _ => rt.abort(),
    }
}

fn line(rt: &impl Abort, alloc: Global, line: &str) {
    let (verb, rest) = parted(rt, line, "|");
    let (domain, rest) = parted(rt, rest, "|");
    let (user, rest) = parted(rt, rest, "|");
    let (password, text) = parted(rt, rest, "|");
    let buffers = buffers(
        utf16(rt, alloc, domain),
        utf16(rt, alloc, user),
        utf16(rt, alloc, password),
    );
    goes(rt, alloc, line, verb, &buffers, &octets(rt, alloc, text));
}

/// Three texts, and empty ones, which are also what is written if credentials stay at the client.
/// Then length forms that are not the shortest, one more octet of credType, and leftovers inside
/// and after a structure.
const TEXTS: &str = "\
both||a|1|301ba003020101a11404123010a0020400a10404026100a20404023100
both|Domain|Username|Password|3043a003020101a13c043a3038a00e040c44006f006d00610069006e00a112041055007300650072006e0061006d006500a21204\
10500061007300730077006f0072006400
both||||3017a003020101a110040e300ca0020400a1020400a2020400
kept|Domain|Username|Password|3017a003020101a110040e300ca0020400a1020400a2020400
read||a|1|3082001ea00402020107a1811404123010a0020400a10404026100a2040402310005
read||a|1|301fa0050201010500a11604143012a0020400a10404026100a204040231000500";

#[test]
fn written_and_read(rt: HostRuntime) {
    for each in TEXTS.lines() {
        line(&rt, rt.alloc(), each);
    }
}

/// What follows the structure stays in the source.
fn leaves(rt: &impl Abort, alloc: Global, text: &[u8], rest: &[u8]) {
    let mut source = SliceSource::new(text);
    let read = given(rt, read_ts_credentials(alloc, &mut source));
    reads(rt, alloc, text, &read, "what was read");
    holds(rt, source.rest() == rest, "what follows");
}

fn leaves_two(rt: &impl Abort, alloc: Global) {
    let mut text = octets(rt, alloc, SHORT);
    given(rt, text.extend_from_slice(&[1, 2]));
    leaves(rt, alloc, &text, &[1, 2]);
    let buffers = buffers(
        utf16(rt, alloc, ""),
        utf16(rt, alloc, "a"),
        utf16(rt, alloc, "1"),
    );
    reads(rt, alloc, &text, &buffers, "followed by more");
}

#[test]
fn followed_by_more(rt: HostRuntime) {
    leaves_two(&rt, rt.alloc());
}

/// Both readers refuse the text as this word says: `form` for a malformed structure; `card` for the
/// credentials of a smart card; `type` for another type or none; `text` for bytes that are not
/// UTF-16.
fn refuses(rt: &impl Abort, alloc: Global, text: &[u8], word: &str) {
    let refusal = refusal_named(rt, word);
    let read = read_ts_credentials(alloc, &mut SliceSource::new(text));
    is_refused(rt, read, refusal, word);
    let read = read_ts_credentials_from_slice(alloc, text);
    is_refused(rt, read, refusal, word);
}

fn refusal_named(rt: &impl Abort, word: &str) -> Error {
    match word {
        "form" => Error::new(ErrorKind::InvalidToken, Reason::TokenForm),
        "card" => Error::new(ErrorKind::UnsupportedFunction, Reason::SmartCard),
        "type" => Error::new(ErrorKind::InvalidToken, Reason::CredType),
        "text" => Error::new(ErrorKind::InvalidParameter, Reason::Utf),
        _ => rt.abort(),
    }
}

/// Texts that are refused, each with its word. A malformed structure is reported before its type,
/// and that before its texts.
const REFUSED: &str = "\
form
form 3017a003020101a110040e300ca0020400a1020400a20204
form 3100
form 3003a00302
form 3005a003020102
card 3009a003020102a1020400
type 3009a003020103a1020400
type 3009a003020100a1020400
type 3008a0020200a1020400
form 3009a003020101a1020400
text 3018a003020101a111040f300da003040144a1020400a2020400
text 3019a003020101a1120410300ea0020400a104040200d8a2020400
form 3015a003020101a10e040c300aa0020400a104040200d8";

fn refused(rt: &impl Abort, alloc: Global, line: &str) {
    let (word, text) = match line.split_once(' ') {
        Some(parts) => parts,
        None => (line, ""),
    };
    refuses(rt, alloc, &octets(rt, alloc, text), word);
}

#[test]
fn refused_texts(rt: HostRuntime) {
    for each in REFUSED.lines() {
        refused(&rt, rt.alloc(), each);
    }
}

/// Places of the short credentials, and the bytes with which each is refused: another tag; a length
/// in no valid form, or one that exceeds the structure around it; one byte too few for what is
/// inside, where the bytes after it are not taken; and the first byte of the number, which then
/// gives another type.
const DAMAGES: &str = "\
0 31
2 a1
4 04
7 a0
9 05
11 31
13 a1
15 02
17 a2
19 05
23 a1
25 05
1 80 83 7f
3 80 83 7f 02
5 80 83 7f
8 80 83 7f 13
10 80 83 7f 11
12 80 83 7f 0f
14 80 83 7f 01
16 80 83 7f
18 80 83 7f 03
20 80 83 7f
24 80 83 7f 03
26 80 83 7f
6 00 ff";

/// The place of the number that is the type.
const TYPE: usize = 6;

/// The short credentials with another byte at one place.
fn damaged(rt: &impl Abort, alloc: Global, at: usize, byte: u8) {
    let mut text = octets(rt, alloc, SHORT);
    match text.get_mut(at) {
        Some(place) => {
            assert!(rt; *place != byte);
            *place = byte;
        }
        None => rt.abort(),
    }
    refuses(rt, alloc, &text, if at == TYPE { "type" } else { "form" });
}

fn damaged_place(rt: &impl Abort, alloc: Global, line: &str) {
    let (at, bytes) = parted(rt, line, " ");
    let at: usize = given(rt, at.parse());
    for byte in bytes.split(' ') {
        damaged(rt, alloc, at, given(rt, u8::from_str_radix(byte, 16)));
    }
}

#[test]
fn damaged_texts(rt: HostRuntime) {
    for each in DAMAGES.lines() {
        damaged_place(&rt, rt.alloc(), each);
    }
}

fn each_cut_is_refused(rt: &impl Abort, alloc: Global) {
    let text = octets(rt, alloc, SHORT);
    for len in 0..text.len() {
        refuses(rt, alloc, &text[..len], "form");
    }
}

// A prefix is never read.
#[test]
fn cut_texts(rt: HostRuntime) {
    each_cut_is_refused(&rt, rt.alloc());
}

fn keytab(rt: &impl Abort, alloc: Global) -> CredentialsBuffers {
    CredentialsBuffers::Keytab(KeytabIdentity {
        username: given(rt, Username::parse(alloc, "ann")),
        keytab: Bytes::from_vec(octets(rt, alloc, "0502")),
    })
}

fn no_text(rt: &impl Abort, alloc: Global, credentials: &CredentialsBuffers, mode: CredSspMode) {
    let written = write_ts_credentials(alloc, credentials, mode);
    let refusal = Error::new(ErrorKind::UnsupportedPreAuth, Reason::Keytab);
    is_refused(rt, written, refusal, "key table");
}

#[test]
fn a_key_table_has_no_text(rt: HostRuntime) {
    let keytab = keytab(&rt, rt.alloc());
    no_text(&rt, rt.alloc(), &keytab, CredSspMode::WithCredentials);
    no_text(&rt, rt.alloc(), &keytab, CredSspMode::CredentialLess);
}

fn length_of(answer: Result<Vec<u8>, Error>) -> Result<usize, Error> {
    match answer {
        Ok(text) => Ok(text.len()),
        Err(error) => Err(error),
    }
}

/// Credentials with these password bytes have a text of this length, or are too long.
fn has_length(rt: &impl Abort, alloc: Global, bytes: &str, length: Result<usize, Error>) {
    let password = given(
        rt,
        Utf16Text::from_bytes_le(alloc, &octets(rt, alloc, bytes)),
    );
    let buffers = buffers(utf16(rt, alloc, ""), utf16(rt, alloc, ""), password);
    let text = write_ts_credentials(alloc, &buffers, CredSspMode::WithCredentials);
    holds(rt, length_of(text) == length, bytes);
}

// A password of 524269 code units has 1048538 bytes; with what is around it, the content has 38
// more.
#[test]
fn the_limit(rt: HostRuntime) {
    has_length(&rt, rt.alloc(), "6161*524269", Ok(1048581));
    has_length(
        &rt,
        rt.alloc(),
        "6161*524270",
        Err(Error::new(ErrorKind::InternalError, Reason::TooLong)),
    );
}

fn fails_at(rt: &impl Abort, alloc: Global, call: u64) {
    let text = octets(rt, alloc, SHORT);
    let read = read_ts_credentials(alloc, &mut FaultySource::new(&text, call));
    let refusal = Error::new(ErrorKind::InternalError, Reason::Io);
    is_refused(rt, read, refusal, "fault");
}

// A source that fails in the header, or in the content.
#[test]
fn failing_sources(rt: HostRuntime) {
    fails_at(&rt, rt.alloc(), 0);
    fails_at(&rt, rt.alloc(), 1);
    fails_at(&rt, rt.alloc(), 2);
}
