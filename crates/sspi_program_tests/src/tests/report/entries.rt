//! Reports of logs.

use super::{given, reports, with_status};
use sspi_delegate::{Carried, DelegateError, End};
use sspi_types::{Bytes, ErrorKind};
use std::alloc::Global;
use std::process::Abort;

/// The client's first message, the server's answer, and an error request that was delivered in its
/// place.
const FIRST: &[u8] =
    b"\x30\x11\xa0\x03\x02\x01\x06\xa1\x0a\x30\x08\x30\x06\xa0\x04\x04\x02\x4e\x31";

const SECOND: &[u8] =
    b"\x30\x19\xa0\x03\x02\x01\x06\xa1\x12\x30\x10\x30\x0e\xa0\x0c\x04\x0a\x4e\x32\x00\x00\x00\x00\x00\x00\x00\x00";

const REFUSED: &[u8] = b"\x30\x0d\xa0\x03\x02\x01\x06\xa4\x06\x02\x04\xc0\x07\x03\x08";

fn entry(rt: &impl Abort, alloc: Global, from: End, sent: &[u8], delivered: &[u8]) -> Carried {
    Carried {
        from,
        sent: given(rt, Bytes::from_slice(alloc, sent)),
        delivered: given(rt, Bytes::from_slice(alloc, delivered)),
        ended: true,
    }
}

/// The report of a log with one entry, and of this refusal.
fn shows(
    rt: &impl Abort,
    alloc: Global,
    (from, sent, delivered): (End, &[u8], &[u8]),
    error: DelegateError,
    text: &str,
) {
    let log = [entry(rt, alloc, from, sent, delivered)];
    reports(rt, alloc, &log, &Err(error), text);
}

#[test]
fn an_exchange_with_an_edit(rt: HostRuntime) {
    let alloc = rt.alloc();
    let lines = "> 3011a003020106a10a30083006a00404024e31\n\
        < 3019a003020106a1123010300ea00c040a4e320000000000000000\n\
        ! 300da003020106a4060204c0070308\n\
        client InvalidToken 0xc0070308\n";
    let log = [
        entry(&rt, alloc, End::Client, FIRST, FIRST),
        entry(&rt, alloc, End::Server, SECOND, REFUSED),
    ];
    let error = with_status(ErrorKind::InvalidToken, 0xc0070308);
    reports(&rt, alloc, &log, &Err(DelegateError::Client(error)), lines);
}

const LINES: [(End, &[u8], &[u8], &str); 5] = [
    (
        End::Client,
        b"\x00\x0f\xf0\xab",
        b"\x00\x0f\xf0\xab",
        "> 000ff0ab\nlink\n",
    ),
    (End::Server, b"\xab\xcd", b"", "< abcd\nlink\n"),
    (End::Server, b"\xab\xcd", b"\xab", "< abcd\n! ab\nlink\n"),
    (End::Client, b"", b"", "> \nlink\n"),
    (End::Client, b"", b"\x09", "> \n! 09\nlink\n"),
];

#[test]
fn entries(rt: HostRuntime) {
    for (from, sent, delivered, lines) in LINES {
        let parts = (from, sent, delivered);
        shows(&rt, rt.alloc(), parts, DelegateError::LinkFault, lines);
    }
}

#[test]
fn want_of_memory_has_no_report(rt: HostRuntime) {
    let parts = (End::Client, FIRST, FIRST);
    shows(
        &rt,
        rt.alloc(),
        parts,
        DelegateError::InsufficientMemory,
        "",
    );
}
