//! The answers of a relay in words, as `2 ended client`, and its streams in hexadecimal digits.

use sspi_ber::{SliceSource, VecSink, WireKind};
use sspi_gate::{Close, End, GateError, GateFault, Relayed, relay};
use sspi_types::NStatusCode;
use std::alloc::Global;
use std::process::Abort;

pub(crate) type Answer = Result<Relayed, GateError>;

pub(crate) fn closed(passed: u64, how: Close) -> Answer {
    Ok(Relayed { passed, how })
}

pub(crate) fn stopped(passed: u64, why: GateFault) -> Answer {
    Err(GateError { passed, why })
}

/// A word or number could not be read, or memory ran out.
pub(crate) fn unmade(rt: &impl Abort) {
    assert!(rt; false);
}

fn end(word: &str) -> Option<End> {
    match word {
        "client" => Some(End::Client),
        "server" => Some(End::Server),
        _ => None,
    }
}

fn bad(passed: u64, end: End, kind: &str) -> Option<Answer> {
    match kind {
        "eof" => Some(stopped(passed, GateFault::Bad(end, WireKind::UnexpectedEof))),
        "data" => Some(stopped(passed, GateFault::Bad(end, WireKind::InvalidData))),
        _ => None,
    }
}

fn of_end(passed: u64, word: &str, end: End, rest: &str) -> Option<Answer> {
    match word {
        "ended" => Some(closed(passed, Close::Ended(end))),
        "version" => Some(stopped(passed, GateFault::Version(end))),
        "bad" => bad(passed, end, rest),
        _ => None,
    }
}

fn in_words(passed: u64, word: &str, rest: &str) -> Option<Answer> {
    match word {
        "spent" => Some(stopped(passed, GateFault::TurnsSpent)),
        "refused" => match u32::from_str_radix(rest, 16) {
            Ok(code) => Some(closed(passed, Close::Refused(NStatusCode(code)))),
            Err(_) => None,
        },
        _ => {
            let (name, kind) = rest.split_once(' ').unwrap_or((rest, ""));
            of_end(passed, word, end(name)?, kind)
        }
    }
}

/// `PASSED WORD ..`, as `0 bad client eof`, `2 refused c0070308`, `4 spent`.
pub(crate) fn answer(words: &str) -> Option<Answer> {
    let (passed, rest) = words.split_once(' ')?;
    let (word, rest) = rest.split_once(' ').unwrap_or((rest, ""));
    match passed.parse::<u64>() {
        Ok(passed) => in_words(passed, word, rest),
        Err(_) => None,
    }
}

/// A relay of these two streams gives this answer, writes this many bytes of each, and takes at
/// least as many. Returns the lengths of what is left of the streams, the client's first.
pub(crate) fn relays(
    rt: &impl Abort,
    alloc: Global,
    client: &[u8],
    server: &[u8],
    turns: u32,
    wanted: Answer,
    to_server: usize,
    to_client: usize,
) -> (usize, usize) {
    let mut client_in = SliceSource::new(client);
    let mut server_in = SliceSource::new(server);
    let mut server_out = VecSink::new(alloc);
    let mut client_out = VecSink::new(alloc);
    let answer = relay(
        alloc,
        &mut client_in,
        &mut server_out,
        &mut server_in,
        &mut client_out,
        turns,
    );
    assert_eq!(rt; answer, wanted);
    is_front(rt, server_out.written(), client, to_server);
    is_front(rt, client_out.written(), server, to_client);
    left_only(rt, answer, client_in.rest(), client, to_server, End::Client);
    left_only(rt, answer, server_in.rest(), server, to_client, End::Server);
    (client_in.rest().len(), server_in.rest().len())
}

fn is_front(rt: &impl Abort, front: &[u8], stream: &[u8], len: usize) {
    assert_eq!(rt; front.len(), len);
    assert!(rt; stream.starts_with(front));
}

/// No byte after the requests that were handed on is taken, except of a request at fault.
fn left_only(rt: &impl Abort, answer: Answer, rest: &[u8], stream: &[u8], taken: usize, end: End) {
    if !is_fault_of(answer, end) {
        assert_eq!(rt; rest.len(), stream.len().wrapping_sub(taken));
    }
}

fn is_fault_of(answer: Answer, end: End) -> bool {
    match answer {
        Ok(_) => false,
        Err(error) => match error.why {
            GateFault::Bad(who, _) => who == end,
            GateFault::Version(who) => who == end,
            GateFault::ReadFault(who) => who == end,
            GateFault::WriteFault(who) => who != end,
            GateFault::TurnsSpent => false,
            GateFault::InsufficientMemory => true,
        },
    }
}
