//! What a desk of at most three sessions answers, call by call.

use crate::tests::desk::messages::octets;
use crate::tests::desk::stage::{NtlmDesk, Test, given, is_answer, lend, server, was_there};
use sspi_desk::{Desk, Turned, Why};

/// Numbers are given out in order and never again, and a full desk hands a server back.
const ADMITTED: &str = "\
kept 0
admitted 0
admit 0
admit 1
admit 2
admit full
kept 3
admitted 3
serve 7 A none
serve 3 A none
close 3 none
close 1 server
close 1 none
kept 2
admitted 3
serve 1 A none
admit 3
admit full
kept 3
admitted 4
serve 1 A none
serve 3 A says B
close 0 server
close 2 server
close 3 server
kept 0
admit 4
serve 4 A says B
admitted 5";

/// What a session is sent changes no other session.
const SERVED: &str = "\
admit 0
admit 1
admit 2
serve 0 A says B
serve 1 A says B
serve 0 C says D
serve 1 A InvalidToken R
serve 2  eof
serve 2 3105 eof
serve 2 3007a003020106a28a data
serve 2 A says B
serve 0 E finished
serve 2 C says D
serve 0 3105 eof
kept 3
close 0 server
serve 2 E finished
serve 1 3003a10100 data
kept 2";

/// A content of 1048576 bytes is the longest. The server's token has eight bytes more than the
/// client's, and the code of a refusal has eight with its tag. A header with a longer content is at
/// fault.
const LONG: &str = "\
admit 0
admit 1
admit 2
serve 0 a003020106a10a30083006a00404024e31+1048541 length 1048581
serve 1 a003020106a10a30083006a00404024e31+1048542 long
serve 1 C says D
serve 2 a003020106+1048554 InvalidToken
serve 2 a003020106+1048561 InvalidToken
serve 2 a003020106+1048562 eof
kept 3";

fn admit(rt: &impl Test, desk: &mut NtlmDesk, wanted: &str) {
    if desk.admitted() == u64::MAX {
        rt.abort()
    }
    assert_eq!(rt; desk.is_full(), wanted == "full");
    match desk.admit(server(rt, true)) {
        Ok(number) => assert_eq!(rt; wanted.parse::<u64>(), Ok(number)),
        Err(Turned { server, why }) => {
            assert!(rt; was_there(Some(server)));
            assert_eq!(rt; wanted, "full");
            assert_eq!(rt; why, Why::Full);
        }
    }
}

fn close(rt: &impl Test, desk: &mut NtlmDesk, session: u64, wanted: &str) {
    let found = if was_there(desk.close(session)) {
        "server"
    } else {
        "none"
    };
    assert_eq!(rt; wanted, found);
}

fn serve(rt: &impl Test, desk: &mut NtlmDesk, session: u64, words: &str) {
    let (message, wanted) = words.split_once(' ').unwrap_or(("", words));
    let answer = desk.serve(session, &octets(rt, message));
    assert!(rt; is_answer(rt, &answer, wanted));
}

fn with_session(rt: &impl Test, desk: &mut NtlmDesk, verb: &str, words: &str) {
    let (session, rest) = words.split_once(' ').unwrap_or((words, ""));
    let session = given(rt, session.parse());
    match verb {
        "close" => close(rt, desk, session, rest),
        "serve" => serve(rt, desk, session, rest),
        _ => rt.abort(),
    }
}

fn step(rt: &impl Test, desk: &mut NtlmDesk, line: &str) {
    let (verb, words) = line.split_once(' ').unwrap_or((line, ""));
    match verb {
        "admit" => admit(rt, desk, words),
        "kept" => assert_eq!(rt; words.parse(), Ok(desk.kept())),
        "admitted" => assert_eq!(rt; words.parse(), Ok(desk.admitted())),
        _ => with_session(rt, desk, verb, words),
    }
}

fn steps(rt: &impl Test, desk: &mut NtlmDesk, lines: &str) {
    for line in lines.lines() {
        step(rt, desk, line);
    }
}

fn on_a_desk(rt: &impl Test, lines: &str) {
    lend(Desk::new(rt.alloc(), 3), |desk| steps(rt, desk, lines));
}

#[test]
fn admitted(rt: HostRuntime) {
    on_a_desk(&rt, ADMITTED);
}

#[test]
fn served(rt: HostRuntime) {
    on_a_desk(&rt, SERVED);
}

#[test]
fn long(rt: HostRuntime) {
    on_a_desk(&rt, LONG);
}
