//! One line per relay: the client's stream, the server's, the turns, the answer, and how many bytes
//! of each stream are written on.

use crate::tests::gate::words::{answer, relays, unmade};
use std::alloc::Global;
use std::process::Abort;

/// `CLIENT / SERVER / TURNS / ANSWER / TO_SERVER TO_CLIENT`, the streams as digits.
fn line(rt: &impl Abort, alloc: Global, line: &str) {
    if let Some((client, rest)) = line.split_once(" / ") {
        if let Some((server, rest)) = rest.split_once(" / ") {
            if let Some((turns, rest)) = rest.split_once(" / ") {
                if let Some((words, lens)) = rest.split_once(" / ") {
                    streams(rt, alloc, client, server, turns, words, lens);
                    return;
                }
            }
        }
    }
    unmade(rt);
}

fn streams(
    rt: &impl Abort,
    alloc: Global,
    client: &str,
    server: &str,
    turns: &str,
    words: &str,
    lens: &str,
) {
    match hex::decode(alloc, client) {
        Ok(client) => decoded(rt, alloc, &client, server, turns, words, lens),
        Err(_) => unmade(rt),
    }
}

fn decoded(
    rt: &impl Abort,
    alloc: Global,
    client: &[u8],
    server: &str,
    turns: &str,
    words: &str,
    lens: &str,
) {
    match hex::decode(alloc, server) {
        Ok(server) => case(rt, alloc, client, &server, turns, words, lens),
        Err(_) => unmade(rt),
    }
}

fn number(rt: &impl Abort, digits: &str) -> u32 {
    match digits.parse::<u32>() {
        Ok(number) => number,
        Err(_) => {
            unmade(rt);
            0
        }
    }
}

fn case(
    rt: &impl Abort,
    alloc: Global,
    client: &[u8],
    server: &[u8],
    turns: &str,
    words: &str,
    lens: &str,
) {
    let turns = number(rt, turns);
    match (answer(words), lens.split_once(' ')) {
        (Some(wanted), Some((to_server, to_client))) => {
            let to_server = number(rt, to_server) as usize;
            let to_client = number(rt, to_client) as usize;
            relays(
                rt, alloc, client, server, turns, wanted, to_server, to_client,
            );
        }
        _ => unmade(rt),
    }
}

/// Each nonempty line of a text, of which there are `count`.
fn rows(rt: &impl Abort, alloc: Global, text: &str, count: u32) {
    let mut seen = 0u32;
    for row in text.lines() {
        if !row.is_empty() {
            line(rt, alloc, row);
            seen = seen.wrapping_add(1);
        }
    }
    assert_eq!(rt; seen, count);
}

/// Streams that end, turns that are spent, and an answer that refuses.
const CLOSED: &str = "
 /  / 0 / 0 spent / 0 0
3005a003020106 / 3005a003020106 / 0 / 0 spent / 0 0
 / 3005a003020106 / 1 / 0 ended client / 0 0
3005a003020106 /  / 1 / 1 ended server / 7 0
3005a003020106 / 3005a003020106 / 1 / 2 spent / 7 7
3005a003020106 / 3005a003020106 / 2 / 2 ended client / 7 7
3005a0030201063005a003020106 / 3005a003020106 / 5 / 3 ended server / 14 7
3005a0030201063005a003020106 / 3005a003020106 / 1 / 2 spent / 7 7
3005a003020106 / 3005a0030201063005a003020106 / 9 / 2 ended client / 7 7
3005a0030201063005a003020106 / 3005a0030201063005a0030201063005a003020106 / 2 / 4 spent / 14 14
3005a003020106 / 300da003020106a4060204c0070308 / 5 / 2 refused c0070308 / 7 15
3005a0030201063005a003020106 / 300da003020106a4060204c00703083005a003020106 / 1 / 2 refused c0070308 / 7 15
3005a003020106 / 300aa003020106a403020100 / 1 / 2 spent / 7 12
3005a003020106 / 300aa003020106a403020101 / 1 / 2 refused 1 / 7 12
3005a003020106 / 300da003020102a4060204c0070308 / 1 / 2 spent / 7 15
300da003020106a4060204c0070308 / 3005a003020106 / 1 / 2 spent / 15 7
";

/// Requests in longer forms than they need, with a tail, and at the edge of their fields: each is
/// written unchanged.
const SPELLED: &str = "
308105a003020106 / 3005a003020106 / 1 / 2 spent / 8 7
3005a003020106 / 30820005a003020106 / 1 / 2 spent / 7 9
3083000005a003020106 / 3005a003020106 / 1 / 2 spent / 10 7
3006a00402020006 / 3006a10030020106 / 1 / 1 bad server data / 8 0
3009a00302010631020000 / 3005a003020106 / 1 / 2 spent / 11 7
3006a08103020106 / 3005a003020106 / 1 / 2 spent / 8 7
";

/// Versions that change, on either side, and two sides of two versions.
const VERSIONS: &str = "
3005a0030201063005a003020105 / 3005a003020106 / 5 / 2 version client / 7 7
3005a003020106 / 3005a003020105 / 5 / 2 ended client / 7 7
3005a0030201063005a003020106 / 3005a0030201063005a003020105 / 5 / 3 version server / 14 7
3005a0030201053005a003020105 / 3005a0030201023005a003020102 / 5 / 4 ended client / 14 14
3005a0030201063005a0030201063005a003020105 / 3005a0030201063005a003020106 / 5 / 4 version client / 14 14
3005a0030201063005a003020106 / 3005a003020106300da003020105a4060204c0070308 / 5 / 3 version server / 14 7
";

/// Each damage of a header and of a content, at the client's first request, the server's, and the
/// client's second.
const DAMAGED: &str = "
31 /  / 1 / 0 bad client eof / 0 0
30 /  / 1 / 0 bad client eof / 0 0
3080 /  / 1 / 0 bad client eof / 0 0
308400000001 /  / 1 / 0 bad client eof / 0 0
3083100001 /  / 1 / 0 bad client eof / 0 0
30830000 /  / 1 / 0 bad client eof / 0 0
3083100000 /  / 1 / 0 bad client eof / 0 0
3003a003 /  / 1 / 0 bad client eof / 0 0
3000 /  / 1 / 0 bad client eof / 0 0
3001a1 /  / 1 / 0 bad client data / 0 0
3002a080 /  / 1 / 0 bad client data / 0 0
3005a003020206 /  / 1 / 0 bad client eof / 0 0
3005a003020506 /  / 1 / 0 bad client data / 0 0
3005a0030201063005a003020506 / 3005a003020106 / 3 / 2 bad client data / 7 7
3005a003020106ff / 3005a003020106 / 3 / 2 bad client eof / 7 7
3005a003020106 / 31 / 1 / 1 bad server eof / 7 0
3005a003020106 / 3001a1 / 1 / 1 bad server data / 7 0
3005a003020106 / 3007a003020106a280 / 1 / 1 bad server data / 7 0
3005a003020106 / 3007a003020106a202 / 1 / 1 bad server eof / 7 0
3005a003020106 / 300ba003020106a50404020000 / 1 / 1 bad server data / 7 0
";

/// The exchange of an NTLM delegation, with what came instead of its answers.
const EXCHANGES: &str = "
3011a003020106a10a30083006a00404024e31 / 300da003020106a4060204c0070308 / 5 / 2 refused c0070308 / 19 15
3011a003020106a10a30083006a00404024e313005a003020106 / 3019a003020106a1123010300ea00c040a4e320000000000000000 / 5 / 3 ended server / 26 27
3005a0030201063005a0030201063030819201 / 3019a003020106a1123010300ea00c040a4e3200000000000000003005a003020106 / 4 / 4 bad client eof / 14 34
";

#[test]
fn closed_relays(rt: HostRuntime) {
    rows(&rt, rt.alloc(), CLOSED, 16);
}

#[test]
fn spelled_otherwise(rt: HostRuntime) {
    rows(&rt, rt.alloc(), SPELLED, 6);
}

#[test]
fn versions(rt: HostRuntime) {
    rows(&rt, rt.alloc(), VERSIONS, 6);
}

#[test]
fn damaged_requests(rt: HostRuntime) {
    rows(&rt, rt.alloc(), DAMAGED, 20);
}

#[test]
fn exchanges(rt: HostRuntime) {
    rows(&rt, rt.alloc(), EXCHANGES, 3);
}
