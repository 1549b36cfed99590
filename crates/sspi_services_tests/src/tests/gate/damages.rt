//! Each damage of a request, and each cut, at each place of an exchange.

use crate::tests::gate::words::{Answer, closed, relays, stopped, unmade};
use sspi_ber::WireKind;
use sspi_codec_tests::damages::{CODE_AND_NONCE, OCTETS, OUTER, TOKEN, VERSION};
use sspi_gate::{Close, End, GateFault};
use std::alloc::Global;
use std::process::Abort;

/// The requests of a delegation by NTLM, the client's and the server's in turn, from the report of
/// `DOM\ann` with the password `pw`.
const EXCHANGE: &str = "\
3011a003020106a10a30083006a00404024e31
3019a003020106a1123010300ea00c040a4e320000000000000000
308192a003020106a1333031302fa02d042b4e330700444f4d5c616e6e34ddc90ba7ffb071634b466e4d8ecefc8e57189f71f0576ac2bb6e173cf15e3fa33204\
30507e00ce75d8eebf639da627511157b3e1e0e7bbbd1efcbe459a5253b2f0839a676027203f86155c53b75ceb87f89c4ca5220420000000000000000000000000\
0000000000000000000000000000000000000000
305da003020106a332043078cc8c57f30bd91a89321eab210cec4eb4f2c13c3a9badf1d36d23a85d33afc979a1ffec6a9fcc3e9b7026299ad0c77ea522042000\
00000000000000000000000000000000000000000000000000000000000000
3066a003020106a23b0439a5410dbaf6a0ebe3683e10cab62877af3027a003020101a120041e301ca008040644004f004d00a108040661006e006e00a2060404\
70007700a52204200000000000000000000000000000000000000000000000000000000000000000";

const COUNT: usize = 5;

/// What replaces a request.
#[derive(Clone, Copy)]
struct Damage<'a> {
    place: usize,
    octets: &'a [u8],
    fault: &'a str,
    /// Its header announces just the content that follows, so this end's later requests may come
    /// after it.
    is_whole: bool,
}

fn end_of(place: usize) -> End {
    if place % 2 == 0 {
        End::Client
    } else {
        End::Server
    }
}

/// What a relay answers: if nothing at all replaces the request, the stream is at its end.
fn answer(damage: Damage<'_>) -> Option<Answer> {
    let passed = damage.place as u64;
    let end = end_of(damage.place);
    match damage.fault {
        "end" if damage.octets.is_empty() => Some(closed(passed, Close::Ended(end))),
        "end" => Some(stopped(passed, GateFault::Bad(end, WireKind::UnexpectedEof))),
        "bad" => Some(stopped(passed, GateFault::Bad(end, WireKind::InvalidData))),
        _ => None,
    }
}

fn add(rt: &impl Abort, stream: &mut Vec<u8>, octets: &[u8]) {
    if stream.extend_from_slice(octets).is_err() {
        unmade(rt);
    }
}

fn add_digits(rt: &impl Abort, alloc: Global, stream: &mut Vec<u8>, digits: &str) {
    match hex::decode(alloc, digits) {
        Ok(octets) => add(rt, stream, &octets),
        Err(_) => unmade(rt),
    }
}

/// The requests of an end from this place on, up to the other.
fn requests(rt: &impl Abort, alloc: Global, end: End, from: usize, to: usize) -> Vec<u8> {
    let mut stream = Vec::new(alloc);
    for (place, digits) in EXCHANGE.lines().enumerate() {
        if end_of(place) == end && place >= from && place < to {
            add_digits(rt, alloc, &mut stream, digits);
        }
    }
    stream
}

/// What follows the damage: this end's later requests.
fn behind(rt: &impl Abort, alloc: Global, damage: Damage<'_>) -> Vec<u8> {
    if damage.is_whole {
        requests(
            rt,
            alloc,
            end_of(damage.place),
            damage.place.saturating_add(1),
            COUNT,
        )
    } else {
        Vec::new(alloc)
    }
}

fn stream(rt: &impl Abort, alloc: Global, end: End, damage: Damage<'_>) -> Vec<u8> {
    if end_of(damage.place) != end {
        return requests(rt, alloc, end, 0, COUNT);
    }
    let mut stream = requests(rt, alloc, end, 0, damage.place);
    add(rt, &mut stream, damage.octets);
    add(rt, &mut stream, &behind(rt, alloc, damage));
    stream
}

/// All before the damage is handed on unchanged, and nothing of it or of what follows; what follows
/// is not taken either.
fn stops(rt: &impl Abort, alloc: Global, damage: Damage<'_>) {
    let client = stream(rt, alloc, End::Client, damage);
    let server = stream(rt, alloc, End::Server, damage);
    let to_server = requests(rt, alloc, End::Client, 0, damage.place).len();
    let to_client = requests(rt, alloc, End::Server, 0, damage.place).len();
    match answer(damage) {
        None => unmade(rt),
        Some(wanted) => {
            let left = relays(rt, alloc, &client, &server, 9, wanted, to_server, to_client);
            let left = match end_of(damage.place) {
                End::Client => left.0,
                End::Server => left.1,
            };
            assert!(rt; left >= behind(rt, alloc, damage).len());
        }
    }
}

/// The same octets in place of each request.
fn each_stops(rt: &impl Abort, alloc: Global, fault: &str, octets: &[u8], is_whole: bool) {
    for place in 0..COUNT {
        let damage = Damage {
            place,
            octets,
            fault,
            is_whole,
        };
        stops(rt, alloc, damage);
    }
}

/// A content is put inside a SEQUENCE, which is whole.
fn case(rt: &impl Abort, alloc: Global, fault: &str, octets: &[u8], is_content: bool) {
    if is_content {
        let mut request = Vec::new(alloc);
        add(
            rt,
            &mut request,
            &[0x30, 0x81, (octets.len() % 0x100) as u8],
        );
        add(rt, &mut request, octets);
        each_stops(rt, alloc, fault, &request, true);
    } else {
        each_stops(rt, alloc, fault, octets, false);
    }
}

/// The digits are in pairs.
fn pairs(rt: &impl Abort, alloc: Global, digits: &str) -> Vec<u8> {
    let mut octets = Vec::new(alloc);
    for pair in digits.split(' ') {
        add_digits(rt, alloc, &mut octets, pair);
    }
    octets
}

/// Each line of a text that has `count` cases.
fn cases(rt: &impl Abort, alloc: Global, text: &str, count: u32, is_content: bool) {
    let mut seen = 0u32;
    for line in text.lines() {
        if let Some((fault, digits)) = line.split_once(':') {
            case(rt, alloc, fault, &pairs(rt, alloc, digits), is_content);
            seen = seen.wrapping_add(1);
        }
    }
    assert_eq!(rt; seen, count);
}

#[test]
fn damaged_headers(rt: HostRuntime) {
    cases(&rt, rt.alloc(), OUTER, 9, false);
}

#[test]
fn damaged_contents(rt: HostRuntime) {
    cases(&rt, rt.alloc(), VERSION, 21, true);
    cases(&rt, rt.alloc(), TOKEN, 20, true);
    cases(&rt, rt.alloc(), OCTETS, 16, true);
    cases(&rt, rt.alloc(), CODE_AND_NONCE, 15, true);
}

fn each_cut_stops(rt: &impl Abort, alloc: Global, place: usize, request: &[u8]) {
    for len in 0..request.len() {
        let damage = Damage {
            place,
            octets: &request[..len],
            fault: "end",
            is_whole: false,
        };
        stops(rt, alloc, damage);
    }
}

#[test]
fn cut_requests(rt: HostRuntime) {
    for place in 0..COUNT {
        let request = requests(
            &rt,
            rt.alloc(),
            end_of(place),
            place,
            place.saturating_add(1),
        );
        each_cut_stops(&rt, rt.alloc(), place, &request);
    }
}
