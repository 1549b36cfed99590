//! Every length of a message, at the ends of each form.

use crate::tests::tsreq::lengths::{Kind, again, unmade};
use std::alloc::{AllocError, Global};
use std::process::Abort;

/// The tags around some octets, from the innermost outwards, each with the bytes before what is
/// inside: the token of a request, and its credentials; the password of TSCredentials; the token in
/// a NegTokenInit, and in a NegTokenTarg.
const TOKEN: &str = "04\na0\n30\n30\na1\n30 a003020106";

const CREDENTIALS: &str = "04\na2\n30 a003020106";

const PASSWORD: &str = "04\na2\n30 a0020400a1020400\n04\na1\n30 a003020101";

const OFFER: &str = "04\na2\n30\na0\n60 06062b0601050502";

const ANSWER: &str = "04\na2\n30\na1";

/// Where the shortest form changes, and at the limit: a length, and how many octets follow the
/// first in a form that holds it.
const LENGTHS: &str = "\
127 0
127 1
127 2
127 3
128 1
128 2
128 3
255 1
255 2
255 3
256 2
256 3
65535 2
65535 3
65536 3
1048576 3
1048577 3";

/// One place in a message of this kind.
#[derive(Clone, Copy)]
struct Case<'a> {
    kind: Kind,
    levels: &'a str,
    place: usize,
}

const LIMIT: usize = 1048576;

/// No place of a text: each length is in its shortest form.
const NOWHERE: usize = 99;

// 7 if the text is not a number; no line has such a text.
fn number(text: &str) -> usize {
    text.parse().unwrap_or(7)
}

/// The tag of a line, and the bytes before what is inside.
fn level(line: &str) -> (&str, &str) {
    match line.split_once(' ') {
        Some(parts) => parts,
        None => (line, ""),
    }
}

fn shortest(len: usize) -> usize {
    if len < 0x80 {
        0
    } else if len < 0x100 {
        1
    } else if len < 0x1_0000 {
        2
    } else {
        3
    }
}

/// How many bytes are inside the tag at this place, around `octets` octets, if all lengths within
/// are in their shortest form.
fn inside(levels: &str, place: usize, octets: usize) -> usize {
    let mut size = octets;
    for (at, line) in levels.lines().enumerate() {
        size = size.saturating_add(level(line).1.len() / 2);
        if at >= place {
            return size;
        }
        size = size.saturating_add(shortest(size).saturating_add(2));
    }
    size.saturating_sub(shortest(size).saturating_add(2))
}

/// How many octets make this length at this place.
fn octets_for(levels: &str, place: usize, len: usize) -> Option<usize> {
    for less in 0..80usize {
        let octets = len.saturating_sub(less);
        if inside(levels, place, octets) == len {
            return Some(octets);
        }
    }
    None
}

fn low(number: usize) -> u8 {
    (number % 0x100) as u8
}

fn push_length(text: &mut Vec<u8>, len: usize, octets: usize) -> Result<(), AllocError> {
    match octets {
        0 => text.extend_from_slice(&[low(len)]),
        1 => text.extend_from_slice(&[0x81, low(len)]),
        2 => text.extend_from_slice(&[0x82, low(len / 0x100), low(len)]),
        _ => text.extend_from_slice(&[0x83, low(len / 0x1_0000), low(len / 0x100), low(len)]),
    }
}

/// The tag of this line, the length `size` in this form, and the bytes before what is inside.
fn header(alloc: Global, line: &str, size: usize, form: usize) -> Option<Vec<u8>> {
    let (tag, before) = level(line);
    let mut text = hex::decode(alloc, tag).ok()?;
    push_length(&mut text, size, form).ok()?;
    text.extend_from_slice(&hex::decode(alloc, before).ok()?)
        .ok()?;
    Some(text)
}

/// What precedes `octets` octets inside all tags: the length at one place in this form, and all
/// others in their shortest.
fn headers(
    alloc: Global,
    levels: &str,
    octets: usize,
    place: usize,
    form: usize,
) -> Option<Vec<u8>> {
    let mut text = Vec::new(alloc);
    for (at, line) in levels.lines().enumerate() {
        let before = text.len().saturating_add(level(line).1.len() / 2);
        let size = octets.saturating_add(before);
        let form = if at == place { form } else { shortest(size) };
        let mut outer = header(alloc, line, size, form)?;
        outer.extend_from_slice(&text).ok()?;
        text = outer;
    }
    Some(text)
}

fn nested(
    alloc: Global,
    levels: &str,
    octets: usize,
    place: usize,
    form: usize,
) -> Option<Vec<u8>> {
    let mut text = headers(alloc, levels, octets, place, form)?;
    text.extend_from_slice(&vec![in alloc; 0x61u8; octets].ok()?)
        .ok()?;
    Some(text)
}

fn try_place(rt: &impl Abort, alloc: Global, case: &Case<'_>, len: usize, form: usize) {
    match octets_for(case.levels, case.place, len) {
        None => assert!(rt; false, "{len}"),
        Some(octets) => match nested(alloc, case.levels, octets, case.place, form) {
            None => unmade(rt),
            Some(text) => reads(rt, alloc, case, octets, &text),
        },
    }
}

/// The text is read, and written again in its shortest form, if all its lengths fit. A password of
/// an odd number of bytes is not one.
fn reads(rt: &impl Abort, alloc: Global, case: &Case<'_>, octets: usize, text: &[u8]) {
    let is_text = case.kind != Kind::Credentials || octets % 2 == 0;
    let fits = inside(case.levels, NOWHERE, octets) <= LIMIT;
    match again(alloc, case.kind, text) {
        None => assert!(rt; !fits || !is_text),
        Some(written) => {
            let shortest = nested(alloc, case.levels, octets, NOWHERE, 0);
            assert!(rt; fits && is_text);
            assert!(rt; shortest.as_ref() == Some(&written));
        }
    }
}

fn try_places(rt: &impl Abort, alloc: Global, kind: Kind, levels: &str) {
    for place in 0..levels.lines().count() {
        for line in LENGTHS.lines() {
            match line.split_once(' ') {
                Some((len, form)) => {
                    let case = Case {
                        kind,
                        levels,
                        place,
                    };
                    try_place(rt, alloc, &case, number(len), number(form));
                }
                None => unmade(rt),
            }
        }
    }
}

#[test]
fn places_of_requests(rt: HostRuntime) {
    try_places(&rt, rt.alloc(), Kind::Request, TOKEN);
    try_places(&rt, rt.alloc(), Kind::Request, CREDENTIALS);
}

#[test]
fn places_of_credentials(rt: HostRuntime) {
    try_places(&rt, rt.alloc(), Kind::Credentials, PASSWORD);
}

#[test]
fn places_of_tokens(rt: HostRuntime) {
    try_places(&rt, rt.alloc(), Kind::Offer, OFFER);
    try_places(&rt, rt.alloc(), Kind::Answer, ANSWER);
}
