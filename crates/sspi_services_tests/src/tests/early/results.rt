//! Early results over a link in memory, one a line: what the list of names decides, and what the
//! client makes of what the link delivers.

use crate::tests::early::words::{
    Answer, answered, edits, given, identity, names, number, parted, unmade,
};
use sspi_delegate::{Carried, Edit, End, MemoryLink};
use sspi_early::{ListPolicy, authorize};
use sspi_names::{AuthIdentity, Username};
use std::alloc::Global;
use std::process::Abort;

/// Whom the policy admits, the user, what the link does, the answer, what the server sent, and how
/// many bytes were taken from it.
const RESULTS: &str = "\
DOM\\ann, / DOM\\ann / none / success success / 00000000 / 4
 / DOM\\ann / none / denied denied / 05000000 / 4
DOM\\ann, / dom\\ANN / none / success success / 00000000 / 4
D\\b,CORP\\Ann,x, / corp\\aNN / none / success success / 00000000 / 4
DOM\\ann, / ann / none / denied denied / 05000000 / 4
ann, / DOM\\ann / none / denied denied / 05000000 / 4
ann@DOM, / DOM\\ann / none / denied denied / 05000000 / 4
ann@DOM, / ANN@dom / none / success success / 00000000 / 4
DOM\\ann, / DOM\\anna / none / denied denied / 05000000 / 4
DOM\\anna, / DOM\\ann / none / denied denied / 05000000 / 4
DOM\\émile, / dom\\émILE / none / success success / 00000000 / 4
DOM\\émile, / DOM\\Émile / none / denied denied / 05000000 / 4
DOM\\straße, / DOM\\STRASSE / none / denied denied / 05000000 / 4
DOM\\kelvin, / DOM\\\u{212a}elvin / none / denied denied / 05000000 / 4
DOM\\a[, / DOM\\a{ / none / denied denied / 05000000 / 4
DOM\\ann, / DOM\\ann / set 0 01 / data / 00000000 / 4
DOM\\ann, / DOM\\ann / set 0 05 / success denied / 00000000 / 4
DOM\\ann, / DOM\\ann / set 0 80 / data / 00000000 / 4
DOM\\ann, / DOM\\ann / set 1 01 / data / 00000000 / 4
DOM\\ann, / DOM\\ann / set 2 01 / data / 00000000 / 4
DOM\\ann, / DOM\\ann / set 3 01 / data / 00000000 / 4
 / DOM\\ann / set 0 00 / denied success / 05000000 / 4
 / DOM\\ann / set 0 04 / data / 05000000 / 4
 / DOM\\ann / set 1 05 / data / 05000000 / 4
 / DOM\\ann / set 2 ff / data / 05000000 / 4
 / DOM\\ann / set 3 80 / data / 05000000 / 4
DOM\\ann, / DOM\\ann / drop / eof / 00000000 / 0
DOM\\ann, / DOM\\ann / cut 0 / eof / 00000000 / 0
DOM\\ann, / DOM\\ann / cut 1 / eof / 00000000 / 1
DOM\\ann, / DOM\\ann / cut 2 / eof / 00000000 / 2
 / DOM\\ann / cut 3 / eof / 05000000 / 3
DOM\\ann, / DOM\\ann / cut 4 / success success / 00000000 / 4
DOM\\ann, / DOM\\ann / add ff / success success / 00000000 / 4
 / DOM\\ann / add 00000000 / denied denied / 05000000 / 4
DOM\\ann, / DOM\\ann / give 05000000 / success denied / 00000000 / 4
 / DOM\\ann / give 00000000 / denied success / 05000000 / 4
DOM\\ann, / DOM\\ann / give 00000005 / data / 00000000 / 4
DOM\\ann, / DOM\\ann / give 050000 / eof / 00000000 / 3
DOM\\ann, / DOM\\ann / give 0000000500 / data / 00000000 / 4";

/// The same for a message that the link does not take.
const UNCARRIED: &str = "DOM\\ann, / DOM\\ann / fail / link";

fn line(rt: &impl Abort, alloc: Global, line: &str, piece: usize) {
    let (admit, rest) = parted(rt, line, " / ");
    let (user, rest) = parted(rt, rest, " / ");
    let (edit, rest) = parted(rt, rest, " / ");
    let identity = identity(rt, alloc, user);
    let names = names(rt, alloc, admit);
    case(
        rt,
        alloc,
        names,
        edits(rt, alloc, 0, edit),
        &identity,
        rest,
        piece,
    );
}

fn case(
    rt: &impl Abort,
    alloc: Global,
    names: Vec<Username>,
    edits: Vec<Edit>,
    identity: &AuthIdentity,
    rest: &str,
    piece: usize,
) {
    let mut policy = ListPolicy::new(alloc, names);
    let mut link = MemoryLink::new(alloc, edits);
    link.set_piece(piece);
    let found = authorize(&mut link, &mut policy, identity);
    comes(rt, alloc, &found, link.log(), rest);
}

/// The answer and the log are as these words say.
fn comes(rt: &impl Abort, alloc: Global, found: &Answer, log: &[Carried], rest: &str) {
    match rest.split_once(" / ") {
        Some((words, entry)) => carried(rt, alloc, found, words, log, entry),
        None => {
            answered(rt, found, rest);
            assert_eq!(rt; log.len(), 0);
        }
    }
}

fn carried(
    rt: &impl Abort,
    alloc: Global,
    found: &Answer,
    words: &str,
    log: &[Carried],
    entry: &str,
) {
    answered(rt, found, words);
    let (sent, taken) = parted(rt, entry, " / ");
    match log {
        [carried] => told(rt, alloc, carried, sent, taken, words == "eof"),
        _ => unmade(rt),
    }
}

/// The entry is the server's, and sent these digits; `taken` is how many bytes were taken from it.
pub(crate) fn told(
    rt: &impl Abort,
    alloc: Global,
    carried: &Carried,
    sent: &str,
    taken: &str,
    ended: bool,
) {
    assert!(rt; carried.from == End::Server);
    assert_eq!(rt; carried.delivered.len(), number(rt, taken));
    assert_eq!(rt; carried.ended, ended);
    let sent = given(rt, hex::decode(alloc, sent));
    assert!(rt; carried.sent.as_slice() == sent.as_slice());
}

#[test]
fn a_client_hears_what_the_link_delivers(rt: HostRuntime) {
    let alloc = rt.alloc();
    for piece in [1, 2, 3, 4, 5, usize::MAX] {
        for words in RESULTS.lines() {
            line(&rt, alloc, words, piece);
        }
    }
}

#[test]
fn a_link_that_takes_no_message_keeps_none(rt: HostRuntime) {
    line(&rt, rt.alloc(), UNCARRIED, 4);
}
