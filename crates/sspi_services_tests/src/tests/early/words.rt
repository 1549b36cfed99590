//! Names, edits and answers in words.

use sspi_ber::WireKind;
use sspi_delegate::{DelegateError, Edit, EditKind};
use sspi_early::{Authorized, EarlyError, EarlyUserAuthResult};
use sspi_names::{AuthIdentity, Username};
use sspi_types::{Bytes, Secret, Text};
use std::alloc::Global;
use std::process::Abort;

pub(crate) type Answer = Result<Authorized, EarlyError>;

/// Fails the test.
pub(crate) fn unmade(rt: &impl Abort) {
    assert!(rt; false);
}

/// The value of a call that must not be refused.
pub(crate) fn given<T, E: Drop>(rt: &impl Abort, answer: Result<T, E>) -> T {
    match answer {
        Ok(value) => value,
        Err(_) => rt.abort(),
    }
}

/// The parts before and after this mark.
pub(crate) fn parted<'a>(rt: &impl Abort, text: &'a str, mark: &str) -> (&'a str, &'a str) {
    match text.split_once(mark) {
        Some(parts) => parts,
        None => rt.abort(),
    }
}

/// Names with a comma after each.
pub(crate) fn names(rt: &impl Abort, alloc: Global, words: &str) -> Vec<Username> {
    let mut names = Vec::new(alloc);
    for word in words.split_terminator(',') {
        let name = given(rt, Username::parse(alloc, word));
        given(rt, names.push(name));
    }
    names
}

/// The identity of this user, with the password `pw`.
pub(crate) fn identity(rt: &impl Abort, alloc: Global, user: &str) -> AuthIdentity {
    let username = given(rt, Username::parse(alloc, user));
    let password = given(rt, Text::from_text(alloc, "pw"));
    AuthIdentity {
        username,
        password: Secret::from(password),
    }
}

/// `none`, `drop`, `fail`, `cut K`, `set K HH`, `add HEX`, `give HEX`, for this entry.
pub(crate) fn edits(rt: &impl Abort, alloc: Global, entry: u32, words: &str) -> Vec<Edit> {
    let mut edits = Vec::new(alloc);
    if words != "none" {
        let kind = kind(rt, alloc, words);
        given(rt, edits.push(Edit { entry, kind }));
    }
    edits
}

fn kind(rt: &impl Abort, alloc: Global, words: &str) -> EditKind {
    let (word, rest) = words.split_once(' ').unwrap_or((words, ""));
    match word {
        "drop" => EditKind::Drop,
        "fail" => EditKind::Fail,
        "cut" => EditKind::Cut(number(rt, rest)),
        "set" => {
            let (at, byte) = parted(rt, rest, " ");
            EditKind::Set(number(rt, at), given(rt, u8::from_str_radix(byte, 16)))
        }
        "add" => EditKind::Add(bytes(rt, alloc, rest)),
        "give" => EditKind::Give(bytes(rt, alloc, rest)),
        _ => rt.abort(),
    }
}

pub(crate) fn number(rt: &impl Abort, digits: &str) -> usize {
    given(rt, digits.parse::<usize>())
}

fn bytes(rt: &impl Abort, alloc: Global, digits: &str) -> Bytes {
    Bytes::from_vec(given(rt, hex::decode(alloc, digits)))
}

fn result(rt: &impl Abort, word: &str) -> EarlyUserAuthResult {
    match word {
        "success" => EarlyUserAuthResult::Success,
        "denied" => EarlyUserAuthResult::AccessDenied,
        _ => rt.abort(),
    }
}

/// `TOLD HEARD`, each `success` or `denied`; `eof`, `data`, `link`, `policy` or `turns`.
fn answer(rt: &impl Abort, words: &str) -> Answer {
    match words {
        "eof" => Err(EarlyError::Read(WireKind::UnexpectedEof)),
        "data" => Err(EarlyError::Read(WireKind::InvalidData)),
        "link" => Err(EarlyError::LinkFault),
        "policy" => Err(EarlyError::Policy),
        "turns" => Err(EarlyError::Delegate(DelegateError::TurnsSpent)),
        _ => {
            let (told, heard) = parted(rt, words, " ");
            Ok(Authorized {
                told: result(rt, told),
                heard: result(rt, heard),
            })
        }
    }
}

/// The answer is as these words say.
pub(crate) fn answered(rt: &impl Abort, found: &Answer, words: &str) {
    assert!(rt; same(found, &answer(rt, words)), "{words}");
}

fn same(found: &Answer, wanted: &Answer) -> bool {
    match (found, wanted) {
        (Ok(found), Ok(wanted)) => *found == *wanted,
        (Err(found), Err(wanted)) => *found == *wanted,
        _ => false,
    }
}
