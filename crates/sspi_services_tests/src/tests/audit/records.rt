//! Records as lines of text, and what an auditor finds of them once they are changed.
//!
//! Each line of an exchange has a name: `A` to `H` are messages and `s` and `l` blobs, in hex; `0`
//! to `9` are turns and `a` to `g` log entries. Octets are a name or hex: `~` after a name alters
//! the last octet, `*` and a number repeat the octets, and `+` adds what follows. A request is the
//! name of a message, with changes of its fields after `;`. An act after `!` is removed.
//!
//! A case is the verdict, the turns and the entries by their names, and what is changed in these,
//! as `4.acts=checked`. A case of both calls has the verdict of `audit` and then that of
//! `audit_run`.

use sspi_audit::{Verdict, audit, audit_run};
use sspi_credssp::{Acts, End, Outcome, Turn};
use sspi_delegate::Carried;
use sspi_tsreq::TsRequest;
use sspi_types::{Bytes, ErrorKind, NStatusCode, SecurityStatus};
use std::alloc::Global;
use std::process::Abort;

/// What a test runs on.
pub trait Test: Abort + Alloc<A = Global> {}

impl<R: Abort + Alloc<A = Global>> Test for R {}

pub fn given<T, E: Drop>(rt: &impl Abort, answer: Result<T, E>) -> T {
    match answer {
        Ok(value) => value,
        Err(_) => rt.abort(),
    }
}

pub fn told<T>(rt: &impl Abort, answer: Option<T>) -> T {
    match answer {
        Some(value) => value,
        None => rt.abort(),
    }
}

/// What precedes and what follows a mark.
pub fn halves<'a>(rt: &impl Abort, text: &'a str, mark: &str) -> (&'a str, &'a str) {
    told(rt, text.split_once(mark))
}

/// An exchange, and what is changed in it.
#[derive(Clone, Copy)]
pub struct Record<'a> {
    pub exchange: &'a str,
    pub changes: &'a str,
}

fn value_of<'a>(words: &'a str, key: &str) -> Option<&'a str> {
    for word in words.split(' ') {
        if let Some((found, value)) = word.split_once('=') {
            if found == key {
                return Some(value);
            }
        }
    }
    None
}

fn changed<'a>(changes: &'a str, name: char, key: &str) -> Option<&'a str> {
    for change in changes.split(' ') {
        if let Some((line, word)) = change.split_once('.') {
            if line.starts_with(name) {
                if let Some(value) = value_of(word, key) {
                    return Some(value);
                }
            }
        }
    }
    None
}

/// A field of a line as the exchange has it.
pub fn unchanged<'a>(exchange: &'a str, name: char, key: &str) -> Option<&'a str> {
    for line in exchange.lines() {
        if line.starts_with(name) {
            return value_of(line, key);
        }
    }
    None
}

/// A field of a turn or an entry.
fn field<'a>(rt: &impl Abort, record: Record<'a>, name: char, key: &str) -> &'a str {
    match changed(record.changes, name, key) {
        Some(value) => value,
        None => told(rt, unchanged(record.exchange, name, key)),
    }
}

/// The hex that has this name; without one, the name is itself hex.
fn digits<'a>(exchange: &'a str, name: &'a str) -> &'a str {
    for line in exchange.lines() {
        if let Some((found, digits)) = line.split_once(' ') {
            if found == name {
                return digits;
            }
        }
    }
    name
}

fn altered(mut octets: Vec<u8>) -> Vec<u8> {
    if let Some(last) = octets.last_mut() {
        *last ^= 1;
    }
    octets
}

fn octets(rt: &impl Test, exchange: &str, value: &str) -> Vec<u8> {
    let mut octets = Vec::new(rt.alloc());
    for piece in value.split('+') {
        let piece = octets_of(rt, exchange, piece);
        given(rt, octets.extend_from_slice(&piece));
    }
    octets
}

fn octets_of(rt: &impl Test, exchange: &str, piece: &str) -> Vec<u8> {
    if let Some(name) = piece.strip_suffix("~") {
        return altered(named(rt, exchange, name));
    }
    match piece.split_once('*') {
        Some((digits, times)) => repeated(rt, exchange, digits, given(rt, times.parse())),
        None => named(rt, exchange, piece),
    }
}

fn repeated(rt: &impl Test, exchange: &str, digits: &str, times: usize) -> Vec<u8> {
    let octets = named(rt, exchange, digits);
    given(rt, octets.repeat(rt.alloc(), times))
}

fn named(rt: &impl Test, exchange: &str, name: &str) -> Vec<u8> {
    given(rt, hex::decode(rt.alloc(), digits(exchange, name)))
}

/// A field of a request, which `-` leaves out.
fn blob(rt: &impl Test, exchange: &str, value: &str) -> Option<Bytes> {
    if value == "-" {
        None
    } else {
        Some(Bytes::from_vec(octets(rt, exchange, value)))
    }
}

fn code(rt: &impl Abort, value: &str) -> Option<NStatusCode> {
    match value {
        "-" => None,
        number => Some(NStatusCode(given(rt, u32::from_str_radix(number, 16)))),
    }
}

fn set(rt: &impl Test, exchange: &str, request: &mut TsRequest, change: &str) {
    let (key, value) = told(rt, change.split_once('='));
    match key {
        "version" => request.version = given(rt, value.parse()),
        "nego" => request.nego_tokens = blob(rt, exchange, value),
        "auth" => request.auth_info = blob(rt, exchange, value),
        "proof" => request.pub_key_auth = blob(rt, exchange, value),
        "code" => request.error_code = code(rt, value),
        "nonce" if value == "-" => request.client_nonce = None,
        "nonce" => request.client_nonce = Some([given(rt, value.parse()); 32]),
        _ => rt.abort(),
    }
}

fn request(rt: &impl Test, exchange: &str, value: &str) -> TsRequest {
    let (name, changes) = match value.split_once(';') {
        Some(parts) => parts,
        None => (value, ""),
    };
    let octets = octets(rt, exchange, name);
    let mut request = given(rt, TsRequest::from_buffer(rt.alloc(), &octets));
    for change in changes.split(';') {
        if !change.is_empty() {
            set(rt, exchange, &mut request, change);
        }
    }
    request
}

fn end(rt: &impl Abort, name: &str) -> End {
    match name {
        "client" => End::Client,
        "server" => End::Server,
        _ => rt.abort(),
    }
}

fn act(rt: &impl Abort, acts: &mut Acts, name: &str) {
    let (name, is_made) = match name.strip_prefix("!") {
        Some(name) => (name, false),
        None => (name, true),
    };
    match name {
        "step" => acts.negotiated = is_made,
        "status" => acts.status = None,
        "ok" => acts.status = Some(SecurityStatus::Ok),
        "continue" => acts.status = Some(SecurityStatus::ContinueNeeded),
        "complete" => acts.status = Some(SecurityStatus::CompleteNeeded),
        "local" => acts.status = Some(SecurityStatus::LocalLogon),
        "proved" => acts.proved = is_made,
        "checked" => acts.checked = is_made,
        "sealed" => acts.sealed = is_made,
        "opened" => acts.opened = is_made,
        _ => rt.abort(),
    }
}

/// The `Acts` of these names; `-` is none.
fn acts(rt: &impl Abort, names: &str) -> Acts {
    let mut acts = Acts {
        status: None,
        negotiated: false,
        proved: false,
        checked: false,
        sealed: false,
        opened: false,
    };
    for name in names.split(',') {
        if name != "-" {
            act(rt, &mut acts, name);
        }
    }
    acts
}

fn kind(rt: &impl Abort, name: &str) -> ErrorKind {
    match name {
        "InvalidToken" => ErrorKind::InvalidToken,
        "LogonDenied" => ErrorKind::LogonDenied,
        "MessageAltered" => ErrorKind::MessageAltered,
        "InsufficientMemory" => ErrorKind::InsufficientMemory,
        "DowngradeDetected" => ErrorKind::DowngradeDetected,
        "OutOfSequence" => ErrorKind::OutOfSequence,
        "InternalError" => ErrorKind::InternalError,
        _ => rt.abort(),
    }
}

/// What a turn ended in; the message of a refusal may be `-`.
fn outcome(rt: &impl Test, record: Record<'_>, name: char) -> Outcome {
    let message = field(rt, record, name, "message");
    match field(rt, record, name, "outcome") {
        "reply" => Outcome::Reply(request(rt, record.exchange, message)),
        "final" => Outcome::Final(request(rt, record.exchange, message)),
        "finished" => Outcome::Finished,
        refusal if message == "-" => Outcome::Refused(kind(rt, refusal), None),
        refusal => Outcome::Refused(
            kind(rt, refusal),
            Some(request(rt, record.exchange, message)),
        ),
    }
}

fn turn(rt: &impl Test, record: Record<'_>, name: char) -> Turn {
    let exchange = record.exchange;
    Turn {
        end: end(rt, field(rt, record, name, "end")),
        delivered: request(rt, exchange, field(rt, record, name, "given")),
        acts: acts(rt, field(rt, record, name, "acts")),
        output: Bytes::from_vec(octets(rt, exchange, field(rt, record, name, "output"))),
        outcome: outcome(rt, record, name),
    }
}

fn entry(rt: &impl Test, record: Record<'_>, name: char) -> Carried {
    let exchange = record.exchange;
    let sent = octets(rt, exchange, field(rt, record, name, "sent"));
    let delivered = octets(rt, exchange, field(rt, record, name, "delivered"));
    Carried {
        from: end(rt, field(rt, record, name, "from")),
        sent: Bytes::from_vec(sent),
        delivered: Bytes::from_vec(delivered),
        ended: field(rt, record, name, "ended") == "yes",
    }
}

/// The turns of these names; `-` is none.
fn turns(rt: &impl Test, record: Record<'_>, names: &str) -> Vec<Turn> {
    let mut turns = Vec::new(rt.alloc());
    for name in names.chars() {
        if name != '-' {
            given(rt, turns.push(turn(rt, record, name)));
        }
    }
    turns
}

fn log(rt: &impl Test, record: Record<'_>, names: &str) -> Vec<Carried> {
    let mut log = Vec::new(rt.alloc());
    for name in names.chars() {
        if name != '-' {
            given(rt, log.push(entry(rt, record, name)));
        }
    }
    log
}

fn verdict(rt: &impl Abort, text: &str) -> Verdict {
    match text.strip_prefix("yes") {
        Some("-") => Verdict::Yes(None),
        Some(sealing) => Verdict::Yes(Some(given(rt, sealing.parse()))),
        None => {
            let place = told(rt, text.strip_prefix("no"));
            Verdict::No(given(rt, place.parse()))
        }
    }
}

/// The first word of a line, and the rest.
fn first(line: &str) -> (&str, &str) {
    match line.split_once(' ') {
        Some(parts) => parts,
        None => (line, ""),
    }
}

/// Checks that each change is to a field that its line has.
fn change_fields(rt: &impl Abort, record: Record<'_>) {
    for change in record.changes.split(' ') {
        if !change.is_empty() {
            let (line, word) = halves(rt, change, ".");
            let (key, _value) = halves(rt, word, "=");
            let name = told(rt, line.chars().next());
            let _field = told(rt, unchanged(record.exchange, name, key));
        }
    }
}

/// The verdict on a record with the turns and the entries of these names.
pub fn found(rt: &impl Test, record: Record<'_>, turn_names: &str, entry_names: &str) -> Verdict {
    change_fields(rt, record);
    let turns = turns(rt, record, turn_names);
    let log = log(rt, record, entry_names);
    given(rt, audit(rt.alloc(), &turns, &log))
}

/// The verdicts of `audit` and of `audit_run` on the same record.
fn both_found(
    rt: &impl Test,
    record: Record<'_>,
    turn_names: &str,
    entry_names: &str,
) -> (Verdict, Verdict) {
    change_fields(rt, record);
    let turns = turns(rt, record, turn_names);
    let log = log(rt, record, entry_names);
    let shown = given(rt, audit(rt.alloc(), &turns, &log));
    (shown, given(rt, audit_run(rt.alloc(), &turns, &log)))
}

fn is_judged(rt: &impl Test, exchange: &str, case: &str) {
    let (wanted, rest) = first(case);
    let (turn_names, rest) = first(rest);
    let (entry_names, changes) = first(rest);
    let found = found(rt, Record { exchange, changes }, turn_names, entry_names);
    assert!(rt; found == verdict(rt, wanted), "{case}");
}

/// Each case is judged as it says.
pub fn are_judged(rt: &impl Test, exchange: &str, cases: &str) {
    for case in cases.lines() {
        is_judged(rt, exchange, case);
    }
}

fn is_judged_by_both(rt: &impl Test, exchange: &str, case: &str) {
    let (shown, rest) = first(case);
    let (run, rest) = first(rest);
    let (turn_names, rest) = first(rest);
    let (entry_names, changes) = first(rest);
    let found = both_found(rt, Record { exchange, changes }, turn_names, entry_names);
    assert!(rt; found.0 == verdict(rt, shown), "audit of {case}");
    assert!(rt; found.1 == verdict(rt, run), "audit_run of {case}");
}

/// Each case is judged by both calls as it says.
pub fn are_judged_by_both(rt: &impl Test, exchange: &str, cases: &str) {
    for case in cases.lines() {
        is_judged_by_both(rt, exchange, case);
    }
}
