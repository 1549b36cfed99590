//! Runs of the program over sources and sinks in memory.
//!
//! Cases are in tables, one per line, and one helper runs them: a value that is alive across a `?`
//! is the largest cost of a test.

mod edges;
mod explained;
mod faults;
mod hostile;
mod kerberos;
mod many;
mod negotiation;
mod plays;
mod reasons;
mod report;
mod rows;
mod scenario;
mod sessions;

use sspi_ber::{SliceSource, VecSink};
use sspi_program::run::exit_status;
use std::alloc::{AllocError, Global};
use std::process::Abort;
use std::str;

/// The exchange of DOM\ann with the password pw over the channel of the key 010203.
pub const ORDINARY: &str = "mode ntlm\nuser DOM\\ann\npassword pw\nkey 010203\n";

/// The words of the program, which spaces separate.
pub fn words_of(alloc: Global, text: &str) -> Result<Vec<String>, AllocError> {
    let mut words = Vec::new(alloc);
    for word in text.split(' ') {
        if !word.is_empty() {
            words.push(String::from_str(alloc, word)?)?;
        }
    }
    Ok(words)
}

/// The result of these words on a text: the exit status, and what they write.
pub fn run_on(alloc: Global, words: &str, text: &[u8]) -> Result<(u8, VecSink), AllocError> {
    let words = words_of(alloc, words)?;
    let mut source = SliceSource::new(text);
    let mut sink = VecSink::new(alloc);
    let status = exit_status(alloc, &words, &mut source, &mut sink);
    Ok((status, sink))
}

pub fn no_memory(rt: &impl Abort) {
    assert!(rt; false, "no memory");
}

/// What comes before the next `|`, and what comes after it.
fn parted(text: &str) -> (&str, &str) {
    match text.split_once('|') {
        Some(parts) => parts,
        None => (text, ""),
    }
}

/// A text whose middle is this piece, repeated this many times.
pub fn stretched(
    alloc: Global,
    (front, piece, times, more): (&str, &str, usize, &str),
) -> Result<String, AllocError> {
    let mut text = String::from_str(alloc, front)?;
    text.push_str(&piece.repeat(alloc, times)?)?;
    text.push_str(more)?;
    Ok(text)
}

/// Whether the text has this number of lines, contains one text, and ends with the other.
fn has_parts(written: &[u8], lines: &str, holds: &str, last: &str) -> bool {
    match str::from_utf8(written) {
        Ok(report) => {
            lines.parse() == Ok(report.lines().count())
                && report.contains(holds)
                && report.ends_with(last)
        }
        Err(_) => false,
    }
}

/// The output of these words on a scenario is as a case says: the exit status, a space and the
/// number of its lines; a text that it contains; and one at its end. A `|` separates the three.
pub fn reports(rt: &impl Abort, alloc: Global, words: &str, scenario: &str, case: &str) {
    let (counts, texts) = parted(case);
    let (holds, last) = parted(texts);
    let (status, lines) = match counts.split_once(' ') {
        Some(counts) => counts,
        None => ("", ""),
    };
    match run_on(alloc, words, scenario.as_bytes()) {
        Ok((found, sink)) => {
            assert!(rt; status.parse() == Ok(found), "{case}");
            assert!(rt; has_parts(sink.written(), lines, holds, last), "{case}");
        }
        Err(_) => no_memory(rt),
    }
}

/// The same for a scenario whose middle is a repeated piece.
pub fn reports_long(
    rt: &impl Abort,
    alloc: Global,
    words: &str,
    scenario: (&str, &str, usize, &str),
    case: &str,
) {
    match stretched(alloc, scenario) {
        Ok(scenario) => reports(rt, alloc, words, &scenario, case),
        Err(_) => no_memory(rt),
    }
}

/// The same for a line of a table, with each `;` replaced by an LF: the counts, what follows these
/// first lines in the scenario, and the two texts.
fn shows(rt: &impl Abort, alloc: Global, words: &str, front: &str, line: &str) {
    let (counts, rest) = parted(line);
    let (more, texts) = parted(rest);
    match (
        stretched(alloc, (front, more, 1, "")),
        stretched(alloc, (counts, "|", 1, texts)),
    ) {
        (Ok(scenario), Ok(case)) => reports(rt, alloc, words, &scenario, &case),
        _ => no_memory(rt),
    }
}

/// The same for each line of a table, in which `;` stands for an LF.
pub fn shows_all(rt: &impl Abort, alloc: Global, words: &str, front: &str, table: &str) {
    for line in table.lines() {
        match line.replace(alloc, ';', "\n") {
            Ok(line) => shows(rt, alloc, words, front, &line),
            Err(_) => no_memory(rt),
        }
    }
}

/// The whole report of a scenario.
pub fn reports_whole(rt: &impl Abort, alloc: Global, words: &str, scenario: &str, report: &str) {
    match run_on(alloc, words, scenario.as_bytes()) {
        Ok((found, sink)) => {
            assert!(rt; found == 0);
            assert!(rt; sink.written() == report.as_bytes());
        }
        Err(_) => no_memory(rt),
    }
}
