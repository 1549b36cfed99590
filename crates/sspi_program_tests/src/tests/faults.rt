//! Words and texts that are refused, and sources and sinks that fail.

use crate::tests::{ORDINARY, no_memory, run_on, words_of};
use sspi_ber::{FaultySink, FaultySource, Sink, SliceSource, Source, VecSink};
use sspi_program::run::exit_status;
use std::alloc::Global;
use std::process::Abort;

/// The ends did nothing, and the result is this status and output.
fn answers(rt: &impl Abort, alloc: Global, words: &str, text: &[u8], status: u8, output: &str) {
    match run_on(alloc, words, text) {
        Ok((found, sink)) => {
            assert!(rt; found == status, "{words} {output}");
            assert!(rt; sink.written() == output.as_bytes(), "{words} {output}");
        }
        Err(_) => no_memory(rt),
    }
}

/// Words that are no command, one per line.
const OTHER_WORDS: &str =
    "\ndelegate delegate\nplay play\ndelegates\nPlay\ndelegate 1\ngate-crash\n\
    gen\ngen 0\ngen 10001\ngen 01\ngen +1\ngen -1\ngen 4294967297\ngen x\ngen 8 8\nGen 8\n8 gen\n\
    explain x\nExplain\nexplain 1\nhelp\n--help";

#[test]
fn other_words(rt: HostRuntime) {
    for words in OTHER_WORDS.lines() {
        answers(
            &rt,
            rt.alloc(),
            words,
            ORDINARY.as_bytes(),
            6,
            "error: words\n",
        );
    }
}

/// Texts that are no scenario: the words, the output and the text, with a `|` after each but the
/// last, and `;` for an LF.
const NO_SCENARIOS: &str = "delegate|error: scenario line 1;|mode x;\n\
    delegate|error: scenario line 0;|\n\
    delegate|error: scenario line 4;|mode ntlm;# user;;keys 00;\n\
    delegate|error: scenario line 1;|deliver client;\n\
    play|error: scenario line 1;|turns 5;\n\
    play|error: scenario line 2;|deliver client;edit 0 drop;\n\
    play|error: scenario line 2;|deliver client;deliver server 0;\n\
    play|error: scenario line 0;|deliver client;";

fn refuses(rt: &impl Abort, alloc: Global, line: &str) {
    match (line.split_once('|'), line.rsplit_once('|')) {
        (Some((words, rest)), Some((_, text))) => match rest.split_once('|') {
            Some((output, _)) => answers(rt, alloc, words, text.as_bytes(), 2, output),
            None => assert!(rt; false, "{line}"),
        },
        _ => assert!(rt; false, "{line}"),
    }
}

#[test]
fn no_scenarios(rt: HostRuntime) {
    for line in NO_SCENARIOS.lines() {
        match line.replace(rt.alloc(), ';', "\n") {
            Ok(line) => refuses(&rt, rt.alloc(), &line),
            Err(_) => no_memory(&rt),
        }
    }
    let bytes = b"mode x\n# \xff\n";
    answers(
        &rt,
        rt.alloc(),
        "delegate",
        bytes,
        2,
        "error: scenario line 0\n",
    );
    answers(
        &rt,
        rt.alloc(),
        "explain",
        b"3000\n\xff",
        2,
        "error: text\n",
    );
}

fn ends_so<S: Source, W: Sink>(
    rt: &impl Abort,
    alloc: Global,
    source: &mut S,
    sink: &mut W,
    status: u8,
) {
    match words_of(alloc, "delegate") {
        Ok(words) => {
            assert!(rt; exit_status(alloc, &words, source, sink) == status);
        }
        Err(_) => no_memory(rt),
    }
}

fn fails_to_read(rt: &impl Abort, alloc: Global, failing: u64) {
    let mut source = FaultySource::new(ORDINARY.as_bytes(), failing);
    let mut sink = VecSink::new(alloc);
    ends_so(rt, alloc, &mut source, &mut sink, 3);
    assert!(rt; sink.written() == b"error: read\n".as_slice());
}

fn fails_to_write(rt: &impl Abort, alloc: Global, text: &str) {
    let mut source = SliceSource::new(text.as_bytes());
    let mut sink = FaultySink::new(alloc, 0);
    ends_so(rt, alloc, &mut source, &mut sink, 4);
    assert!(rt; sink.written().is_empty());
}

/// A source that fails in its first and in its second call, and a sink that fails.
#[test]
fn faults_outside(rt: HostRuntime) {
    fails_to_read(&rt, rt.alloc(), 0);
    fails_to_read(&rt, rt.alloc(), 1);
    fails_to_write(&rt, rt.alloc(), ORDINARY);
    fails_to_write(&rt, rt.alloc(), "mode x\n");
}
