//! Exchanges of numbered scenarios.

use crate::tests::{no_memory, reports_whole, words_of};
use sspi_ber::{FaultySink, FaultySource, VecSink};
use sspi_program::run::exit_status;
use std::alloc::Global;
use std::process::Abort;

/// One for each remainder modulo eight. Their entries, by hand: 5, 7, 4 and 2, each twice.
const EIGHT: &str =
    "runs 8\nok 4\nclient 0\nserver 1\nread 2\nwrite 0\nlink 0\nturns 1\nmessages 36\n";

/// The first alone, which ends in Ok with five messages.
const ONE: &str =
    "runs 1\nok 1\nclient 0\nserver 0\nread 0\nwrite 0\nlink 0\nturns 0\nmessages 5\n";

/// A hundred and twenty-five times eight.
const THOUSAND: &str =
    "runs 1000\nok 500\nclient 0\nserver 125\nread 250\nwrite 0\nlink 0\nturns 125\nmessages 4500\n";

#[test]
fn many_exchanges(rt: HostRuntime) {
    reports_whole(&rt, rt.alloc(), "gen 1", "", ONE);
    reports_whole(&rt, rt.alloc(), "gen 8", "mode x\n", EIGHT);
    reports_whole(&rt, rt.alloc(), "gen 1000", "", THOUSAND);
}

/// A source that fails in its first call is not asked.
fn reads_nothing(rt: &impl Abort, alloc: Global) {
    let mut source = FaultySource::new(b"", 0);
    let mut sink = VecSink::new(alloc);
    match words_of(alloc, "gen 8") {
        Ok(words) => {
            assert!(rt; exit_status(alloc, &words, &mut source, &mut sink) == 0);
            assert!(rt; sink.written() == EIGHT.as_bytes());
        }
        Err(_) => no_memory(rt),
    }
}

fn fails_to_write(rt: &impl Abort, alloc: Global) {
    let mut source = FaultySource::new(b"", 0);
    let mut sink = FaultySink::new(alloc, 0);
    match words_of(alloc, "gen 8") {
        Ok(words) => {
            assert!(rt; exit_status(alloc, &words, &mut source, &mut sink) == 4);
            assert!(rt; sink.written().is_empty());
        }
        Err(_) => no_memory(rt),
    }
}

#[test]
fn many_exchanges_outside(rt: HostRuntime) {
    reads_nothing(&rt, rt.alloc());
    fails_to_write(&rt, rt.alloc());
}
