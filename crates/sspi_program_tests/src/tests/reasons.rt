//! What is written to standard error, by the command, the text and the status.

use crate::tests::{no_memory, words_of};
use sspi_ber::VecSink;
use sspi_program::command::command_of;
use sspi_program::reason::{USAGE, tell_reason};
use std::alloc::Global;
use std::process::Abort;

/// What is written about a run of these words on this text that ended with this status.
fn tells(rt: &impl Abort, alloc: Global, words: &str, text: Option<&[u8]>, status: u8, told: &str) {
    match words_of(alloc, words) {
        Ok(words) => {
            let mut errors = VecSink::new(alloc);
            tell_reason(alloc, &mut errors, command_of(&words), text, status);
            assert!(rt; errors.written() == told.as_bytes(), "{told}");
        }
        Err(_) => no_memory(rt),
    }
}

#[test]
fn reasons_by_status(rt: HostRuntime) {
    for (words, text, status, told) in [
        ("delegate", "", 0, ""),
        ("gate", "", 1, ""),
        (
            "delegate",
            "turns 05",
            2,
            "line 1: turns: no number from 0 to 4294967295 without leading zeros: \"05\"\n",
        ),
        ("play", "turns 5", 2, "line 1: turns: no key of this word\n"),
        (
            "desk 2",
            "mode ntlm",
            2,
            "text: missing keys: user password key\n",
        ),
        (
            "early",
            "admit a",
            2,
            "text: missing keys: mode user password key\n",
        ),
        ("audit", "x", 3, "standard input: a read failed\n"),
        ("gen 1", "", 4, "standard output: a write failed\n"),
        ("explain", "", 5, "out of memory\n"),
        ("help", "", 6, USAGE),
        ("--help", "", 6, USAGE),
        ("", "", 6, USAGE),
    ] {
        tells(&rt, rt.alloc(), words, Some(text.as_bytes()), status, told);
    }
    tells(
        &rt,
        rt.alloc(),
        "explain",
        Some(b"30\xff"),
        2,
        "text: not UTF-8\n",
    );
    tells(&rt, rt.alloc(), "delegate", None, 2, "");
    tells(
        &rt,
        rt.alloc(),
        "delegate",
        None,
        3,
        "standard input: a read failed\n",
    );
}
