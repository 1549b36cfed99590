//! `sspi_run WORD`: reads a scenario from standard input, runs its two ends as the word says, and
//! writes what they sent and the result to standard output; `sspi_run explain` describes the
//! messages of a text. `sspi_run serve FILE` and `sspi_run connect FILE` run one end of the
//! scenario in a file, over standard input and output as its channel.
//!
//! `ended` of `sspi_program` and `end_of_file` of `sspi_channel` do all the work, over any source
//! and sink; their contracts say what the exit status is and what was written. Standard error gets
//! the reason for a status above 1, and the result of a single end.
#![tactic(auto)]

use sspi_ber::{StdSink, StdSource};
use sspi_channel::{ChannelError, Counted, end_of, end_of_file, end_without};
use sspi_credssp::End;
use sspi_program::ended::{command_in, ended, words_of};
use sspi_program::keeping::KeepingSource;
use sspi_program::reason::tell_reason;
use std::fs::File;
use std::io;
use std::process::ExitCode;

fn main(rt: HostRuntime) -> ExitCode {
    let alloc = rt.alloc();
    let words = words_of(&rt);
    if let Ok(words) = &words {
        if let Some((end, file)) = end_of(words) {
            return ExitCode::from(over_channel(&rt, end, file));
        }
    }
    let command = command_in(&words);
    let mut source = KeepingSource::new(alloc, StdSource::new(rt.reader()));
    let mut sink = StdSink::new(io::writer(&rt));
    let status = ended(alloc, words, &mut source, &mut sink);
    let mut errors = StdSink::new(rt.stderr());
    tell_reason(alloc, &mut errors, command, source.given(), status);
    ExitCode::from(status)
}

/// Runs one end of the scenario in a file over standard input and output; a line on standard error
/// gives its result.
fn over_channel(rt: &HostRuntime, end: End, file: &str) -> u8 {
    let alloc = rt.alloc();
    let mut told = StdSink::new(rt.stderr());
    let Ok(opened) = File::open(rt, file) else {
        return end_without(alloc, ChannelError::ReadFault, &mut told);
    };
    let mut text = StdSource::new(opened);
    let mut source = Counted::new(StdSource::new(rt.reader()));
    let mut sink = Counted::new(StdSink::new(io::writer(rt)));
    end_of_file(alloc, end, &mut text, &mut source, &mut sink, &mut told)
}
