//! The program of `sspi_run`, with a stored run of the server of a scenario over standard input and
//! output: it reads the messages of a recorded client and must write those of the recorded server.
//! A crate stores one run.
#![tactic(auto)]

use sspi_ber::{StdSink, StdSource};
use sspi_channel::{ChannelError, Counted, end_of, end_of_file, end_without};
use sspi_credssp::End;
use sspi_program::ended::{command_in, ended, words_of};
use sspi_program::keeping::KeepingSource;
use sspi_program::reason::tell_reason;
use std::fs::File;
use std::io;
use std::process::ExitCode;

fn main(rt: HostRuntime) -> ExitCode {
    let alloc = rt.alloc();
    let words = words_of(&rt);
    if let Ok(words) = &words {
        if let Some((end, file)) = end_of(words) {
            return ExitCode::from(over_channel(&rt, end, file));
        }
    }
    let command = command_in(&words);
    let mut source = KeepingSource::new(alloc, StdSource::new(rt.reader()));
    let mut sink = StdSink::new(io::writer(&rt));
    let status = ended(alloc, words, &mut source, &mut sink);
    let mut errors = StdSink::new(rt.stderr());
    tell_reason(alloc, &mut errors, command, source.given(), status);
    ExitCode::from(status)
}

/// Runs one end of the scenario in a file over standard input and output; a line on standard error
/// gives its result.
fn over_channel(rt: &HostRuntime, end: End, file: &str) -> u8 {
    let alloc = rt.alloc();
    let mut told = StdSink::new(rt.stderr());
    let Ok(opened) = File::open(rt, file) else {
        return end_without(alloc, ChannelError::ReadFault, &mut told);
    };
    let mut text = StdSource::new(opened);
    let mut source = Counted::new(StdSource::new(rt.reader()));
    let mut sink = Counted::new(StdSink::new(io::writer(rt)));
    end_of_file(alloc, end, &mut text, &mut source, &mut sink, &mut told)
}
