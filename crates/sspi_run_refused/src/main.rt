//! The program of `sspi_run`, with a stored run that is refused: the version of a message was
//! changed in transit, so the server refuses it as `MessageAltered`, and the process exits with 1.
//! A crate stores one run.
#![tactic(auto)]

use sspi_ber::{StdSink, StdSource};
use sspi_program::ended::{command_in, ended, words_of};
use sspi_program::keeping::KeepingSource;
use sspi_program::reason::tell_reason;
use std::io;
use std::process::ExitCode;

fn main(rt: HostRuntime) -> ExitCode {
    let alloc = rt.alloc();
    let words = words_of(&rt);
    let command = command_in(&words);
    let mut source = KeepingSource::new(alloc, StdSource::new(rt.reader()));
    let mut sink = StdSink::new(io::writer(&rt));
    let status = ended(alloc, words, &mut source, &mut sink);
    let mut errors = StdSink::new(rt.stderr());
    tell_reason(alloc, &mut errors, command, source.given(), status);
    ExitCode::from(status)
}
