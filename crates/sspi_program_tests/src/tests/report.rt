//! The report of a delegation, and the lines of seats, also of a table's.

mod entries;
mod outcomes;
mod seats;
mod table;

use sspi_delegate::{Carried, DelegateError, Delegation};
use sspi_names::{AuthIdentity, Username};
use sspi_report::report;
use sspi_types::{Error, ErrorKind, NStatusCode, Reason, Secret, Text};
use std::alloc::Global;
use std::process::Abort;

fn with_status(kind: ErrorKind, status: u32) -> Error {
    Error::new_with_nstatus(kind, Reason::Io, NStatusCode(status))
}

/// The value of a call that must not be refused.
fn given<T, E: Drop>(rt: &impl Abort, answer: Result<T, E>) -> T {
    match answer {
        Ok(value) => value,
        Err(_) => rt.abort(),
    }
}

fn identity(rt: &impl Abort, alloc: Global, name: &str, password: &str) -> AuthIdentity {
    let username = given(rt, Username::parse(alloc, name));
    let password = Secret::from(given(rt, Text::from_text(alloc, password)));
    AuthIdentity { username, password }
}

/// The report of this log and answer is this text.
fn reports(
    rt: &impl Abort,
    alloc: Global,
    log: &[Carried],
    answer: &Result<Delegation, DelegateError>,
    text: &str,
) {
    let written = given(rt, report(alloc, log, answer));
    assert_eq!(rt; written.as_slice(), text.as_bytes());
}
