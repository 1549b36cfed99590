//! How statuses and refusals are displayed.

use sspi_types::{Error, ErrorKind, NStatusCode, Reason, SecurityPackageType};
use std::alloc::AllocError;
use std::process::Abort;

fn is(rt: &impl Abort, text: Result<String, AllocError>, expected: &str) {
    match text {
        Ok(text) => assert!(rt; text.as_str() == expected, "{expected}"),
        Err(_) => assert!(rt; false),
    }
}

#[test]
fn statuses_are_displayed(rt: HostRuntime) {
    let alloc = rt.alloc();
    let named = NStatusCode::LOGON_FAILURE;
    let unnamed = NStatusCode(0xC00700EA);
    is(
        &rt,
        format!(in alloc; "{named}"),
        "STATUS_LOGON_FAILURE [0xc000006d]",
    );
    is(
        &rt,
        format!(in alloc; "{unnamed}"),
        "NSTATUS code 0xc00700ea",
    );
    is(
        &rt,
        format!(in alloc; "{named:?}"),
        "NStatusCode(0xc000006d)",
    );
    is(
        &rt,
        format!(in alloc; "{}", NStatusCode::SUCCESS),
        "STATUS_SUCCESS [0x0]",
    );
}

#[test]
fn refusals_are_displayed(rt: HostRuntime) {
    let alloc = rt.alloc();
    let bare = Error::new(ErrorKind::Unknown, Reason::Package);
    let status = NStatusCode::LOGON_FAILURE;
    let with_status = Error::new_with_nstatus(ErrorKind::InvalidToken, Reason::ErrorStatus, status);
    is(
        &rt,
        format!(in alloc; "{bare}"),
        "Unknown: queried info about unknown package",
    );
    is(
        &rt,
        format!(in alloc; "{with_status}"),
        "InvalidToken: CredSSP server returned an error status; status is STATUS_LOGON_FAILURE [0xc000006d]",
    );
    is(
        &rt,
        format!(in alloc; "{with_status:?}"),
        "Error { error_type: InvalidToken, description: ErrorStatus, nstatus: Some(NStatusCode(0xc000006d)) }",
    );
    is(
        &rt,
        format!(in alloc; "{}", SecurityPackageType::Ntlm),
        "NTLM",
    );
}
