//! A table of two clients for reports.

use super::{given, identity};
use sspi_credssp::{ClientMode, CredSspClient, CredSspMode, CredSspServer, ServerMode, TableProxy};
use sspi_mech::{FailingKdc, Kerberos, Ntlm, NtlmConfig};
use sspi_names::Credentials;
use sspi_report::seats_report;
use sspi_seats::{JoinError, Table};
use sspi_types::Text;
use std::alloc::Global;
use std::process::Abort;

type NtlmTable = Table<Ntlm, Kerberos, TableProxy, FailingKdc>;

/// The server of the second client knows nobody.
const TWO: &str = "session 0 ok 3 user=ann password=pw\nsession 1 server NoCredentials\n";

fn config(rt: &impl Abort, alloc: Global) -> NtlmConfig {
    NtlmConfig::new(given(rt, Text::from_text(alloc, "COMPUTER")))
}

fn key(rt: &impl Abort, alloc: Global) -> Vec<u8> {
    given(rt, Vec::from_slice(alloc, &[1, 2, 3]))
}

fn client(rt: &impl Abort, alloc: Global) -> CredSspClient<Ntlm, Kerberos> {
    CredSspClient::new(
        alloc,
        key(rt, alloc),
        Credentials::AuthIdentity(identity(rt, alloc, "ann", "pw")),
        CredSspMode::WithCredentials,
        ClientMode::Ntlm(config(rt, alloc)),
        given(rt, Text::from_text(alloc, "TERMSRV/host.example.com")).into_inner(),
        [0; 32],
    )
}

/// A server that knows the client's user, or nobody.
fn server(
    rt: &impl Abort,
    alloc: Global,
    knows: bool,
) -> CredSspServer<Ntlm, Kerberos, TableProxy> {
    let mut known = Vec::new(alloc);
    if knows {
        given(rt, known.push(identity(rt, alloc, "ann", "pw")));
    }
    CredSspServer::new(
        alloc,
        key(rt, alloc),
        TableProxy::new(alloc, known, Vec::new(alloc)),
        ServerMode::Ntlm(config(rt, alloc)),
    )
}

fn joins(
    rt: &impl Abort,
    alloc: Global,
    table: &mut NtlmTable,
    knows: bool,
    wanted: Result<(), JoinError>,
) {
    let found = table.join(
        client(rt, alloc),
        FailingKdc::new(),
        server(rt, alloc, knows),
    );
    assert_eq!(rt; found, wanted);
}

/// Lends a value, and then drops it. Generic, since dropping a value of a type parameter is one
/// step.
fn lend<T: Drop, R, F: FnOnce(&T) -> R>(value: T, act: F) -> R
    requires { F.IsAlwaysCallable act }
{
    act(&value)
}

#[test]
fn a_table_of_two(rt: HostRuntime) {
    let mut table = NtlmTable::new(rt.alloc(), 2);
    joins(&rt, rt.alloc(), &mut table, true, Ok(()));
    assert!(rt; !table.is_full());
    joins(&rt, rt.alloc(), &mut table, false, Ok(()));
    assert!(rt; table.is_full());
    joins(&rt, rt.alloc(), &mut table, true, Err(JoinError::Full));
    assert!(rt; table.is_full());
    let text = lend(given(&rt, table.finish(5)), |seats| {
        seats_report(rt.alloc(), seats.as_slice())
    });
    assert_eq!(rt; given(&rt, text).as_slice(), TWO.as_bytes());
}

#[test]
fn a_table_of_none(rt: HostRuntime) {
    let mut table = NtlmTable::new(rt.alloc(), 0);
    assert!(rt; table.is_full());
    joins(&rt, rt.alloc(), &mut table, true, Err(JoinError::Full));
    let count = lend(given(&rt, table.finish(5)), |seats| seats.as_slice().len());
    assert_eq!(rt; count, 0);
}
