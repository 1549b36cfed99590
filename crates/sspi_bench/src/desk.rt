//! The benchmark of a desk: calls on many server sessions.

ghost use Rattle.std.specs.Prelude.{◌<◌};

use crate::sums::{given_up, sum_of_text};
use sspi_credssp::{CredSspServer, CredentialsProxy, ServerMode, TableProxy};
use sspi_desk::{Desk, DeskError, Served};
use sspi_mech::{Kerberos, Mechanism, Ntlm, NtlmConfig};
use sspi_types::Text;
use std::alloc::{AllocError, Global};

type PlainServer = CredSspServer<Ntlm, Kerberos, TableProxy>;

type PlainDesk = Desk<Ntlm, Kerberos, TableProxy>;

/// Has a desk of this many sessions of plain NTLM serve these bytes `times` times, one session
/// after the other.
pub(crate) fn repeat(
    alloc: Global,
    sessions: u32,
    bytes: &[u8],
    times: u32,
) -> Result<u64, AllocError>
    requires { 0 < sessions }
{
    let mut desk = PlainDesk::new(alloc, sessions);
    let filled = fill(alloc, sessions, &mut desk);
    sum_of_calls(desk, filled, sessions, bytes, times)
}

/// Admits one server for each session.
fn fill(alloc: Global, sessions: u32, desk: &mut PlainDesk) -> Result<(), AllocError> {
    for _ in 0..sessions {
        admit(desk, server(alloc)?)?;
    }
    Ok(())
}

/// A server with the key 010203 and a challenge of zeros, which knows nobody.
fn server(alloc: Global) -> Result<PlainServer, AllocError> {
    let key = Vec::from_slice(alloc, &[1, 2, 3])?;
    let config = NtlmConfig::new(Text::from_text(alloc, "SERVER")?);
    Ok(CredSspServer::new(
        alloc,
        key,
        TableProxy::new(alloc, Vec::new(alloc), Vec::new(alloc)),
        ServerMode::Ntlm(config),
    ))
}

/// Generic, like the next function: dropping a server of type parameters is one step of a proof.
fn admit<N: Mechanism, K: Mechanism, C: CredentialsProxy>(
    desk: &mut Desk<N, K, C>,
    server: CredSspServer<N, K, C>,
) -> Result<(), AllocError> {
    if desk.admitted() == u64::MAX {
        return given_up(server, AllocError);
    }
    match desk.admit(server) {
        Ok(_) => Ok(()),
        Err(server) => given_up(server, AllocError),
    }
}

fn sum_of_calls<N: Mechanism, K: Mechanism, C: CredentialsProxy>(
    desk: Desk<N, K, C>,
    filled: Result<(), AllocError>,
    sessions: u32,
    bytes: &[u8],
    times: u32,
) -> Result<u64, AllocError>
    requires { 0 < sessions }
{
    filled?;
    let mut desk = desk;
    let mut sum = 0u64;
    for call in 0..times {
        let answer = desk.serve(u64::from(call % sessions), bytes);
        sum = sum.wrapping_add(sum_of(&answer));
    }
    Ok(sum)
}

/// The sum of the bytes that are answered, or of those that report a refusal.
fn sum_of(answer: &Result<Served, DeskError>) -> u64 {
    match answer {
        Ok(Served::Answer(text)) => sum_of_text(text.as_slice()),
        Err(DeskError::Refused(_, Some(text))) => sum_of_text(text.as_slice()),
        _ => 0,
    }
}
