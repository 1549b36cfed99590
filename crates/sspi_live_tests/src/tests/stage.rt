//! The two ends of an exchange that was recorded, each over a channel of its own.

use crate::tests::recorded::Recorded;
use sspi_ber::{Sink, Source};
use sspi_credssp::{
    ClientMode, CredSspClient, CredSspServer, CredentialsProxy, ServerMode, TableProxy,
};
use sspi_delegate::{DelegateError, Delegation, Transcript};
use sspi_live::{connect, serve};
use sspi_mech::{FailingKdc, Mechanism, Ntlm, NtlmConfig};
use sspi_names::{AuthIdentity, Credentials, Username};
use sspi_tsreq::CredSspMode;
use sspi_types::{Error, ErrorKind, NStatusCode, Secret, Text};
use std::alloc::{AllocError, Global};
use std::process::Abort;

/// What was made. Generic, since dropping a value of a type parameter is one step.
pub fn given<T, E: Drop>(rt: &impl Abort, made: Result<T, E>) -> T {
    match made {
        Ok(value) => value,
        Err(_) => rt.abort(),
    }
}

/// Lends the value, then drops it. Generic, since dropping a value of a type parameter is one
/// step.
pub fn lend<A: Drop, R, F: FnOnce(&mut A) -> R>(value: A, act: F) -> R
    requires { F.IsAlwaysCallable act }
{
    let mut value = value;
    act(&mut value)
}

/// Lends both, then drops them. Generic for the same reason.
pub fn between<A: Drop, B: Drop, R, F: FnOnce(&mut A, &mut B) -> R>(
    first: A,
    second: B,
    act: F,
) -> R
    requires { F.IsAlwaysCallable act }
{
    let mut first = first;
    let mut second = second;
    act(&mut first, &mut second)
}

fn key(alloc: Global, (first, end): (usize, usize)) -> Result<Vec<u8>, AllocError> {
    let mut bytes = Vec::new(alloc);
    for number in first..end {
        bytes.push((number % 251) as u8)?;
    }
    Ok(bytes)
}

fn identity(alloc: Global) -> Result<AuthIdentity, Error> {
    let username = Username::parse(alloc, "DOM\\ann")?;
    let password = Secret::from(Text::from_text(alloc, "pw")?);
    Ok(AuthIdentity { username, password })
}

/// The client of this exchange, fresh.
pub fn client_of(alloc: Global, recorded: &Recorded) -> Result<CredSspClient<Ntlm, Ntlm>, Error> {
    let key = key(alloc, recorded.key)?;
    let target = String::from_str(alloc, "TERMSRV/host.example.com")?;
    let identity = identity(alloc)?;
    let config = NtlmConfig::new(Text::from_text(alloc, "CLIENT")?);
    let client = CredSspClient::new_with_version(
        alloc,
        key,
        Credentials::AuthIdentity(identity),
        CredSspMode::WithCredentials,
        recorded.versions.0,
        ClientMode::Ntlm(config),
        target,
        [0; 32],
    );
    Ok(client.with_least_version(recorded.least))
}

/// Its server, fresh, which knows the client's own identity.
pub fn server_of(
    alloc: Global,
    recorded: &Recorded,
) -> Result<CredSspServer<Ntlm, Ntlm, TableProxy>, Error> {
    let key = key(alloc, recorded.key)?;
    let config = NtlmConfig::new(Text::from_text(alloc, "SERVER")?);
    let mut known = Vec::new(alloc);
    known.push(identity(alloc)?)?;
    let server = CredSspServer::new_with_version(
        alloc,
        key,
        TableProxy::new(alloc, known, Vec::new(alloc)),
        recorded.versions.1,
        ServerMode::Ntlm(config),
    );
    Ok(server.with_least_version(recorded.least))
}

/// The result of one end, and the number of its turns.
#[derive(Drop)]
pub struct Came<T> {
    pub answer: Result<T, DelegateError>,
    pub turns: usize,
}

pub fn serves<N: Mechanism, K: Mechanism, C: CredentialsProxy, S: Source, W: Sink>(
    alloc: Global,
    server: &mut CredSspServer<N, K, C>,
    source: &mut S,
    sink: &mut W,
    limit: u32,
) -> Came<Delegation> {
    let mut transcript = Transcript::new(alloc);
    let answer = serve(alloc, server, source, sink, limit, &mut transcript);
    Came {
        answer,
        turns: transcript.turns().len(),
    }
}

pub fn connects<N: Mechanism, K: Mechanism, S: Source, W: Sink>(
    alloc: Global,
    client: &mut CredSspClient<N, K>,
    source: &mut S,
    sink: &mut W,
    limit: u32,
) -> Came<u32> {
    let mut transcript = Transcript::new(alloc);
    let answer = connect(
        alloc,
        client,
        source,
        sink,
        &mut FailingKdc::new(),
        limit,
        &mut transcript,
    );
    Came {
        answer,
        turns: transcript.turns().len(),
    }
}

/// The server of this exchange over a channel.
pub fn served<S: Source, W: Sink>(
    rt: &impl Abort,
    alloc: Global,
    recorded: &Recorded,
    source: &mut S,
    sink: &mut W,
    limit: u32,
) -> Came<Delegation> {
    let server = given(rt, server_of(alloc, recorded));
    lend(server, |server| serves(alloc, server, source, sink, limit))
}

/// The client of this exchange over a channel.
pub fn connected<S: Source, W: Sink>(
    rt: &impl Abort,
    alloc: Global,
    recorded: &Recorded,
    source: &mut S,
    sink: &mut W,
    limit: u32,
) -> Came<u32> {
    let client = given(rt, client_of(alloc, recorded));
    lend(
        client,
        |client| connects(alloc, client, source, sink, limit),
    )
}

/// The credentials of `DOM\ann` came, in this many turns.
pub fn delegates(rt: &impl Abort, came: &Came<Delegation>, turns: usize) {
    assert_eq!(rt; came.turns, turns);
    match &came.answer {
        Ok(delegation) => {
            assert_eq!(rt; delegation.rounds as usize, turns);
            assert!(rt; delegation.credentials.username.inner() == "DOM\\ann");
            assert!(rt; delegation.credentials.password.value.as_str() == "pw");
        }
        Err(_) => assert!(rt; false),
    }
}

/// The client sent its last message, in its third turn.
pub fn sends_all(rt: &impl Abort, came: &Came<u32>) {
    assert_eq!(rt; came.turns, 3);
    match &came.answer {
        Ok(rounds) => assert_eq!(rt; *rounds, 3),
        Err(_) => assert!(rt; false),
    }
}

/// This error came, after this many turns.
pub fn stops<T>(rt: &impl Abort, came: &Came<T>, turns: usize, wanted: DelegateError) {
    assert_eq!(rt; came.turns, turns);
    match &came.answer {
        Ok(_) => assert!(rt; false),
        Err(error) => assert_eq!(rt; *error, wanted),
    }
}

/// The end refused with this kind and this status.
pub fn refuses<T>(
    rt: &impl Abort,
    came: &Came<T>,
    turns: usize,
    kind: ErrorKind,
    status: Option<NStatusCode>,
) {
    assert_eq!(rt; came.turns, turns);
    match &came.answer {
        Err(DelegateError::Client(error)) | Err(DelegateError::Server(error)) => {
            assert!(rt; error.error_type == kind);
            assert!(rt; error.nstatus == status);
        }
        _ => assert!(rt; false),
    }
}
