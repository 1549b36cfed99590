//! A client and a server of a delegation, whose messages are carried by hand.

use crate::part::{Part, pair};
use sspi_ber::VecSink;
use sspi_credssp::{
    ClientMode, ClientState, CredSspClient, CredSspMode, CredSspServer, CredentialsProxy, Progress,
    ServerMode, ServerState, TableProxy,
};
use sspi_mech::{Mechanism, NtlmConfig};
use sspi_names::{AuthIdentity, Credentials, Username};
use sspi_tsreq::TsRequest;
use sspi_types::{Error, ErrorKind, Reason, Secret, Text};
use std::alloc::{AllocError, Global};

/// How many messages the client may send: plain NTLM needs three.
const MESSAGES: u32 = 5;

/// The user `ann`, as the client delegates it and as the server's table knows it.
pub(crate) fn ann(alloc: Global) -> Result<AuthIdentity, Error> {
    let username = Username::parse(alloc, "ann")?;
    let password = Secret::from(Text::from_text(alloc, "pw")?);
    Ok(AuthIdentity { username, password })
}

/// The SubjectPublicKey of the TLS channel's certificate: both ends see the same.
pub(crate) fn key(alloc: Global) -> Result<Vec<u8>, AllocError> {
    Vec::from_slice(alloc, &[1, 2, 3])
}

pub(crate) fn ntlm_config(alloc: Global) -> Result<NtlmConfig, AllocError> {
    Ok(NtlmConfig::new(Text::from_text(alloc, "HOST")?))
}

/// The nonce is the client's own: use fresh random bytes for each.
pub(crate) fn client<M: Mechanism>(alloc: Global) -> Result<CredSspClient<M, M>, Error> {
    let key = key(alloc)?;
    let target = String::from_str(alloc, "TERMSRV/host")?;
    let ann = ann(alloc)?;
    let config = ntlm_config(alloc)?;
    Ok(CredSspClient::new(
        alloc,
        key,
        Credentials::AuthIdentity(ann),
        CredSspMode::WithCredentials,
        ClientMode::Ntlm(config),
        target,
        [7; 32],
    ))
}

pub(crate) fn server<M: Mechanism>(
    alloc: Global,
) -> Result<CredSspServer<M, M, TableProxy>, Error> {
    let key = key(alloc)?;
    let mut known = Vec::new(alloc);
    known.push(ann(alloc)?)?;
    let config = ntlm_config(alloc)?;
    let proxy = TableProxy::new(alloc, known, Vec::new(alloc));
    Ok(CredSspServer::new(alloc, key, proxy, ServerMode::Ntlm(config)))
}

/// What the peer reads of a message, once its bytes have passed over the channel.
pub(crate) fn carried(alloc: Global, message: &TsRequest) -> Result<TsRequest, Error> {
    let mut wire = VecSink::new(alloc);
    message.encode_ts_request(&mut wire)?;
    Ok(TsRequest::from_buffer(alloc, wire.written())?)
}

/// The client's next message. Plain NTLM asks no KDC, so no turn is suspended.
fn message_of<N: Mechanism, K: Mechanism>(
    client: &mut CredSspClient<N, K>,
    delivered: TsRequest,
) -> Result<TsRequest, Error> {
    match client.process(delivered)? {
        Progress::Completed(ClientState::ReplyNeeded(message)) => Ok(message),
        Progress::Completed(ClientState::FinalMessage(message)) => Ok(message),
        Progress::Suspended(_) => Err(Error::new(ErrorKind::InternalError, Reason::Kdc)),
    }
}

/// A round: the client's message to the server, and the server's answer.
fn round<N: Mechanism, K: Mechanism, C: CredentialsProxy>(
    alloc: Global,
    client: &mut CredSspClient<N, K>,
    server: &mut CredSspServer<N, K, C>,
    delivered: TsRequest,
) -> Result<ServerState, Error> {
    let message = message_of(client, delivered)?;
    match server.process(carried(alloc, &message)?) {
        Ok(state) => Ok(state),
        // `refusal.ts_request` is for the client, whose refusal has its code, if any, as status
        Err(refusal) => Err(refusal.error),
    }
}

/// The identity that the server has in the end, and how many messages the client sent.
fn carry<N: Mechanism, K: Mechanism, C: CredentialsProxy>(
    alloc: Global,
    client: &mut CredSspClient<N, K>,
    server: &mut CredSspServer<N, K, C>,
) -> Result<(AuthIdentity, u32), Error> {
    // the client's first turn has no message to read
    let mut delivered = TsRequest::default();
    for sent in 1..=MESSAGES {
        match round(alloc, client, server, delivered)? {
            ServerState::Finished(identity) => return Ok((identity, sent)),
            ServerState::ReplyNeeded(reply) => delivered = carried(alloc, &reply)?,
        }
    }
    Err(Error::new(ErrorKind::OutOfSequence, Reason::Sequence))
}

fn told(alloc: Global, answer: Result<(AuthIdentity, u32), Error>) -> Result<String, Error> {
    let (identity, sent) = answer?;
    let name = identity.username.inner();
    Ok(format!(in alloc; "{name} in {sent} messages of the client")?)
}

/// The two ends of a delegation.
#[derive(Drop)]
pub struct Ends<M> {
    client: CredSspClient<M, M>,
    server: CredSspServer<M, M, TableProxy>,
}

pub(crate) fn both<M: Mechanism>(alloc: Global) -> Result<Ends<M>, Error> {
    let (client, server) = pair(client(alloc), server(alloc))?;
    Ok(Ends { client, server })
}

impl<M: Mechanism> Part for Ends<M> {
    fn run(&mut self, alloc: Global) -> Result<String, Error> {
        told(alloc, carry(alloc, &mut self.client, &mut self.server))
    }
}
