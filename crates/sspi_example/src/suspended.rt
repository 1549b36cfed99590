//! A delegation carried by hand, whose client asks a KDC: turns are suspended and resumed.

use crate::delegation::carried;
use crate::outside::{self, Directory, RemoteKdc};
use crate::part::{Part, pair};
use sspi_credssp::{
    ClientState, CredSspClient, CredSspServer, CredentialsProxy, Progress, ServerState,
};
use sspi_mech::{Kdc, KdcError, Kerberos, Mechanism, Ntlm, Reply};
use sspi_names::{AuthIdentity, NetworkRequest};
use sspi_tsreq::TsRequest;
use sspi_types::{Bytes, Error, ErrorKind, Reason};
use std::alloc::{AllocError, Global};

/// How many messages the client may send: a negotiation of Kerberos needs four.
const MESSAGES: u32 = 5;

/// The outcome of a client's request to its KDC. A KDC that was not reached is an outcome too: the
/// mechanism decides what its step does then.
fn reply_to<D: Kdc>(kdc: &mut D, request: &NetworkRequest) -> Result<Reply, Error> {
    match kdc.ask(request) {
        Ok(reply) => Ok(Reply::Answered(Bytes::from_vec(reply))),
        Err(KdcError::Failed) => Ok(Reply::Failed),
        Err(KdcError::InsufficientMemory) => Err(AllocError.into()),
    }
}

fn message_in(state: ClientState) -> TsRequest {
    match state {
        ClientState::ReplyNeeded(message) | ClientState::FinalMessage(message) => message,
    }
}

/// The client's next message. While its turn is suspended, the KDC is asked and the turn resumed.
fn message_of<N: Mechanism, K: Mechanism, D: Kdc>(
    client: &mut CredSspClient<N, K>,
    kdc: &mut D,
    delivered: TsRequest,
) -> Result<TsRequest, Error> {
    let mut progress = client.process(delivered)?;
    // the one that was asked, and those that may still come
    for _ in 0..=client.requests_left() {
        match progress {
            Progress::Completed(state) => return Ok(message_in(state)),
            Progress::Suspended(request) => {
                let reply = reply_to(kdc, &request)?;
                progress = client.resume(&reply)?;
            }
        }
    }
    match progress {
        Progress::Completed(state) => Ok(message_in(state)),
        Progress::Suspended(_) => Err(Error::new(ErrorKind::InternalError, Reason::Kdc)),
    }
}

/// The identity that the server has in the end, and how many messages the client sent.
fn carry<N: Mechanism, K: Mechanism, C: CredentialsProxy, D: Kdc>(
    alloc: Global,
    client: &mut CredSspClient<N, K>,
    server: &mut CredSspServer<N, K, C>,
    kdc: &mut D,
) -> Result<(AuthIdentity, u32), Error> {
    let mut delivered = TsRequest::default();
    for sent in 1..=MESSAGES {
        let message = message_of(client, kdc, delivered)?;
        match server.process(carried(alloc, &message)?) {
            Ok(ServerState::Finished(identity)) => return Ok((identity, sent)),
            Ok(ServerState::ReplyNeeded(reply)) => delivered = carried(alloc, &reply)?,
            Err(refusal) => return Err(refusal.error),
        }
    }
    Err(Error::new(ErrorKind::OutOfSequence, Reason::Sequence))
}

fn told(alloc: Global, answer: Result<(AuthIdentity, u32), Error>) -> Result<String, Error> {
    let (identity, sent) = answer?;
    let name = identity.username.inner();
    Ok(format!(in alloc; "{name} in {sent} messages, with a KDC asked between")?)
}

/// The two ends of a delegation, and the client's KDC.
#[derive(Drop)]
pub struct Ends<N, K, C, D> {
    client: CredSspClient<N, K>,
    server: CredSspServer<N, K, C>,
    kdc: D,
}

pub(crate) fn both(alloc: Global) -> Result<Ends<Ntlm, Kerberos, Directory, RemoteKdc>, Error> {
    let kdc = outside::remote_kdc(alloc)?;
    let (client, server) = pair(outside::client(alloc), outside::server(alloc))?;
    Ok(Ends {
        client,
        server,
        kdc,
    })
}

impl<N: Mechanism, K: Mechanism, C: CredentialsProxy, D: Kdc + Drop> Part for Ends<N, K, C, D> {
    fn run(&mut self, alloc: Global) -> Result<String, Error> {
        let answer = carry(alloc, &mut self.client, &mut self.server, &mut self.kdc);
        told(alloc, answer)
    }
}
