//! A link of one's own: a carrier below `KeptLink`, and a delegation over it.

use crate::delegation;
use crate::part::{Part, pair};
use sspi_credssp::{CredSspClient, CredSspServer, CredentialsProxy, TableProxy};
use sspi_delegate::{
    Carrier, DelegateError, Delegation, End, KeptLink, LinkError, Transcript, delegate,
};
use sspi_mech::{FailingKdc, Mechanism};
use sspi_types::{Error, ErrorKind, Reason};
use std::alloc::{AllocError, Global};

/// Passes each message to the other end in the same process. Between two machines `send` writes to
/// a socket and `receive` reads from one; each failure counts as one fault.
#[derive(Drop)]
pub struct Loopback {
    alloc: Global,
    message: Option<Vec<u8>>,
    taken: usize,
    faults: u64,
}

impl Carrier for Loopback {
    ghost faults = { λ carrier. carrier.faults };

    // this carrier claims nothing of what its calls do to it
    ghost sends = { λ _ _ _ _. Unit {0} };

    ghost receives = { λ _ _ _ _. Unit {0} };

    ghost refuses = { λ _ _ _. Unit {0} };

    fn send(&mut self, _from: End, sent: &[u8]) -> Result<(), LinkError> {
        self.message = Some(Vec::from_slice(self.alloc, sent)?);
        self.taken = 0;
        Ok(())
    }

    fn receive(&mut self, into: &mut [u8]) -> Result<usize, LinkError> {
        let Some(message) = &self.message else {
            // nothing was sent
            self.faults = self.faults.saturating_add(1);
            return Err(LinkError::Failed);
        };
        let rest = message.get(self.taken..).unwrap_or(&[]);
        let count = rest.len().min(into.len());
        into[..count].copy_from_slice(&rest[..count]);
        self.taken = self.taken.saturating_add(count);
        Ok(count)
    }
}

fn make_loopback(alloc: Global) -> Loopback {
    Loopback {
        alloc,
        message: None,
        taken: 0,
        faults: 0,
    }
}

/// At most five messages of the client, over this carrier. Plain NTLM asks no KDC.
fn delegate_over<N: Mechanism, K: Mechanism, C: CredentialsProxy, R: Carrier>(
    alloc: Global,
    client: &mut CredSspClient<N, K>,
    server: &mut CredSspServer<N, K, C>,
    carrier: R,
) -> Result<Delegation, DelegateError> {
    let mut link = KeptLink::new(alloc, carrier);
    let mut kdc = FailingKdc::new();
    let mut transcript = Transcript::new(alloc);
    delegate(
        alloc,
        client,
        server,
        &mut link,
        &mut kdc,
        5,
        &mut transcript,
    )
}

fn told(alloc: Global, answer: Result<Delegation, DelegateError>) -> Result<String, Error> {
    match answer {
        Ok(delegation) => {
            let name = delegation.credentials.username.inner();
            let turns = delegation.rounds;
            Ok(format!(in alloc; "{name} in {turns} messages over a carrier")?)
        }
        Err(DelegateError::Client(error) | DelegateError::Server(error)) => Err(error),
        Err(DelegateError::InsufficientMemory) => Err(AllocError.into()),
        Err(_) => Err(Error::new(ErrorKind::InternalError, Reason::Io)),
    }
}

/// The two ends of a delegation over a carrier.
#[derive(Drop)]
pub struct Ends<M> {
    client: CredSspClient<M, M>,
    server: CredSspServer<M, M, TableProxy>,
}

pub(crate) fn both<M: Mechanism>(alloc: Global) -> Result<Ends<M>, Error> {
    let (client, server) = pair(delegation::client(alloc), delegation::server(alloc))?;
    Ok(Ends { client, server })
}

impl<M: Mechanism> Part for Ends<M> {
    fn run(&mut self, alloc: Global) -> Result<String, Error> {
        let carrier = make_loopback(alloc);
        told(
            alloc,
            delegate_over(alloc, &mut self.client, &mut self.server, carrier),
        )
    }
}
