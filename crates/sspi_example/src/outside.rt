//! What a delegation needs from outside: a KDC and a proxy of one's own, passed to `delegate`.
ghost use Rattle.std.specs.Prelude.{None};

use crate::delegation::{ann, key};
use crate::part::{Part, pair};
use sspi_credssp::{
    ClientMode, CredSspClient, CredSspMode, CredSspServer, CredentialsProxy, ProxyError, ServerMode,
};
use sspi_delegate::{DelegateError, Delegation, MemoryLink, Transcript, delegate};
use sspi_mech::{Kdc, KdcError, Kerberos, KerberosConfig, KerberosServerConfig, Ntlm, PlainKdc};
use sspi_names::{AuthIdentity, Credentials, KdcTable, NetworkRequest, Username};
use sspi_negotiate::{NegotiateConfig, ProtocolConfig};
use sspi_types::{Error, ErrorKind, Reason, Text};
use std::alloc::{AllocError, Global};

/// A KDC behind a channel. It exposes nothing of its replies, and counts its calls and those that
/// fail.
#[derive(Drop)]
pub struct RemoteKdc {
    peer: PlainKdc,
    asked: u64,
    faults: u64,
}

impl Kdc for RemoteKdc {
    ghost told = { λ _. None };

    ghost asked = { λ kdc. kdc.asked };

    ghost faults = { λ kdc. kdc.faults };

    fn ask(&mut self, request: &NetworkRequest) -> Result<Vec<u8>, KdcError> {
        self.asked = self.asked.saturating_add(1);
        // here `request.payload` goes to `request.url`, and its reply is awaited
        match self.peer.ask(request) {
            Ok(reply) => Ok(reply),
            Err(KdcError::InsufficientMemory) => Err(KdcError::InsufficientMemory),
            Err(KdcError::Failed) => {
                self.faults = self.faults.saturating_add(1);
                Err(KdcError::Failed)
            }
        }
    }
}

/// A directory of users, which knows only `ann`. It exposes nothing of its entries, and counts its
/// calls; none of them fails.
#[derive(Drop)]
pub struct Directory {
    alloc: Global,
    calls: u64,
}

impl Directory {
    fn is_ann(&self, username: &Username) -> bool {
        username.domain_name().is_none() && username.account_name().eq_ignore_ascii_case("ann")
    }
}

impl CredentialsProxy for Directory {
    ghost meaning = { record {
      told = λ _. record { entries = None; answers = λ _. None; failing = None };
      calls = λ directory. directory.calls;
      faults = λ _. 0;
    } };

    fn auth_data_by_user(&mut self, username: &Username) -> Result<AuthIdentity, ProxyError> {
        self.calls = self.calls.saturating_add(1);
        if !self.is_ann(username) {
            return Err(ProxyError::NotFound);
        }
        // an identity is looked up here
        match ann(self.alloc) {
            Ok(identity) => Ok(identity),
            Err(_) => Err(ProxyError::InsufficientMemory),
        }
    }

    fn auth_data_candidates_by_user(
        &mut self,
        username: &Username,
    ) -> Result<Vec<AuthIdentity>, ProxyError> {
        self.calls = self.calls.saturating_add(1);
        let mut found = Vec::new(self.alloc);
        if !self.is_ann(username) {
            return Ok(found);
        }
        match with_ann(self.alloc, &mut found) {
            Ok(()) => Ok(found),
            Err(_) => Err(ProxyError::InsufficientMemory),
        }
    }

    fn auth_data(&mut self) -> Result<Vec<AuthIdentity>, ProxyError> {
        self.calls = self.calls.saturating_add(1);
        let mut all = Vec::new(self.alloc);
        match with_ann(self.alloc, &mut all) {
            Ok(()) => Ok(all),
            Err(_) => Err(ProxyError::InsufficientMemory),
        }
    }
}

fn with_ann(alloc: Global, identities: &mut Vec<AuthIdentity>) -> Result<(), Error> {
    let ann = ann(alloc)?;
    identities.push(ann)?;
    Ok(())
}

fn kerberos_config(alloc: Global) -> Result<KerberosConfig, AllocError> {
    let client_computer_name = Text::from_text(alloc, "HOST")?;
    Ok(KerberosConfig {
        kdc_url: Some(Text::from_text(alloc, "tcp://kdc.example.com")?),
        kdcs: KdcTable::new(alloc),
        client_computer_name,
    })
}

fn negotiation(alloc: Global, begins_with: ProtocolConfig) -> Result<NegotiateConfig, AllocError> {
    Ok(NegotiateConfig::from_protocol_config(
        begins_with,
        Text::from_text(alloc, "HOST")?,
        KdcTable::new(alloc),
    ))
}

/// A client that negotiates, beginning with Kerberos.
pub(crate) fn client(alloc: Global) -> Result<CredSspClient<Ntlm, Kerberos>, Error> {
    let key = key(alloc)?;
    let target = String::from_str(alloc, "TERMSRV/host")?;
    let ann = ann(alloc)?;
    let begins_with = ProtocolConfig::Kerberos(kerberos_config(alloc)?);
    let config = negotiation(alloc, begins_with)?;
    Ok(CredSspClient::new(
        alloc,
        key,
        Credentials::AuthIdentity(ann),
        CredSspMode::WithCredentials,
        ClientMode::Negotiate(config),
        target,
        [7; 32],
    ))
}

/// A server that negotiates, and authenticates user-to-user with its ticket.
pub(crate) fn server(alloc: Global) -> Result<CredSspServer<Ntlm, Kerberos, Directory>, Error> {
    let ticket = KerberosServerConfig {
        ticket: Some([9; 32]),
    };
    let key = key(alloc)?;
    let begins_with = ProtocolConfig::KerberosServer(kerberos_config(alloc)?, ticket);
    let config = negotiation(alloc, begins_with)?;
    let directory = Directory { alloc, calls: 0 };
    Ok(CredSspServer::new(alloc, key, directory, ServerMode::Negotiate(config)))
}

pub(crate) fn remote_kdc(alloc: Global) -> Result<RemoteKdc, Error> {
    let mut users = Vec::new(alloc);
    users.push(Text::from_text(alloc, "ann")?)?;
    Ok(RemoteKdc {
        peer: PlainKdc::new(alloc, users, Vec::new(alloc)),
        asked: 0,
        faults: 0,
    })
}

/// At most five messages of the client, over a link in memory.
fn exchange(
    alloc: Global,
    client: &mut CredSspClient<Ntlm, Kerberos>,
    server: &mut CredSspServer<Ntlm, Kerberos, Directory>,
    kdc: &mut RemoteKdc,
) -> Result<Delegation, DelegateError> {
    let mut link = MemoryLink::new(alloc, Vec::new(alloc));
    let mut transcript = Transcript::new(alloc);
    delegate(alloc, client, server, &mut link, kdc, 5, &mut transcript)
}

fn told(
    alloc: Global,
    answer: Result<Delegation, DelegateError>,
    asked: u64,
) -> Result<String, Error> {
    match answer {
        Ok(delegation) => {
            let name = delegation.credentials.username.inner();
            let turns = delegation.rounds;
            Ok(format!(in alloc; "{name} in {turns} messages, the KDC asked {asked} times")?)
        }
        Err(DelegateError::Client(error) | DelegateError::Server(error)) => Err(error),
        Err(DelegateError::InsufficientMemory) => Err(AllocError.into()),
        Err(_) => Err(Error::new(ErrorKind::InternalError, Reason::Io)),
    }
}

/// The two ends of a delegation.
#[derive(Drop)]
pub struct Ends {
    client: CredSspClient<Ntlm, Kerberos>,
    server: CredSspServer<Ntlm, Kerberos, Directory>,
}

pub(crate) fn both(alloc: Global) -> Result<Ends, Error> {
    let (client, server) = pair(client(alloc), server(alloc))?;
    Ok(Ends { client, server })
}

impl Part for Ends {
    fn run(&mut self, alloc: Global) -> Result<String, Error> {
        let mut kdc = remote_kdc(alloc)?;
        let answer = exchange(alloc, &mut self.client, &mut self.server, &mut kdc);
        told(alloc, answer, kdc.asked)
    }
}
