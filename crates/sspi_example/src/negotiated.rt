//! Both ends with the negotiation of this repository over two mechanisms that the host keeps.

use crate::delegation::{ann, carried, key};
use crate::host::Context;
use crate::part::{Part, pair};
use sspi_credssp::{
    Acts, ClientMode, CredSspClient, CredSspMode, CredSspServer, CredSspState, ServerMode,
    TableProxy,
};
use sspi_names::Credentials;
use sspi_negotiate::PackageListConfig;
use sspi_negotiate::protocol::Protocol;
use sspi_outside::{
    ClientEnd, Course, Due, Last, Opened, Outside, Peers, ServerEnd, handed, handed_offer,
    handed_response, list_to_sign, negotiation, signed,
};
use sspi_tokens::{NegTokenInit, NegTokenTarg, encode_mech_types};
use sspi_tsreq::TsRequest;
use sspi_types::{Bytes, Error, ErrorKind, Reason};
use std::alloc::Global;

/// One end's host: its two contexts, and what it knows of its end's negotiation.
#[derive(Drop)]
struct Host {
    alloc: Global,
    ntlm: Context,
    kerberos: Context,
    course: Course,
    // how many MICs it found good
    verified: u32,
}

fn made_host(alloc: Global, packages: PackageListConfig) -> Host {
    Host {
        alloc,
        ntlm: Context::new(alloc),
        kerberos: Context::user_to_user(alloc),
        course: Course::new(alloc, packages, false),
        verified: 0,
    }
}

impl Host {
    fn step(&mut self, mechanism: Protocol) -> Result<Vec<u8>, Error> {
        match mechanism {
            Protocol::Ntlm => self.ntlm.step(),
            Protocol::Kerberos => self.kerberos.step(),
        }
    }

    fn step_named(&mut self, mechanism: Protocol, name: &str) -> Result<Vec<u8>, Error> {
        match mechanism {
            Protocol::Ntlm => self.ntlm.step_named(name),
            Protocol::Kerberos => self.kerberos.step_named(name),
        }
    }

    /// The context of the selected mechanism, which seals, opens, signs and verifies.
    fn selected(&self) -> &Context {
        match self.course.hand {
            Protocol::Ntlm => &self.ntlm,
            Protocol::Kerberos => &self.kerberos,
        }
    }

    /// A client's first step, which is not a SPNEGO token yet.
    fn first(&mut self) -> Result<Vec<u8>, Error> {
        self.course.address();
        let mechanism = self.course.hand;
        self.step(mechanism)
    }

    /// A client's first token, which the server reads.
    fn offer(&mut self, offer: &Bytes, name: &str) -> Result<Vec<u8>, Error> {
        let offer = NegTokenInit::decode(self.alloc, offer.as_slice())?;
        let due = mechanism_of(self.course.offer_due(&offer));
        self.course.take_offer(self.alloc, &offer)?;
        let step = match due {
            Some(mechanism) => self.step_named(mechanism, name)?,
            None => Vec::new(self.alloc),
        };
        handed_offer(self.alloc, offer, &step)?.encode(self.alloc)
    }

    /// A later token, whose MIC is verified: `step` is the envelope of the step that was made with
    /// it.
    fn response(&mut self, response: NegTokenTarg, step: &[u8]) -> Result<Vec<u8>, Error> {
        let list = encode_mech_types(self.alloc, &self.course.list)?;
        let good = match &response.mech_list_mic {
            Some(mic) => self.selected().sign(&list)?.as_slice() == mic.as_slice(),
            None => false,
        };
        self.verified = self.verified.saturating_add(u32::from(good));
        let verified = if good { Some(list.as_slice()) } else { None };
        handed_response(self.alloc, response, step, verified)?.encode(self.alloc)
    }

    /// A later token that a client reads, with its choice of mechanism, which is taken.
    fn answer(&mut self, token: &Bytes) -> Result<Vec<u8>, Error> {
        let response = NegTokenTarg::decode(self.alloc, token.as_slice())?;
        if !self.course.take_choice(&response) {
            return Err(Error::new(ErrorKind::InvalidToken, Reason::NoSharedMech));
        }
        let step = match mechanism_of(self.course.continuation_due(&response)) {
            Some(mechanism) => self.step(mechanism)?,
            None => Vec::new(self.alloc),
        };
        self.response(response, &step)
    }

    /// A later token that a server reads.
    fn continuation(&mut self, token: &Bytes, name: &str) -> Result<Vec<u8>, Error> {
        let response = NegTokenTarg::decode(self.alloc, token.as_slice())?;
        let step = match mechanism_of(self.course.continuation_due(&response)) {
            Some(mechanism) => self.step_named(mechanism, name)?,
            None => Vec::new(self.alloc),
        };
        self.response(response, &step)
    }

    /// Records what is known once the end has been called.
    fn go_on(&mut self, acts: Acts, offered: bool) -> Result<(), Error> {
        if offered {
            self.course.make_offer(self.alloc)?;
        } else if let Some(status) = acts.status {
            let ended = self.selected().has_ended();
            self.course.go_on(ended, status);
        }
        Ok(())
    }

    /// The token that is sent in place of the end's: with the host's MIC if the end signed.
    fn sent_token(&self, token: Bytes) -> Result<Bytes, Error> {
        let Ok(response) = NegTokenTarg::decode(self.alloc, token.as_slice()) else {
            return Ok(token);
        };
        let mic = match list_to_sign(&response) {
            Some(list) => self.selected().sign(list)?,
            None => return Ok(token),
        };
        let sent = signed(response, Bytes::from_vec(mic));
        Ok(Bytes::from_vec(sent.encode(self.alloc)?))
    }

    /// The message to send for the call that was made.
    fn sent(&self, last: &Last, acts: Acts) -> Result<TsRequest, Error> {
        let mut message = crate::host::sealed(self.selected(), last, acts)?;
        if let Some(token) = message.nego_tokens.take() {
            message.nego_tokens = Some(self.sent_token(token)?);
        }
        Ok(message)
    }
}

fn mechanism_of(due: Option<Due<'_>>) -> Option<Protocol> {
    match due {
        Some(due) => Some(due.mechanism),
        None => None,
    }
}

fn client_turn(
    host: &mut Host,
    end: &mut ClientEnd<Outside, Outside>,
    came: TsRequest,
    first: bool,
) -> Result<TsRequest, Error> {
    let token = match &came.nego_tokens {
        Some(token) => host.answer(token)?,
        None if first => host.first()?,
        None => Vec::new(host.alloc),
    };
    let proof = match end.client.state() {
        CredSspState::NegoToken => None,
        _ => host.selected().open(&came.pub_key_auth)?,
    };
    let opened = match &proof {
        Some(proof) => Opened::PubKeyAuth(proof),
        None => Opened::Neither,
    };
    end.process(handed(host.alloc, came, &token, opened)?)?;
    host.go_on(end.client.last_acts(), first)?;
    host.sent(&end.last, end.client.last_acts())
}

fn server_turn(
    host: &mut Host,
    end: &mut ServerEnd<Outside, Outside, Peers>,
    came: TsRequest,
    first: bool,
) -> Result<(), Error> {
    let token = match &came.nego_tokens {
        Some(token) if first => host.offer(token, "ann")?,
        Some(token) => host.continuation(token, "ann")?,
        None => Vec::new(host.alloc),
    };
    let text = match end.server.state() {
        CredSspState::AuthInfo => host.selected().open(&came.auth_info)?,
        _ => host.selected().open(&came.pub_key_auth)?,
    };
    let opened = match (&text, end.server.state()) {
        (Some(text), CredSspState::AuthInfo) => Opened::AuthInfo(text),
        (Some(text), _) => Opened::PubKeyAuth(text),
        (None, _) => Opened::Neither,
    };
    end.process(handed(host.alloc, came, &token, opened)?)?;
    host.go_on(end.server.last_acts(), false)
}

const NTLM: PackageListConfig = PackageListConfig {
    ntlm: true,
    kerberos: false,
};

const BOTH: PackageListConfig = PackageListConfig {
    ntlm: true,
    kerberos: true,
};

fn client(
    alloc: Global,
    packages: PackageListConfig,
) -> Result<ClientEnd<Outside, Outside>, Error> {
    let target = String::from_str(alloc, "TERMSRV/host")?;
    let key = key(alloc)?;
    let ann = ann(alloc)?;
    let config = negotiation(alloc, packages)?;
    Ok(ClientEnd::new(CredSspClient::new(
        alloc,
        key,
        Credentials::AuthIdentity(ann),
        CredSspMode::WithCredentials,
        ClientMode::Negotiate(config),
        target,
        [7; 32],
    )))
}

/// A server with one listed user: MICs are accepted from a peer in the list.
fn server(
    alloc: Global,
    packages: PackageListConfig,
) -> Result<ServerEnd<Outside, Outside, Peers>, Error> {
    let key = key(alloc)?;
    let mut known = Vec::new(alloc);
    known.push(ann(alloc)?)?;
    let peers = Peers::Listed(TableProxy::new(alloc, known, Vec::new(alloc)));
    let config = negotiation(alloc, packages)?;
    Ok(ServerEnd::new(CredSspServer::new(alloc, key, peers, ServerMode::Negotiate(config))))
}

/// Two ends, the host of each, and whether somebody between them changes the MICs.
#[derive(Drop)]
pub struct Ends {
    client: ClientEnd<Outside, Outside>,
    server: ServerEnd<Outside, Outside, Peers>,
    client_host: Host,
    server_host: Host,
    changed: bool,
}

fn made(
    alloc: Global,
    offered: PackageListConfig,
    allowed: PackageListConfig,
    changed: bool,
) -> Result<Ends, Error> {
    let (client, server) = pair(client(alloc, offered), server(alloc, allowed))?;
    Ok(Ends {
        client,
        server,
        client_host: made_host(alloc, offered),
        server_host: made_host(alloc, allowed),
        changed,
    })
}

pub(crate) fn both(alloc: Global) -> Result<Ends, Error> {
    made(alloc, NTLM, NTLM, false)
}

/// The same with a client that prefers Kerberos and a server that has only NTLM: another context of
/// the host takes the steps once NTLM is picked.
pub(crate) fn picked(alloc: Global) -> Result<Ends, Error> {
    made(alloc, BOTH, NTLM, false)
}

/// The same with both preferring Kerberos, whose context is user-to-user: the server needs MICs for
/// it too.
pub(crate) fn preferred(alloc: Global) -> Result<Ends, Error> {
    made(alloc, BOTH, BOTH, false)
}

/// The same with each MIC that is sent replaced by another.
pub(crate) fn changed(alloc: Global) -> Result<Ends, Error> {
    made(alloc, NTLM, NTLM, true)
}

fn change(alloc: Global, message: &mut TsRequest) -> Result<(), Error> {
    let Some(token) = &message.nego_tokens else {
        return Ok(());
    };
    let Ok(response) = NegTokenTarg::decode(alloc, token.as_slice()) else {
        return Ok(());
    };
    let other = signed(response, Bytes::from_slice(alloc, &[0; 32])?);
    message.nego_tokens = Some(Bytes::from_vec(other.encode(alloc)?));
    Ok(())
}

impl Ends {
    fn over_the_wire(&self, alloc: Global, message: TsRequest) -> Result<TsRequest, Error> {
        let mut message = message;
        if self.changed {
            change(alloc, &mut message)?;
        }
        carried(alloc, &message)
    }

    fn told(&self, alloc: Global, sent: u32) -> Result<String, Error> {
        let client = self.client_host.verified;
        let server = self.server_host.verified;
        Ok(format!(in alloc;
            "{sent} messages of the client, MICs verified: {client} and {server}"
        )?)
    }
}

impl Part for Ends {
    fn run(&mut self, alloc: Global) -> Result<String, Error> {
        let mut came = TsRequest::default();
        for sent in 1..=6u32 {
            let first = sent == 1;
            let message = client_turn(&mut self.client_host, &mut self.client, came, first)?;
            let message = self.over_the_wire(alloc, message)?;
            server_turn(&mut self.server_host, &mut self.server, message, first)?;
            if let Last::Finished(_) = &self.server.last {
                return self.told(alloc, sent);
            }
            let reply = self
                .server_host
                .sent(&self.server.last, self.server.server.last_acts())?;
            came = self.over_the_wire(alloc, reply)?;
        }
        Err(Error::new(ErrorKind::OutOfSequence, Reason::Sequence))
    }
}
