//! Both ends over a mechanism that the host keeps.

use crate::delegation::{ann, carried, key, ntlm_config};
use crate::part::{Part, pair};
use sspi_credssp::{
    Acts, ClientMode, CredSspClient, CredSspMode, CredSspServer, CredSspState, ServerMode,
};
use sspi_names::{AuthIdentity, Credentials, Utf16Text};
use sspi_outside::{AnyPeer, ClientEnd, Last, Opened, Outside, Peers, ServerEnd, handed};
use sspi_tsreq::TsRequest;
use sspi_types::{Bytes, Error, ErrorKind, Reason};
use std::alloc::Global;

/// The host's context on one end: two steps, and then a key that both ends have. A real NTLM or
/// Kerberos would be here.
#[derive(Drop)]
pub(crate) struct Context {
    pub(crate) alloc: Global,
    user_to_user: bool,
    steps: u32,
    key: u8,
}

impl Context {
    pub(crate) fn new(alloc: Global) -> Context {
        Context {
            alloc,
            user_to_user: false,
            steps: 0,
            key: 0x5a,
        }
    }

    /// One that authenticates user-to-user, as Kerberos may.
    pub(crate) fn user_to_user(alloc: Global) -> Context {
        Context {
            alloc,
            user_to_user: true,
            steps: 0,
            key: 0x5a,
        }
    }

    fn status(&self) -> u8 {
        if self.steps > 0 {
            0
        } else if self.user_to_user {
            3
        } else {
            1
        }
    }

    /// The envelope of a step: whether the context has ended, and the token for the peer.
    pub(crate) fn step(&mut self) -> Result<Vec<u8>, Error> {
        let status = self.status();
        self.steps = self.steps.saturating_add(1);
        Ok(Vec::from_slice(self.alloc, &[status, b't'])?)
    }

    /// The same on a server, preceded by the peer's name once the context has ended.
    pub(crate) fn step_named(&mut self, name: &str) -> Result<Vec<u8>, Error> {
        let named = self.steps > 0;
        let step = self.step()?;
        let name = Utf16Text::from_str(self.alloc, if named { name } else { "" })?.to_bytes_le(
            self.alloc,
        )?;
        let mut envelope = Vec::from_slice(
            self.alloc,
            &[(name.len() % 256) as u8, (name.len() / 256 % 256) as u8],
        )?;
        envelope.extend_from_slice(&name)?;
        envelope.extend_from_slice(&step)?;
        Ok(envelope)
    }

    /// Whether the second step, which is the last, was made.
    pub(crate) fn has_ended(&self) -> bool {
        self.steps > 1
    }

    fn seal(&self, text: &[u8]) -> Result<Vec<u8>, Error> {
        let mut blob = Vec::from_slice(self.alloc, b"0123456789abcdef")?;
        for byte in text {
            blob.push(*byte ^ self.key)?;
        }
        Ok(blob)
    }

    /// The MIC of a text.
    pub(crate) fn sign(&self, text: &[u8]) -> Result<Vec<u8>, Error> {
        let mut mic = Vec::from_slice(self.alloc, b"fedcba9876543210")?;
        for byte in text {
            mic.push(*byte ^ self.key)?;
        }
        Ok(mic)
    }

    /// The text of a blob; none if the peer did not seal it.
    pub(crate) fn open(&self, blob: &Option<Bytes>) -> Result<Option<Vec<u8>>, Error> {
        let Some(blob) = blob else {
            return Ok(None);
        };
        let Some(sealed) = blob.as_slice().strip_prefix(b"0123456789abcdef") else {
            return Ok(None);
        };
        let mut text = Vec::new(self.alloc);
        for byte in sealed {
            text.push(*byte ^ self.key)?;
        }
        Ok(Some(text))
    }
}

/// The message to send for the call that was made, with the text that the end made sealed.
pub(crate) fn sealed(context: &Context, last: &Last, acts: Acts) -> Result<TsRequest, Error> {
    let owed = last.owed(acts);
    let blob = match last.text(owed) {
        Some(text) => context.seal(text)?,
        None => Vec::new(context.alloc),
    };
    match last.sent(context.alloc, owed, &blob)? {
        Some(message) => Ok(message),
        None => Err(Error::new(ErrorKind::OutOfSequence, Reason::Sequence)),
    }
}

/// The client's turn: a step if a token is due, and the server's proof opened if that is due.
fn client_turn(
    context: &mut Context,
    end: &mut ClientEnd<Outside, Outside>,
    came: TsRequest,
) -> Result<TsRequest, Error> {
    let (step, proof) = match end.client.state() {
        CredSspState::NegoToken => (context.step()?, None),
        _ => (Vec::new(context.alloc), context.open(&came.pub_key_auth)?),
    };
    let opened = match &proof {
        Some(proof) => Opened::PubKeyAuth(proof),
        None => Opened::Neither,
    };
    end.process(handed(context.alloc, came, &step, opened)?)?;
    sealed(context, &end.last, end.client.last_acts())
}

/// The server's turn: a step and the client's proof opened, or the credentials opened.
fn server_turn(
    context: &mut Context,
    end: &mut ServerEnd<Outside, Outside, Peers>,
    came: TsRequest,
) -> Result<(), Error> {
    if let CredSspState::AuthInfo = end.server.state() {
        let text = context.open(&came.auth_info)?;
        let opened = match &text {
            Some(text) => Opened::AuthInfo(text),
            None => Opened::Neither,
        };
        return end.process(handed(context.alloc, came, &[], opened)?);
    }
    let step = context.step_named("ann")?;
    let proof = context.open(&came.pub_key_auth)?;
    let opened = match &proof {
        Some(proof) => Opened::PubKeyAuth(proof),
        None => Opened::Neither,
    };
    end.process(handed(context.alloc, came, &step, opened)?)
}

/// Two ends, and the host's context on each.
#[derive(Drop)]
pub struct Ends {
    client: ClientEnd<Outside, Outside>,
    server: ServerEnd<Outside, Outside, Peers>,
    client_context: Context,
    server_context: Context,
}

fn client(alloc: Global) -> Result<ClientEnd<Outside, Outside>, Error> {
    let target = String::from_str(alloc, "TERMSRV/host")?;
    let key = key(alloc)?;
    let ann = ann(alloc)?;
    let config = ntlm_config(alloc)?;
    Ok(ClientEnd::new(CredSspClient::new(
        alloc,
        key,
        Credentials::AuthIdentity(ann),
        CredSspMode::WithCredentials,
        ClientMode::Ntlm(config),
        target,
        [7; 32],
    )))
}

/// A server that accepts whoever the host's mechanism names.
fn server(alloc: Global) -> Result<ServerEnd<Outside, Outside, Peers>, Error> {
    let key = key(alloc)?;
    let config = ntlm_config(alloc)?;
    let peers = Peers::Anyone(AnyPeer::new(alloc));
    Ok(ServerEnd::new(CredSspServer::new(alloc, key, peers, ServerMode::Ntlm(config))))
}

pub(crate) fn both(alloc: Global) -> Result<Ends, Error> {
    let (client, server) = pair(client(alloc), server(alloc))?;
    Ok(Ends {
        client,
        server,
        client_context: Context::new(alloc),
        server_context: Context::new(alloc),
    })
}

fn named(alloc: Global, identity: &AuthIdentity, sent: u32) -> Result<String, Error> {
    let name = identity.username.inner();
    Ok(format!(in alloc; "{name} in {sent} messages of the client")?)
}

impl Part for Ends {
    fn run(&mut self, alloc: Global) -> Result<String, Error> {
        let mut came = TsRequest::default();
        for sent in 1..=5u32 {
            let message = client_turn(&mut self.client_context, &mut self.client, came)?;
            server_turn(
                &mut self.server_context,
                &mut self.server,
                carried(alloc, &message)?,
            )?;
            if let Last::Finished(identity) = &self.server.last {
                return named(alloc, identity, sent);
            }
            let reply = sealed(
                &self.server_context,
                &self.server.last,
                self.server.server.last_acts(),
            )?;
            came = carried(alloc, &reply)?;
        }
        Err(Error::new(ErrorKind::OutOfSequence, Reason::Sequence))
    }
}
