//! The result of an end's last call, and what of it is sent.
ghost use Rattle.std.specs.Prelude.{◌≡◌, Ok, Some, IfOk, option_copied};
ghost use Rattle.sspi_outside.specs.Hosting.{message_of, owed_text, refusing, sealed_by, sent};
ghost use Rattle.sspi_outside.specs.Hosting.{text_of};

use crate::envelope::read_text;
use sspi_credssp::{Acts, ClientState, Progress, ServerError, ServerState};
use sspi_names::{AuthIdentity, NetworkRequest};
use sspi_tsreq::TsRequest;
use sspi_types::{Bytes, Error};
use std::alloc::{AllocError, Global};

/// The result of an end's last call.
#[derive(Drop)]
pub enum Last {
    /// There was none.
    Nothing,
    /// A message for the peer, whose answer the end waits for.
    Reply(TsRequest),
    /// A client's last message, which carries its credentials.
    Final(TsRequest),
    /// A server has the credentials that the client delegated.
    Finished(AuthIdentity),
    /// A client's turn waits for a KDC.
    Asks(NetworkRequest),
    /// A refusal, and a server's message that tells its client.
    Refused(Error, Option<TsRequest>),
}

/// Which text the host has yet to seal.
#[derive(Clone, Copy, Debug, PartialEq, Eq)]
pub enum Owed {
    /// None.
    Neither,
    /// The end's proof of the channel's key.
    PubKeyAuth,
    /// The client's credentials.
    AuthInfo,
}

impl Last {
    ghost use Rattle.sspi_outside.specs.Hosting.{client_last, server_last, owed_of};

    pub(crate) fn of_client(progress: Progress) -> Last
        ensures { result ≡ client_last (Ok progress) }
    {
        match progress {
            Progress::Suspended(question) => Last::Asks(question),
            Progress::Completed(ClientState::ReplyNeeded(message)) => Last::Reply(message),
            Progress::Completed(ClientState::FinalMessage(message)) => Last::Final(message),
        }
    }

    pub(crate) fn of_server(state: ServerState) -> Last
        ensures { result ≡ server_last (Ok state) }
    {
        match state {
            ServerState::ReplyNeeded(message) => Last::Reply(message),
            ServerState::Finished(identity) => Last::Finished(identity),
        }
    }

    /// Which text of the message the call made and the host has yet to seal.
    pub fn owed(&self, acts: Acts) -> Owed
        ensures { result ≡ owed_of acts self.now }
    {
        match self {
            Last::Reply(_) if acts.proved => Owed::PubKeyAuth,
            Last::Final(_) if acts.sealed => Owed::AuthInfo,
            _ => Owed::Neither,
        }
    }

    /// The message as the end made it, if there is one.
    pub fn message(&self) -> Option<&TsRequest>
        ensures { option_copied result ≡ message_of self.now }
    {
        match self {
            Last::Reply(message) => Some(message),
            Last::Final(message) => Some(message),
            Last::Refused(_, message) => message.as_ref(),
            Last::Nothing => None,
            Last::Finished(_) => None,
            Last::Asks(_) => None,
        }
    }

    /// The text that the host has to seal; `None` if nothing is owed.
    pub fn text(&self, owed: Owed) -> Option<&[u8]>
        ensures { option_copied result ≡ owed_text owed (message_of self.now) }
    {
        let message = self.message()?;
        match owed {
            Owed::Neither => None,
            Owed::PubKeyAuth => text_of(&message.pub_key_auth),
            Owed::AuthInfo => text_of(&message.auth_info),
        }
    }

    /// The message for the peer, with the sealed blob in place of the text that was owed, and with
    /// nothing that was received.
    pub fn sent(
        &self,
        alloc: Global,
        owed: Owed,
        blob: &[u8],
    ) -> Result<Option<TsRequest>, AllocError>
        ensures { IfOk result (λ message. message ≡ sent owed blob.now self.now) }
    {
        match self {
            Last::Reply(message) => Ok(Some(sealed(alloc, message, owed, blob)?)),
            Last::Final(message) => Ok(Some(sealed(alloc, message, owed, blob)?)),
            Last::Refused(_, Some(message)) => Ok(Some(refusing(message))),
            Last::Refused(_, None) => Ok(None),
            Last::Nothing => Ok(None),
            Last::Finished(_) => Ok(None),
            Last::Asks(_) => Ok(None),
        }
    }
}

pub(crate) fn text_of(blob: &Option<Bytes>) -> Option<&[u8]>
    ensures { option_copied result ≡ text_of blob.now }
{
    match blob {
        Some(blob) => read_text(blob.as_slice()),
        None => None,
    }
}

fn copy_of(alloc: Global, bytes: &Option<Bytes>) -> Result<Option<Bytes>, AllocError>
    ensures { IfOk result (λ copy. copy ≡ bytes.now) }
{
    match bytes {
        Some(bytes) => Ok(Some(bytes.clone(alloc)?)),
        None => Ok(None),
    }
}

fn sealed(
    alloc: Global,
    message: &TsRequest,
    owed: Owed,
    blob: &[u8],
) -> Result<TsRequest, AllocError>
    ensures { IfOk result (λ it. it ≡ sealed_by owed blob.now message.now) }
{
    let nego_tokens = copy_of(alloc, &message.nego_tokens)?;
    let mut sealed = TsRequest {
        version: message.version,
        nego_tokens,
        auth_info: None,
        pub_key_auth: None,
        error_code: message.error_code,
        client_nonce: message.client_nonce,
    };
    match owed {
        Owed::Neither => {}
        Owed::PubKeyAuth => sealed.pub_key_auth = Some(Bytes::from_slice(alloc, blob)?),
        Owed::AuthInfo => sealed.auth_info = Some(Bytes::from_slice(alloc, blob)?),
    }
    Ok(sealed)
}

fn refusing(message: &TsRequest) -> TsRequest
    ensures { Some result ≡ refusing (Some message.now) }
{
    TsRequest {
        version: message.version,
        nego_tokens: None,
        auth_info: None,
        pub_key_auth: None,
        error_code: message.error_code,
        client_nonce: message.client_nonce,
    }
}
