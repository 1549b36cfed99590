//! Two contexts authenticate, and then protect messages.

use crate::delegation::{ann, ntlm_config};
use crate::part::{Part, pair};
use bitflags::Flags;
use sspi_credssp::SspiContext;
use sspi_mech::{
    AcceptSecurityContext, InitializeSecurityContext, MechConfig, Mechanism, Ntlm, Progressing,
};
use sspi_names::{Credentials, CredentialsBuffers};
use sspi_types::{
    BufferType, Bytes, ClientRequestFlags, CredentialUse, DataRepresentation, EncryptionFlags,
    Error, ErrorKind, Reason, SecurityBuffer, ServerRequestFlags,
};
use std::alloc::Global;

type Context = SspiContext<Ntlm, Ntlm>;

fn context(alloc: Global) -> Result<Context, Error> {
    let config = ntlm_config(alloc)?;
    Ok(SspiContext::Ntlm(Ntlm::make(alloc, &MechConfig::Ntlm(&config))?))
}

/// The handle through which the client's steps get its credentials.
fn acquire(alloc: Global, client: &mut Context) -> Result<Option<CredentialsBuffers>, Error> {
    let ann = Credentials::AuthIdentity(ann(alloc)?);
    client.acquire_credentials_handle(CredentialUse::Outbound, Some(&ann))
}

/// The client's token in answer to the server's, which is empty at first.
fn initialize<'a>(
    client: &mut Context,
    handle: &'a Option<CredentialsBuffers>,
    input: &'a Bytes,
) -> Result<Bytes, Error> {
    match client.initialize_security_context(&InitializeSecurityContext {
        credentials_handle: handle.as_ref(),
        context_requirements: ClientRequestFlags::CONFIDENTIALITY,
        target_data_representation: DataRepresentation::Native,
        target_name: None,
        input: input.as_slice(),
    })? {
        Progressing::Done(step) => Ok(step.output),
        Progressing::Suspended(_) => Err(Error::new(ErrorKind::InternalError, Reason::Kdc)),
    }
}

/// The server's token in answer to the client's.
fn accept(server: &mut Context, input: &Bytes) -> Result<Bytes, Error> {
    let step = server.accept_security_context(&AcceptSecurityContext {
        credentials_handle: None,
        context_requirements: ServerRequestFlags::CONFIDENTIALITY,
        target_data_representation: DataRepresentation::Native,
        input: input.as_slice(),
    })?;
    Ok(step.output)
}

/// A token each way, and the client's last one.
fn exchange(
    alloc: Global,
    client: &mut Context,
    server: &mut Context,
    handle: &Option<CredentialsBuffers>,
) -> Result<(), Error> {
    let mut token = Bytes::new(alloc);
    for _ in 0..2 {
        token = initialize(client, handle, &token)?;
        token = accept(server, &token)?;
    }
    Ok(())
}

/// The server learns who its peer may be.
fn identify(alloc: Global, server: &mut Context) -> Result<(), Error> {
    server.custom_set_auth_identity(Credentials::AuthIdentity(ann(alloc)?))
}

/// Both have a key afterwards.
fn authenticate(alloc: Global, client: &mut Context, server: &mut Context) -> Result<(), Error> {
    let handle = acquire(alloc, client)?;
    exchange(alloc, client, server, &handle)?;
    identify(alloc, server)
}

/// The buffers of a message: Token takes the tag, Data has the text.
fn buffers(alloc: Global, text: &[u8]) -> Result<Vec<SecurityBuffer>, Error> {
    let mut message = Vec::new(alloc);
    message.push(SecurityBuffer::new(Vec::new(alloc), BufferType::Token))?;
    let text = Vec::from_slice(alloc, text)?;
    message.push(SecurityBuffer::new(text, BufferType::Data))?;
    Ok(message)
}

/// Seals a message at one end and opens it at the other: what is in Data then.
fn protected(alloc: Global, client: &mut Context, server: &mut Context) -> Result<String, Error> {
    let mut message = buffers(alloc, b"good morning")?;
    let _status = client.encrypt_message(EncryptionFlags::from_bits_retain(0), &mut message)?;
    let _flags = server.decrypt_message(&mut message)?;
    let data = SecurityBuffer::find_buffer(&message, BufferType::Data)?;
    Ok(String::from_utf8_lossy(alloc, data.buffer.as_slice())?)
}

/// The two ends of an authentication.
#[derive(Drop)]
pub struct Ends {
    client: Context,
    server: Context,
}

pub(crate) fn both(alloc: Global) -> Result<Ends, Error> {
    let (client, server) = pair(context(alloc), context(alloc))?;
    Ok(Ends { client, server })
}

impl Part for Ends {
    fn run(&mut self, alloc: Global) -> Result<String, Error> {
        authenticate(alloc, &mut self.client, &mut self.server)?;
        protected(alloc, &mut self.client, &mut self.server)
    }
}
