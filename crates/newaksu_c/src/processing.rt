//! Passes a message to an end.
ghost use Rattle.std.specs.Prelude.{◌≡◌, Some, option_map};
ghost use Rattle.sspi_outside.specs.Hosting.{credentials_opened, handed, proof_opened};
ghost use Rattle.newaksu_c.specs.Processing.{as_it_came, hosted, is_bare, plain, reported};
ghost use Rattle.newaksu_c.specs.Processing.{said_status, ClientDoes, IsDelivered, IsRead};
ghost use Rattle.newaksu_c.specs.Processing.{ProcessesClient, ProcessesServer, ServerDoes};

use crate::handle::Handle;
use crate::object::Object;
use crate::status::{
    INSUFFICIENT_MEMORY, INVALID_HANDLE, INVALID_PARAMETER, OK, kind_status, wire_status,
};
use sspi_mech::Ntlm;
use sspi_outside::{ClientEnd, Opened, Outside, Peers, ServerEnd, handed};
use sspi_tsreq::TsRequest;
use sspi_types::Error;
use std::alloc::Global;

fn read(alloc: Global, message: &[u8]) -> Result<TsRequest, u32>
    ensures { IsRead message.now result }
{
    match TsRequest::from_buffer(alloc, message) {
        Ok(request) => Ok(request),
        Err(kind) => Err(wire_status(kind)),
    }
}

fn delivered(alloc: Global, message: &[u8]) -> Result<TsRequest, u32>
    ensures { IsDelivered message.now result }
{
    match message {
        [] => Ok(TsRequest::default()),
        _ => read(alloc, message),
    }
}

fn opened_by(field: u32, text: &[u8]) -> Option<Opened<'_>>
    ensures { option_map (λ it. (proof_opened it, credentials_opened it)) result ≡ reported field
        text.now }
{
    match field {
        0 if text.len() == 0 => Some(Opened::Neither),
        2 => Some(Opened::AuthInfo(text)),
        3 => Some(Opened::PubKeyAuth(text)),
        _ => None,
    }
}

fn status_of(said: Result<Result<(), Error>, u32>) -> u32
    ensures { result ≡ said_status said }
{
    match said {
        Ok(Ok(())) => OK,
        Ok(Err(error)) => kind_status(error.error_type),
        Err(status) => status,
    }
}

// ---- a client

fn hosted_client(
    alloc: Global,
    end: &mut ClientEnd<Outside, Outside>,
    message: &[u8],
    step: &[u8],
    opened: Opened<'_>,
) -> Result<Result<(), Error>, u32>
    ensures { ClientDoes hosted (λ d. handed d step.now (proof_opened opened.entry)
        (credentials_opened opened.entry)) message.now
        end.old.client end.old.last result end.new.client end.new.last }
{
    let request = delivered(alloc, message)?;
    match handed(alloc, request, step, opened) {
        Ok(request) => Ok(end.process(request)),
        Err(_) => Err(INSUFFICIENT_MEMORY),
    }
}

fn plain_client(
    alloc: Global,
    end: &mut ClientEnd<Ntlm, Ntlm>,
    message: &[u8],
) -> Result<Result<(), Error>, u32>
    ensures { ClientDoes plain as_it_came message.now end.old.client end.old.last result
        end.new.client end.new.last }
{
    let request = delivered(alloc, message)?;
    Ok(end.process(request))
}

fn is_bare(step: &[u8], field: u32, text: &[u8]) -> bool
    ensures { result ≡ is_bare step.now field text.now }
{
    step.len() == 0 && field == 0 && text.len() == 0
}

fn process_client(
    alloc: Global,
    object: &mut Object,
    message: &[u8],
    step: &[u8],
    field: u32,
    text: &[u8],
) -> u32
    ensures { ProcessesClient message.now step.now (Some object.new) result field text.now
        (Some object.old) }
{
    match object {
        Object::Client(end) => match opened_by(field, text) {
            Some(opened) => status_of(hosted_client(alloc, &mut **end, message, step, opened)),
            None => INVALID_PARAMETER,
        },
        Object::PlainClient(end) => match is_bare(step, field, text) {
            true => status_of(plain_client(alloc, &mut **end, message)),
            false => INVALID_PARAMETER,
        },
        _ => INVALID_HANDLE,
    }
}

/// Passes a client the server's message, with what the host's context made of it; the first call
/// has no message.
#[unsafe(no_mangle)]
pub extern "C" fn newaksu_client_process(
    alloc: Global,
    client: &mut Handle,
    message: &[u8],
    step: &[u8],
    opened_field: u32,
    opened: &[u8],
) -> u32
    ensures { ProcessesClient message.now step.now client.new.held result opened_field opened.now
        client.old.held }
{
    let Some(mut object) = client.take(alloc) else {
        return INVALID_HANDLE;
    };
    let status = process_client(alloc, &mut object, message, step, opened_field, opened);
    client.put(object);
    status
}

// ---- a server

fn hosted_server(
    alloc: Global,
    end: &mut ServerEnd<Outside, Outside, Peers>,
    message: &[u8],
    step: &[u8],
    opened: Opened<'_>,
) -> Result<Result<(), Error>, u32>
    ensures { ServerDoes hosted (λ d. handed d step.now (proof_opened opened.entry)
        (credentials_opened opened.entry)) message.now
        end.old.server end.old.last result end.new.server end.new.last }
{
    let request = read(alloc, message)?;
    match handed(alloc, request, step, opened) {
        Ok(request) => Ok(end.process(request)),
        Err(_) => Err(INSUFFICIENT_MEMORY),
    }
}

fn plain_server(
    alloc: Global,
    end: &mut ServerEnd<Ntlm, Ntlm, Peers>,
    message: &[u8],
) -> Result<Result<(), Error>, u32>
    ensures { ServerDoes plain as_it_came message.now end.old.server end.old.last result
        end.new.server end.new.last }
{
    let request = read(alloc, message)?;
    Ok(end.process(request))
}

fn process_server(
    alloc: Global,
    object: &mut Object,
    message: &[u8],
    step: &[u8],
    field: u32,
    text: &[u8],
) -> u32
    ensures { ProcessesServer message.now step.now (Some object.new) result field text.now
        (Some object.old) }
{
    match object {
        Object::Server(end) => match opened_by(field, text) {
            Some(opened) => status_of(hosted_server(alloc, &mut **end, message, step, opened)),
            None => INVALID_PARAMETER,
        },
        Object::PlainServer(end) => match is_bare(step, field, text) {
            true => status_of(plain_server(alloc, &mut **end, message)),
            false => INVALID_PARAMETER,
        },
        _ => INVALID_HANDLE,
    }
}

/// Passes a server the client's message, with what the host's context made of it.
#[unsafe(no_mangle)]
pub extern "C" fn newaksu_server_process(
    alloc: Global,
    server: &mut Handle,
    message: &[u8],
    step: &[u8],
    opened_field: u32,
    opened: &[u8],
) -> u32
    ensures { ProcessesServer message.now step.now server.new.held result opened_field opened.now
        server.old.held }
{
    let Some(mut object) = server.take(alloc) else {
        return INVALID_HANDLE;
    };
    let status = process_server(alloc, &mut object, message, step, opened_field, opened);
    server.put(object);
    status
}
