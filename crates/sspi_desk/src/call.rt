//! One call on one server: decode, process, encode.

ghost use Rattle.sspi_credssp.specs.Context.{either};
ghost use Rattle.sspi_desk.specs.Call.{IsServed};
ghost use Rattle.sspi_desk.specs.Refusing.{Tells};

use crate::answer::{DeskError, Served};
use crate::spelling::spell;
use sspi_ber::WireKind;
use sspi_credssp::{CredSspServer, CredentialsProxy, ServerError, ServerState};
use sspi_mech::Mechanism;
use sspi_tsreq::TsRequest;
use sspi_types::ErrorKind;
use std::alloc::Global;

/// One call on a server: it takes the request that the bytes begin with, and its message is
/// encoded.
pub(crate) fn answer<N: Mechanism, K: Mechanism, C: CredentialsProxy>(
    alloc: Global,
    server: &mut CredSspServer<N, K, C>,
    bytes: &[u8],
) -> Result<Served, DeskError>
    ensures { IsServed (either N.REQUESTS N.meaning K.meaning)
        C.meaning server.old bytes.now result server.new }
{
    let request = match TsRequest::from_buffer(alloc, bytes) {
        Ok(request) => request,
        Err(WireKind::InsufficientMemory) => return Err(DeskError::InsufficientMemory),
        Err(kind) => return Err(DeskError::Unread(kind)),
    };
    match server.process(request) {
        Ok(ServerState::ReplyNeeded(reply)) => match spell(alloc, &reply) {
            Ok(Some(text)) => Ok(Served::Answer(text)),
            Ok(None) => Err(DeskError::TooLong),
            Err(_) => Err(DeskError::InsufficientMemory),
        },
        Ok(ServerState::Finished(identity)) => Ok(Served::Finished(identity)),
        Err(refusal) => Err(refused(alloc, refusal)),
    }
}

/// A server's refusal, with the bytes of the request that reports it to the client.
fn refused(alloc: Global, refusal: ServerError) -> DeskError
    ensures { Tells refusal.ts_request refusal.error result }
{
    let ServerError { ts_request, error } = refusal;
    if error.error_type == ErrorKind::InsufficientMemory {
        return DeskError::InsufficientMemory;
    }
    let Some(request) = ts_request else {
        return DeskError::Refused(error, None);
    };
    match spell(alloc, &request) {
        Ok(text) => DeskError::Refused(error, text),
        Err(_) => DeskError::InsufficientMemory,
    }
}
