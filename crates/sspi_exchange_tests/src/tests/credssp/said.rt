//! The outcome of a call of an end: one word, and the message that came with it.
//!
//! - `reply`, `last`: a message that waits for an answer, and the client's last one.
//! - `identity:NAME:PASSWORD`: what the client delegated.
//! - `asks:URL`: a question to a KDC.
//! - `KIND/REASON`, with a further `/CODE` if the refusal has a status.

use crate::tests::credssp::words::{Test, given};
use sspi_credssp::{ClientState, Progress, ServerError, ServerState};
use sspi_names::{AuthIdentity, NetworkRequest};
use sspi_tsreq::TsRequest;
use sspi_types::Error;

fn word(rt: &impl Test, word: &str) -> String {
    given(rt, String::from_str(rt.alloc(), word))
}

fn delegated(rt: &impl Test, identity: &AuthIdentity) -> String {
    let name = identity.username.inner();
    let password = identity.password.value.as_str();
    given(rt, format!(in rt.alloc(); "identity:{name}:{password}"))
}

fn asked(rt: &impl Test, question: &NetworkRequest) -> String {
    let url = question.url.as_str();
    given(rt, format!(in rt.alloc(); "asks:{url}"))
}

fn refused(rt: &impl Test, error: Error) -> String {
    let kind = error.error_type.name();
    let reason = error.description;
    match error.nstatus {
        None => given(rt, format!(in rt.alloc(); "{kind}/{reason:?}")),
        Some(status) => {
            let code = status.0;
            given(rt, format!(in rt.alloc(); "{kind}/{reason:?}/{code:x}"))
        }
    }
}

/// What the client said. A refusal has no message.
pub fn by_client(rt: &impl Test, progress: Result<Progress, Error>) -> (String, TsRequest) {
    match progress {
        Ok(Progress::Completed(ClientState::ReplyNeeded(request))) => (word(rt, "reply"), request),
        Ok(Progress::Completed(ClientState::FinalMessage(request))) => (word(rt, "last"), request),
        Ok(Progress::Suspended(question)) => (asked(rt, &question), TsRequest::default()),
        Err(error) => (refused(rt, error), TsRequest::default()),
    }
}

fn told(rt: &impl Test, refusal: ServerError) -> (String, TsRequest) {
    let ServerError { ts_request, error } = refusal;
    match ts_request {
        Some(request) => (refused(rt, error), request),
        None => rt.abort(),
    }
}

/// What the server said. A refusal has the message that reports it to the client.
pub fn by_server(rt: &impl Test, state: Result<ServerState, ServerError>) -> (String, TsRequest) {
    match state {
        Ok(ServerState::ReplyNeeded(request)) => (word(rt, "reply"), request),
        Ok(ServerState::Finished(identity)) => (delegated(rt, &identity), TsRequest::default()),
        Err(refusal) => told(rt, refusal),
    }
}
