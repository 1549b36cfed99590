//! The result of a call, in words: `refuses`, the kind and the reason; `asks`, the transport, the
//! KDC's URL in quotes and the request in hex; otherwise a word and octets in hex, such as the
//! status of a step and its token.

use crate::tests::checks::{Test, given, halves, holds};
use crate::tests::octets::octets;
use sspi_mech::{Progressing, Step};
use sspi_names::{ContextNames, CredentialsBuffers, NetworkRequest, Username};
use sspi_types::{ContextSizes, Error, PackageInfo, SecurityStatus, SessionKeys};

fn with_octets(rt: &impl Test, word: &str, octets: &[u8]) -> String {
    let digits = given(rt, hex::encode(rt.alloc(), octets));
    given(rt, format!(in rt.alloc(); "{word} {digits}"))
}

pub fn refusal(rt: &impl Test, error: Error) -> String {
    let (kind, reason) = (error.error_type, error.description);
    holds(rt, error.nstatus.is_none(), "a status of the peer");
    given(rt, format!(in rt.alloc(); "refuses {kind:?} {reason:?}"))
}

fn status(rt: &impl Test, status: SecurityStatus) -> String {
    given(rt, format!(in rt.alloc(); "{status:?}"))
}

fn question(rt: &impl Test, request: &NetworkRequest) -> String {
    let (protocol, url) = (request.protocol, request.url.as_str());
    let word = given(rt, format!(in rt.alloc(); "asks {protocol:?} '{url}'"));
    with_octets(rt, &word, request.payload.as_slice())
}

fn step(rt: &impl Test, step: &Step) -> String {
    with_octets(rt, &status(rt, step.status), step.output.as_slice())
}

fn progress(rt: &impl Test, progress: &Progressing) -> String {
    match progress {
        Progressing::Done(done) => step(rt, done),
        Progressing::Suspended(request) => question(rt, request),
    }
}

pub fn of_progress(rt: &impl Test, answer: Result<Progressing, Error>) -> String {
    match answer {
        Ok(made) => progress(rt, &made),
        Err(error) => refusal(rt, error),
    }
}

pub fn of_step(rt: &impl Test, answer: Result<Step, Error>) -> String {
    match answer {
        Ok(done) => step(rt, &done),
        Err(error) => refusal(rt, error),
    }
}

pub fn of_status(rt: &impl Test, answer: Result<SecurityStatus, Error>) -> String {
    match answer {
        Ok(done) => with_octets(rt, &status(rt, done), b""),
        Err(error) => refusal(rt, error),
    }
}

pub fn of_octets(rt: &impl Test, answer: Result<Vec<u8>, Error>) -> String {
    match answer {
        Ok(octets) => with_octets(rt, "gives", &octets),
        Err(error) => refusal(rt, error),
    }
}

pub fn of_name(rt: &impl Test, answer: Result<Username, Error>) -> String {
    match answer {
        Ok(name) => with_octets(rt, "gives", name.inner().as_bytes()),
        Err(error) => refusal(rt, error),
    }
}

pub fn of_names(rt: &impl Test, answer: Result<ContextNames, Error>) -> String {
    match answer {
        Ok(names) => with_octets(rt, "gives", names.username.inner().as_bytes()),
        Err(error) => refusal(rt, error),
    }
}

pub fn of_key(rt: &impl Test, answer: Result<SessionKeys, Error>) -> String {
    match answer {
        Ok(keys) => with_octets(rt, "gives", keys.session_key.value.as_slice()),
        Err(error) => refusal(rt, error),
    }
}

pub fn of_done(rt: &impl Test, answer: Result<(), Error>) -> String {
    match answer {
        Ok(()) => with_octets(rt, "takes", b""),
        Err(error) => refusal(rt, error),
    }
}

/// The name and the most bytes of a token.
fn package(rt: &impl Test, package: &PackageInfo) -> String {
    let (name, most) = (&package.name, package.max_token_len);
    given(rt, format!(in rt.alloc(); "{name} {most}"))
}

pub fn of_package(rt: &impl Test, answer: Result<PackageInfo, Error>) -> String {
    match answer {
        Ok(found) => package(rt, &found),
        Err(error) => refusal(rt, error),
    }
}

/// A token, a signature, a block and the trailer of a blob.
pub fn of_sizes(rt: &impl Test, sizes: ContextSizes) -> String {
    let (token, signature) = (sizes.max_token, sizes.max_signature);
    let (block, trailer) = (sizes.block, sizes.security_trailer);
    given(
        rt,
        format!(in rt.alloc(); "{token} {signature} {block} {trailer}"),
    )
}

/// Whether the buffers are those of the handle, others, or none.
fn buffers(
    handle: &Option<CredentialsBuffers>,
    buffers: &Option<CredentialsBuffers>,
) -> &'static str {
    if buffers.is_none() {
        "gives-none"
    } else if *buffers == *handle {
        "gives-handle"
    } else {
        "gives-others"
    }
}

pub fn of_buffers(
    rt: &impl Test,
    handle: &Option<CredentialsBuffers>,
    answer: Result<Option<CredentialsBuffers>, Error>,
) -> String {
    match answer {
        Ok(given) => with_octets(rt, buffers(handle, &given), b""),
        Err(error) => refusal(rt, error),
    }
}

/// An expected question: its request is in the words of `octets`.
fn wanted_question(rt: &impl Test, tokens: &str, words: &str) -> String {
    let (protocol, words) = halves(words);
    let (url, words) = halves(words);
    let word = given(rt, format!(in rt.alloc(); "asks {protocol} {url}"));
    with_octets(rt, &word, &octets(rt, tokens, words))
}

/// What is expected, in the same words.
pub fn wanted(rt: &impl Test, tokens: &str, text: &str) -> String {
    let (word, rest) = halves(text);
    match word {
        "refuses" => given(rt, String::from_str(rt.alloc(), text)),
        "asks" => wanted_question(rt, tokens, rest),
        _ => with_octets(rt, word, &octets(rt, tokens, rest)),
    }
}
