//! What a relay checks in one request before it passes it on.

ghost use Rattle.std.specs.Prelude.{◌≡◌, MatchBool};
ghost use Rattle.sspi_gate.specs.Front.{MaySend, refusing_code};
ghost use Rattle.sspi_framing.specs.Taking.{IsWhole};
ghost use Rattle.sspi_gate.specs.Next.{other_end};
ghost use Rattle.sspi_gate.specs.Step.{IsStep, Judges};
ghost use Rattle.sspi_gate.specs.Way.{way};

use crate::answer::GateFault;
use sspi_ber::{Sink, Source, WireKind, write_all};
use sspi_credssp::End;
use sspi_framing::take_request;
use sspi_tsreq::TsRequest;
use sspi_types::NStatusCode;
use std::alloc::Global;

/// What a relay looks at in a request.
#[derive(Clone, Copy)]
pub(crate) struct Seen {
    pub(crate) version: u32,
    /// The code with which it refuses.
    pub(crate) refusal: Option<NStatusCode>,
}

/// What came of the request that was due.
#[derive(Clone, Copy)]
pub(crate) enum Step {
    /// It was handed on.
    Passed(Seen),
    /// The stream is at its end.
    Ended,
    /// It was not handed on.
    Stopped(GateFault),
}

fn other_end(end: End) -> End
    ensures { result ≡ other_end end }
{
    match end {
        End::Client => End::Server,
        End::Server => End::Client,
    }
}

/// The code, if it is not `SUCCESS`.
fn refusing_code(code: Option<NStatusCode>) -> Option<NStatusCode>
    ensures { result ≡ refusing_code code }
{
    match code {
        Some(code) if code != NStatusCode::SUCCESS => Some(code),
        _ => None,
    }
}

/// Whether an end whose first version is this one, if it has sent one, may send this version.
fn may_send(first: Option<u32>, version: u32) -> bool
    ensures { MatchBool result (MaySend first version) (MaySend first version → ⊥) }
{
    match first {
        None => true,
        Some(first) => version == first,
    }
}

/// Reads these bytes as a request of this end, and compares its version with that of the first.
fn judge(alloc: Global, end: End, bytes: &[u8], first: Option<u32>) -> Result<Seen, GateFault>
    requires { IsWhole bytes.now }
    ensures { Judges end first bytes.now result }
{
    let request = match TsRequest::from_buffer(alloc, bytes) {
        Ok(request) => request,
        Err(WireKind::InsufficientMemory) => return Err(GateFault::InsufficientMemory),
        Err(kind) => return Err(GateFault::Bad(end, kind)),
    };
    if !may_send(first, request.version) {
        return Err(GateFault::Version(end));
    }
    Ok(Seen {
        version: request.version,
        refusal: refusing_code(request.error_code),
    })
}

/// Takes the next request of this end and writes its bytes, unchanged, to the other end. `first` is
/// the version of the end's first request.
pub(crate) fn pass_next<S: Source, W: Sink>(
    alloc: Global,
    end: End,
    first: Option<u32>,
    source: &mut S,
    sink: &mut W,
) -> Step
    ensures { IsStep end first (way S.left S.faults W.written W.faults source.old sink.old)
        (way S.left S.faults W.written W.faults source.new sink.new) result }
{
    let bytes = match take_request(alloc, source) {
        Ok(Some(bytes)) => bytes,
        Ok(None) => return Step::Ended,
        Err(WireKind::ReadFault) => return Step::Stopped(GateFault::ReadFault(end)),
        Err(WireKind::InsufficientMemory) => {
            return Step::Stopped(GateFault::InsufficientMemory);
        }
        Err(kind) => return Step::Stopped(GateFault::Bad(end, kind)),
    };
    match judge(alloc, end, &bytes, first) {
        Ok(seen) => match write_all(sink, &bytes) {
            Ok(()) => Step::Passed(seen),
            Err(WireKind::InsufficientMemory) => Step::Stopped(GateFault::InsufficientMemory),
            Err(_) => Step::Stopped(GateFault::WriteFault(other_end(end))),
        },
        Err(why) => Step::Stopped(why),
    }
}
