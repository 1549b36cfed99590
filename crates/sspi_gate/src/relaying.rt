//! The relay between a client and a server.

ghost use Rattle.sspi_gate.specs.Relay.{IsRelay};
ghost use Rattle.sspi_gate.specs.Way.{way};

use crate::answer::{Close, GateError, GateFault, Relayed};
use crate::passing::{Step, pass_next};
use sspi_ber::{Sink, Source};
use sspi_credssp::End;
use std::alloc::Global;

/// Hands a client's requests on to a server and the server's on to the client. They go in turn, the
/// client's first, and at most `limit` of the client's.
///
/// Each request is read before it is handed on, and its bytes are then written unchanged. A header
/// is read byte by byte and then exactly its content, so no byte after a request is taken, whatever
/// the answer. No answer hides a failed call: each stream's count of faults is as it was, except
/// for the one that `ReadFault` or `WriteFault` reports. The order for a request is: reading,
/// grammar, version, writing; one that is refused is not written. Not in any clause: memory is
/// asked for one request at a time, and for at most 2048 bytes more than came.
///
/// Ok: `Ended` if the stream of the end whose request is due is at its end; `Refused` if the
/// server's last request carries a code other than `SUCCESS`, and then nothing more is read.
/// Refused, each with the end at fault:
///
/// - `Bad`: what is next does not begin with a request. `UnexpectedEof` if it ends too early or its
///   header is at fault, otherwise `InvalidData`. Header and content were taken; or the header up
///   to the byte at fault; or all there was, if it ended sooner.
/// - `Version`: the request has a version other than that of this end's first.
/// - `ReadFault`, `WriteFault`: the stream from this end, or to it, failed. At `WriteFault` a
///   prefix of the request was written, never all of it.
/// - `TurnsSpent`: `limit` requests of the client were handed on, each was answered, and no answer
///   refused; at once if `limit` is 0. Nothing more is then read.
/// - `InsufficientMemory`: there was no memory for a request with a valid header, of which content
///   was missing or empty; or for the OCTET STRINGs of a request; or a sink had none, and then a
///   prefix of the request may have been written, never all of it.
pub fn relay<A: Source, B: Sink, C: Source, D: Sink>(
    alloc: Global,
    client_in: &mut A,
    server_out: &mut B,
    server_in: &mut C,
    client_out: &mut D,
    limit: u32,
) -> Result<Relayed, GateError>
    ensures { IsRelay limit (way A.left A.faults B.written B.faults client_in.old server_out.old)
        (way C.left C.faults D.written D.faults server_in.old client_out.old)
        (way A.left A.faults B.written B.faults client_in.new server_out.new)
        (way C.left C.faults D.written D.faults server_in.new client_out.new) result }
{
    let mut passed = 0u64;
    let mut client_version = None;
    let mut server_version = None;
    for _ in 0..limit {
        let seen = match pass_next(alloc, End::Client, client_version, client_in, server_out) {
            Step::Passed(seen) => seen,
            Step::Ended => return Ok(Relayed {
                passed,
                how: Close::Ended(End::Client),
            }),
            Step::Stopped(why) => return Err(GateError { passed, why }),
        };
        passed += 1;
        client_version = Some(seen.version);
        let seen = match pass_next(alloc, End::Server, server_version, server_in, client_out) {
            Step::Passed(seen) => seen,
            Step::Ended => return Ok(Relayed {
                passed,
                how: Close::Ended(End::Server),
            }),
            Step::Stopped(why) => return Err(GateError { passed, why }),
        };
        passed += 1;
        server_version = Some(seen.version);
        match seen.refusal {
            Some(code) => return Ok(Relayed {
                passed,
                how: Close::Refused(code),
            }),
            None => {}
        }
    }
    Err(GateError {
        passed,
        why: GateFault::TurnsSpent,
    })
}
