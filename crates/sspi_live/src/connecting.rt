//! `connect`: a client over a channel to its server.

ghost use Rattle.std.specs.Prelude.{◌≡◌, ℕ, ◌+◌, ◌<◌, ◌≤◌, length, OnOk};
ghost use Rattle.sspi_credssp.specs.declared.turn.End.{End};
ghost use Rattle.sspi_credssp.specs.Context.{either};
ghost use Rattle.sspi_credssp.specs.Ends.{ClientView, IsFreshClient};
ghost use Rattle.sspi_delegate.specs.Chain.{kdc_calls};
ghost use Rattle.sspi_delegate.specs.History.{ClientHistory, KdcStays};
ghost use Rattle.sspi_live.specs.Answers.{Connects, IsDue, SoFar};
ghost use Rattle.sspi_live.specs.Channel.{Channel, channel};
ghost use Rattle.sspi_live.specs.Fresh.{ConnectedFresh};
ghost use Rattle.sspi_live.specs.Pasts.{ConnectPast};
ghost use Rattle.sspi_live.specs.Sides.{AreOf, BeginsItself};
ghost use Rattle.sspi_live.specs.Steps.{ConnectStep, ConnectStepPast, ReadsDue, newest_is_last};

use crate::answer::refusal_of;
use crate::reading::read_request;
use crate::writing::write_newest;
use sspi_ber::{Sink, Source};
use sspi_credssp::{CredSspClient, End, Outcome, SspiContext};
use sspi_delegate::{DelegateError, Round, Transcript, client_round};
use sspi_mech::{Kdc, Mechanism};
use sspi_tsreq::TsRequest;
use std::alloc::Global;

/// Delegates the client's credentials over a channel (MS-CSSP 3.1.5): writes its messages and reads
/// what the server answers, for at most `limit` turns of the client.
///
/// The first turn takes a default request; every other one takes the next request of `source`, and
/// no byte after it: what follows on the channel belongs to the next protocol. The message of a
/// turn is written to `sink`, in one piece, before the next request is read. If the client's
/// context asks a KDC, `kdc` is asked and the turn goes on with its reply, or with `Reply::Failed`
/// if the call fails.
///
/// Ok is returned once the last message, which has the credentials, was written. It gives the
/// number of the client's turns. What the server makes of that message is not known then. Errors:
///
/// - `Client`: the client refused its turn, with this error. The server is not informed.
/// - `Read`, of the client: what came is not a request. The kind is `UnexpectedEof` if the source
///   ended, also before a request, or if a header is at fault, otherwise `InvalidData`.
/// - `Write`, of the client: the content of its message exceeds `sspi_ber::MAX_CONTENT`, 1048576
///   octets. None of it was written.
/// - `LinkFault`: the source or the sink failed. Of a message that was due, a prefix was written,
///   never all of it.
/// - `TurnsSpent`: the client made `limit` turns, and the message of each was written, but not the
///   last one of a delegation; immediately if `limit` is 0.
/// - `InsufficientMemory`, also that of the client or of the KDC; a prefix of a message that was
///   due may have been written.
///
/// `Server` is never returned: if the server reports its refusal, the client refuses its turn. The
/// transcript drops the turns that it held before. Whatever the answer, it then has every turn that
/// was made, refused ones too, and the client is as its last turn left it. If memory ran out for a
/// reply of the KDC, the client has begun one further turn, on the request that was due: it waits
/// for that reply, and the turn is not recorded.
pub fn connect<N: Mechanism, K: Mechanism, D: Kdc, S: Source, W: Sink>(
    alloc: Global,
    client: &mut CredSspClient<N, K>,
    source: &mut S,
    sink: &mut W,
    kdc: &mut D,
    limit: u32,
    transcript: &mut Transcript,
) -> Result<u32, DelegateError>
    // What the channel carried, and when each answer comes.
    ensures answer { Connects limit (channel S.left S.faults W.written W.faults source.old sink.old)
        (channel S.left S.faults W.written W.faults source.new sink.new) result
        transcript.new.turns }
    ensures within { length transcript.new.turns ≤ limit }
    // What the client did.
    ensures whose { AreOf End.Client transcript.new.turns × BeginsItself transcript.new.turns }
    ensures history { ConnectPast (either N.REQUESTS N.meaning K.meaning)
        (kdc_calls D.told D.asked D.faults)
        (IsDue End.Client transcript.new.turns
        (channel S.left S.faults W.written W.faults source.old sink.old)
        (channel S.left S.faults W.written W.faults source.new sink.new))
        client.old kdc.old result transcript.new.turns client.new kdc.new }
    ensures fresh { IsFreshClient client.old →
        ConnectedFresh (either N.REQUESTS N.meaning K.meaning)
        (kdc_calls D.told D.asked D.faults)
        (IsDue End.Client transcript.new.turns
        (channel S.left S.faults W.written W.faults source.old sink.old)
        (channel S.left S.faults W.written W.faults source.new sink.new))
        client.old kdc.old result transcript.new.turns client.new kdc.new }
    ensures kdc { KdcStays D.told D.faults kdc.old kdc.new }
{
    transcript.clear();
    for turn in 0..limit {
        if connect_turn(alloc, client, source, sink, kdc, transcript)? {
            return Ok(turn + 1);
        }
    }
    Err(DelegateError::TurnsSpent)
}

/// A turn of the client on the request that is due; answers whether its message was the last one of
/// a delegation.
fn connect_turn<N: Mechanism, K: Mechanism, D: Kdc, S: Source, W: Sink>(
    alloc: Global,
    client: &mut CredSspClient<N, K>,
    source: &mut S,
    sink: &mut W,
    kdc: &mut D,
    transcript: &mut Transcript,
) -> Result<bool, DelegateError>
    ensures step { (first : Channel) (limit : ℕ) →
        SoFar End.Client transcript.old.turns first
        (channel S.left S.faults W.written W.faults source.old sink.old) →
        length transcript.old.turns < limit →
        ConnectStep limit first (channel S.left S.faults W.written W.faults source.new sink.new)
        result transcript.new.turns }
    ensures count { OnOk result (length transcript.new.turns ≡ length transcript.old.turns + 1) }
    ensures within { length transcript.new.turns ≤ length transcript.old.turns + 1 }
    ensures whose { AreOf End.Client transcript.old.turns → BeginsItself transcript.old.turns →
        AreOf End.Client transcript.new.turns × BeginsItself transcript.new.turns }
    ensures history { let c = either N.REQUESTS N.meaning K.meaning in let k =
        kdc_calls D.told D.asked D.faults in
        (first : Channel) (begun : ClientView (SspiContext N K)) (kdc_begun : D) →
        AreOf End.Client transcript.old.turns →
        SoFar End.Client transcript.old.turns first
        (channel S.left S.faults W.written W.faults source.old sink.old) →
        ClientHistory c k begun kdc_begun transcript.old.turns client.old kdc.old →
        ConnectStepPast c k (IsDue End.Client transcript.new.turns first
        (channel S.left S.faults W.written W.faults source.new sink.new))
        begun kdc_begun result transcript.new.turns client.new kdc.new }
    ensures kdc { KdcStays D.told D.faults kdc.old kdc.new }
{
    let request = due_request(alloc, source, transcript)?;
    match client_round(alloc, client, kdc, transcript, request) {
        Round::Answered(()) => {
            write_newest(alloc, sink, End::Client, transcript)?;
            Ok(is_last(transcript))
        }
        Round::Refused(error) => Err(refusal_of(End::Client, error)),
        Round::Lost => Err(DelegateError::InsufficientMemory),
    }
}

/// The request of the next turn: the client's first one is its own, any other one is read.
fn due_request<S: Source>(
    alloc: Global,
    source: &mut S,
    transcript: &Transcript,
) -> Result<TsRequest, DelegateError>
    ensures { ReadsDue End.Client transcript.now.turns (S.left source.old) (S.left source.new)
        (S.faults source.old)
        (S.faults source.new) result }
{
    match transcript.newest() {
        None => Ok(TsRequest::default()),
        Some(_) => read_request(alloc, source, End::Client),
    }
}

/// Whether the newest turn made the last message of a delegation.
fn is_last(transcript: &Transcript) -> bool
    ensures { result ≡ newest_is_last transcript.now.turns }
{
    match transcript.newest() {
        Some(turn) => match &turn.outcome {
            Outcome::Final(_) => true,
            _ => false,
        },
        None => false,
    }
}
