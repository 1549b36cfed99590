//! `serve`: a server over a channel to its client.

ghost use Rattle.std.specs.Prelude.{◌≡◌, ℕ, ◌+◌, ◌<◌, ◌≤◌, length, OnOk};
ghost use Rattle.sspi_credssp.specs.declared.turn.End.{End};
ghost use Rattle.sspi_credssp.specs.Context.{either};
ghost use Rattle.sspi_credssp.specs.Ends.{IsFreshServer, ServerView};
ghost use Rattle.sspi_delegate.specs.Halves.{ServerHalfPast};
ghost use Rattle.sspi_delegate.specs.History.{ProxyStays, ServerHistory, ServerPast};
ghost use Rattle.sspi_live.specs.Answers.{Serves, SoFar};
ghost use Rattle.sspi_live.specs.Channel.{Channel, channel};
ghost use Rattle.sspi_live.specs.Fresh.{ServedFresh};
ghost use Rattle.sspi_live.specs.Sides.{AreOf};
ghost use Rattle.sspi_live.specs.Steps.{ServeStep};

use crate::answer::refusal_told;
use crate::reading::read_request;
use crate::writing::write_newest;
use sspi_ber::{Sink, Source};
use sspi_credssp::{CredSspServer, CredentialsProxy, End, SspiContext};
use sspi_delegate::{DelegateError, Delegation, Round, Transcript, server_round};
use sspi_mech::Mechanism;
use sspi_names::AuthIdentity;
use std::alloc::Global;

/// Takes the client's credentials over a channel (MS-CSSP 3.1.5): reads its requests and writes
/// what the server answers, for at most `limit` turns of the server.
///
/// Each turn takes the next request of `source`, and no byte after it: what follows on the channel
/// belongs to the next protocol. Its answer is written to `sink`, in one piece, before the next
/// request is read.
///
/// Ok gives the identity that the server opened, and the number of its turns; nothing is written
/// for the last one. Errors:
///
/// - `Server`: the server refused its turn, with this error. The message to its client was written
///   whole, unless it does not fit, or the sink failed and its count of faults rose. The answer is
///   the same in each case.
/// - `Read`, of the server: what came is not a request. The kind is `UnexpectedEof` if the source
///   ended, also before a request, or if a header is at fault, otherwise `InvalidData`.
/// - `Write`, of the server: the content of its message exceeds `sspi_ber::MAX_CONTENT`, 1048576
///   octets. None of it was written.
/// - `LinkFault`: the source or the sink failed. Of a message that was due, a prefix was written,
///   never all of it.
/// - `TurnsSpent`: the server made `limit` turns, each was answered, and none of them ended the
///   exchange; immediately if `limit` is 0. Nothing more is then read.
/// - `InsufficientMemory`, also that of the server; a prefix of a message that was due may have
///   been written. It is also the answer if memory ran out for the message that informs the client
///   of a refusal: that turn is then the newest of the transcript.
///
/// `Client` is never returned. The transcript drops the turns that it held before. Whatever the
/// answer, it then has every turn that was made, refused ones too, and the server is as its last
/// turn left it.
pub fn serve<N: Mechanism, K: Mechanism, C: CredentialsProxy, S: Source, W: Sink>(
    alloc: Global,
    server: &mut CredSspServer<N, K, C>,
    source: &mut S,
    sink: &mut W,
    limit: u32,
    transcript: &mut Transcript,
) -> Result<Delegation, DelegateError>
    // What the channel carried, and when each answer comes.
    ensures answer { Serves limit (channel S.left S.faults W.written W.faults source.old sink.old)
        (channel S.left S.faults W.written W.faults source.new sink.new) result
        transcript.new.turns }
    ensures within { length transcript.new.turns ≤ limit }
    // What the server did.
    ensures whose { AreOf End.Server transcript.new.turns }
    ensures history { ServerPast (either N.REQUESTS N.meaning K.meaning) C.meaning server.old result
        transcript.new.turns server.new }
    ensures fresh { IsFreshServer server.old →
        ServedFresh (either N.REQUESTS N.meaning K.meaning) C.meaning server.old result
        transcript.new.turns server.new }
    ensures proxy { ProxyStays C.meaning server.old.proxy server.new.proxy }
{
    transcript.clear();
    for turn in 0..limit {
        if let Some(credentials) = serve_turn(alloc, server, source, sink, transcript)? {
            return Ok(Delegation {
                credentials,
                rounds: turn + 1,
            });
        }
    }
    Err(DelegateError::TurnsSpent)
}

/// A turn of the server on the next request; answers the credentials, once it has them.
fn serve_turn<N: Mechanism, K: Mechanism, C: CredentialsProxy, S: Source, W: Sink>(
    alloc: Global,
    server: &mut CredSspServer<N, K, C>,
    source: &mut S,
    sink: &mut W,
    transcript: &mut Transcript,
) -> Result<Option<AuthIdentity>, DelegateError>
    ensures step { (first : Channel) (limit : ℕ) →
        SoFar End.Server transcript.old.turns first
        (channel S.left S.faults W.written W.faults source.old sink.old) →
        length transcript.old.turns < limit →
        ServeStep limit first (channel S.left S.faults W.written W.faults source.new sink.new)
        result transcript.new.turns }
    ensures count { OnOk result (length transcript.new.turns ≡ length transcript.old.turns + 1) }
    ensures within { length transcript.new.turns ≤ length transcript.old.turns + 1 }
    ensures whose { AreOf End.Server transcript.old.turns → AreOf End.Server transcript.new.turns }
    ensures history { let c = either N.REQUESTS N.meaning K.meaning
        in (first : ServerView (SspiContext N K) C) →
        AreOf End.Server transcript.old.turns →
        ServerHistory c C.meaning first transcript.old.turns server.old →
        ServerHalfPast c C.meaning first result transcript.new.turns server.new }
    ensures proxy { ProxyStays C.meaning server.old.proxy server.new.proxy }
{
    let request = read_request(alloc, source, End::Server)?;
    match server_round(alloc, server, transcript, request) {
        Round::Answered(None) => {
            write_newest(alloc, sink, End::Server, transcript)?;
            Ok(None)
        }
        Round::Answered(Some(identity)) => Ok(Some(identity)),
        Round::Refused(error) => {
            let told = write_newest(alloc, sink, End::Server, transcript);
            Err(refusal_told(told, error))
        }
        Round::Lost => Err(DelegateError::InsufficientMemory),
    }
}
