//! `delegate`: both ends, turn by turn, over a link that may do anything.

ghost use Rattle.std.specs.Prelude.{◌≡◌, ℕ, ◌+◌, ◌≤◌, List, [], Err, IfOk, IfErr, OnOk, OnErr};
ghost use Rattle.sspi_credssp.specs.Ends.{ClientView, ServerView};
ghost use Rattle.sspi_credssp.specs.Context.{either};
ghost use Rattle.sspi_delegate.specs.Chain.{kdc_calls};
ghost use Rattle.sspi_delegate.specs.Headline.{around_by, parties, Delegates, Accounts, Stays};
ghost use Rattle.sspi_delegate.specs.Turns.{client_turns, server_turns, next_end};
ghost use Rattle.sspi_delegate.specs.History.{ClientHistory, ClientPast, ServerHistory, ServerPast};
ghost use Rattle.sspi_delegate.specs.History.{KdcStays, ProxyStays};
ghost use Rattle.sspi_delegate.specs.Halves.{IsNoRefusal, ClientHalfPast, ServerHalfPast, Between};
ghost use Rattle.sspi_delegate.specs.declared.carried.Carried.{Carried};
ghost use Rattle.sspi_delegate.specs.Log.{Stopped, RunEnds, TurnLeft, IsDue, Given, turns_of};
ghost use Rattle.sspi_delegate.specs.Halves.{Asked, Turned, ClientHalf, ServerHalf, HasMessage};
ghost use Rattle.sspi_delegate.specs.Halves.{IsAnswerTo};
ghost use Rattle.sspi_delegate.specs.Headline.{IsFresh};
ghost use Rattle.sspi_delegate.specs.Link.{StaysTold, newest_message, AnswerTold};
ghost use Rattle.sspi_delegate.specs.Sending.{GiveTold, RequestTold};
ghost use Rattle.sspi_delegate.specs.Log.{LoggedButLast};

use crate::answer::{DelegateError, Delegation};
use crate::ends::{Round, client_round, server_round};
use crate::link::{Link, LinkError};
use crate::messages::{send, take_delivery};
use crate::transcript::Transcript;
use sspi_credssp::{CredSspClient, CredSspServer, CredentialsProxy, End, SspiContext};
use sspi_mech::{Kdc, Mechanism};
use sspi_names::AuthIdentity;
use sspi_tsreq::TsRequest;
use sspi_types::{Error, ErrorKind};
use std::alloc::Global;

/// Carries the messages of a client and a server until the server has the client's credentials
/// (MS-CSSP 3.1.5).
///
/// In each of at most `limit` rounds the client makes a turn, then the server. The first turn of
/// the client in this call takes a default request. Every other turn takes the request with which
/// the newest delivery begins. A delivery is read to its end or to `DELIVERY_LIMIT` bytes,
/// whichever comes first. If the client's context asks a KDC, `kdc` is asked and the turn goes on
/// with its reply, or with `Reply::Failed` if the call fails.
///
/// Ok gives the identity that the server opened, and the number of the client's turns. Errors:
///
/// - `Client`, `Server`: this end refused its turn, with this error. The message of a refusing
///   server to its client is carried, unless it does not fit, the link fails or memory runs out.
///   The answer is the same in each case.
/// - `Read`: what was delivered to this end is not a request. The kind is `UnexpectedEof` if it
///   ends too early or its header is at fault, otherwise `InvalidData`.
/// - `Write`: the content of this end's message exceeds `sspi_ber::MAX_CONTENT`, 1048576 octets.
/// - `LinkFault`: a call on the link failed.
/// - `TurnsSpent`: the client made `limit` turns, each was answered, and none of them ended the
///   exchange; immediately if `limit` is 0.
/// - `InsufficientMemory`, also that of an end or of the KDC; never in place of another refusal of
///   an end, of `Write` or of `TurnsSpent`.
///
/// The transcript drops the turns that it held before. Whatever the answer, it then has every turn
/// that was made, refused ones too, and the link's log has every message that the link took. Both
/// ends are as their last turn left them. If memory ran out for a reply of the KDC, the client has
/// begun one further turn, on the request that was due: it waits for that reply, and the turn is
/// not recorded.
///
/// `delegates` holds of ends, made with any version and least version, to which nothing was
/// delivered before. `accounts` and `stays` hold of every call; `delegates` includes both.
pub fn delegate<N: Mechanism, K: Mechanism, C: CredentialsProxy, L: Link, D: Kdc>(
    alloc: Global,
    client: &mut CredSspClient<N, K>,
    server: &mut CredSspServer<N, K, C>,
    link: &mut L,
    kdc: &mut D,
    limit: u32,
    transcript: &mut Transcript,
) -> Result<Delegation, DelegateError>
    ensures delegates { IsFresh client.old server.old →
        Delegates (either N.REQUESTS N.meaning K.meaning)
        (around_by C.meaning L.log L.edits L.faults D.told D.asked D.faults)
        (parties client.old server.old link.old kdc.old []) limit result
        (parties client.new server.new link.new kdc.new transcript.new.turns) }
    ensures accounts { Accounts (either N.REQUESTS N.meaning K.meaning)
        (around_by C.meaning L.log L.edits L.faults D.told D.asked D.faults)
        (parties client.old server.old link.old kdc.old []) limit result
        (parties client.new server.new link.new kdc.new transcript.new.turns) }
    ensures stays { Stays (around_by C.meaning L.log L.edits L.faults D.told D.asked D.faults)
        (parties client.old server.old link.old kdc.old []) limit result
        (parties client.new server.new link.new kdc.new transcript.new.turns) }
{
    transcript.clear();
    rounds(alloc, client, server, link, kdc, limit, transcript)
}

/// At most `limit` rounds, each the client's turn and the server's.
fn rounds<N: Mechanism, K: Mechanism, C: CredentialsProxy, L: Link, D: Kdc>(
    alloc: Global,
    client: &mut CredSspClient<N, K>,
    server: &mut CredSspServer<N, K, C>,
    link: &mut L,
    kdc: &mut D,
    limit: u32,
    transcript: &mut Transcript,
) -> Result<Delegation, DelegateError>
    // What the answer says about the link and the turns.
    ensures cause { transcript.old.turns ≡ [] →
        RunEnds (L.log link.old) (L.faults link.old) limit result transcript.new.turns
        (L.log link.new) (L.faults link.new) }
    ensures told { StaysTold (L.edits link.old) (L.edits link.new) (L.log link.old)
        (L.log link.new) }
    ensures failing { AnswerTold (L.edits link.old) (L.faults link.old) (L.faults link.new) result
        (L.log link.new)
        transcript.new.turns }
    ensures within { (limit ≡ 0 → result ≡ Err DelegateError.TurnsSpent) ×
        IfOk result (λ delegation. delegation.rounds ≤ limit) }
    // What both ends did.
    ensures client_history { transcript.old.turns ≡ [] →
        ClientPast (either N.REQUESTS N.meaning K.meaning) (kdc_calls D.told D.asked D.faults)
        (IsDue (L.log link.old) End.Client transcript.new.turns (L.log link.new)) client.old kdc.old
        result
        (client_turns transcript.new.turns) client.new kdc.new }
    ensures server_history { transcript.old.turns ≡ [] →
        ServerPast (either N.REQUESTS N.meaning K.meaning) C.meaning server.old result
        (server_turns transcript.new.turns) server.new }
    ensures proxy { ProxyStays C.meaning server.old.proxy server.new.proxy }
    ensures kdc { KdcStays D.told D.faults kdc.old kdc.new }
{
    for turn in 0..limit {
        client_half(alloc, client, link, kdc, transcript)?;
        if let Some(credentials) = server_half(alloc, server, link, transcript)? {
            return Ok(Delegation {
                credentials,
                rounds: turn + 1,
            });
        }
    }
    Err(DelegateError::TurnsSpent)
}

/// The client's half of a round: its request is read, it makes its turn, and its message is
/// carried.
fn client_half<N: Mechanism, K: Mechanism, L: Link, D: Kdc>(
    alloc: Global,
    client: &mut CredSspClient<N, K>,
    link: &mut L,
    kdc: &mut D,
    transcript: &mut Transcript,
) -> Result<(), DelegateError>
    // The state of the exchange.
    ensures half { (base : List Carried) (start limit : ℕ) →
        next_end transcript.old.turns ≡ End.Client → TurnLeft limit transcript.old.turns →
        Between base start transcript.old.turns (L.log link.old) (L.faults link.old) →
        ClientHalf base start limit result transcript.new.turns (L.log link.new)
        (L.faults link.new) }
    ensures next { OnOk result (next_end transcript.new.turns ≡ End.Server) }
    ensures count { OnOk result (turns_of End.Client transcript.new.turns ≡ turns_of End.Client
        transcript.old.turns + 1) }
    // What the answer says about the link.
    ensures told { StaysTold (L.edits link.old) (L.edits link.new) (L.log link.old)
        (L.log link.new) }
    ensures failing { AnswerTold (L.edits link.old) (L.faults link.old) (L.faults link.new) result
        (L.log link.new)
        transcript.new.turns }
    // What the ends did.
    ensures client_history { let c = either N.REQUESTS N.meaning K.meaning in let k =
        kdc_calls D.told D.asked D.faults in
        (base : List Carried) (start : ℕ) (first : ClientView (SspiContext N K)) (kdc_first : D) →
        next_end transcript.old.turns ≡ End.Client →
        Between base start transcript.old.turns (L.log link.old) (L.faults link.old) →
        ClientHistory c k first kdc_first (client_turns transcript.old.turns) client.old kdc.old →
        ClientHalfPast c k (IsDue base End.Client transcript.new.turns (L.log link.new)) first
        kdc_first result
        (client_turns transcript.new.turns) client.new kdc.new }
    ensures kdc { KdcStays D.told D.faults kdc.old kdc.new }
    ensures server { server_turns transcript.new.turns ≡ server_turns transcript.old.turns }
{
    let request = next_request(alloc, link, transcript, End::Client)?;
    match client_round(alloc, client, kdc, transcript, request) {
        Round::Answered(()) => {
            give(alloc, link, transcript)?;
            Ok(())
        }
        Round::Refused(error) => Err(client_error(error)),
        Round::Lost => Err(DelegateError::InsufficientMemory),
    }
}

/// The server's half of a round; answers the credentials, once it has them.
fn server_half<N: Mechanism, K: Mechanism, C: CredentialsProxy, L: Link>(
    alloc: Global,
    server: &mut CredSspServer<N, K, C>,
    link: &mut L,
    transcript: &mut Transcript,
) -> Result<Option<AuthIdentity>, DelegateError>
    // The state of the exchange.
    ensures half { (base : List Carried) (start limit : ℕ) →
        next_end transcript.old.turns ≡ End.Server →
        Between base start transcript.old.turns (L.log link.old) (L.faults link.old) →
        ServerHalf base start limit result transcript.new.turns (L.log link.new)
        (L.faults link.new) }
    ensures next { OnOk result (next_end transcript.new.turns ≡ End.Client) }
    ensures count { OnOk result (turns_of End.Client transcript.new.turns ≡ turns_of End.Client
        transcript.old.turns) }
    // What the answer says about the link.
    ensures told { StaysTold (L.edits link.old) (L.edits link.new) (L.log link.old)
        (L.log link.new) }
    ensures failing { AnswerTold (L.edits link.old) (L.faults link.old) (L.faults link.new) result
        (L.log link.new)
        transcript.new.turns }
    // What the ends did.
    ensures server_history { let c = either N.REQUESTS N.meaning K.meaning
        in (first : ServerView (SspiContext N K) C) →
        ServerHistory c C.meaning first (server_turns transcript.old.turns) server.old →
        ServerHalfPast c C.meaning first result (server_turns transcript.new.turns) server.new }
    ensures proxy { ProxyStays C.meaning server.old.proxy server.new.proxy }
    ensures client { client_turns transcript.new.turns ≡ client_turns transcript.old.turns }
{
    let request = next_request(alloc, link, transcript, End::Server)?;
    match server_round(alloc, server, transcript, request) {
        Round::Answered(None) => {
            give(alloc, link, transcript)?;
            Ok(None)
        }
        Round::Answered(Some(identity)) => Ok(Some(identity)),
        Round::Refused(error) => {
            // Whether the message that informs the client is carried changes nothing.
            let _given = give(alloc, link, transcript);
            Err(server_error(error))
        }
        Round::Lost => Err(DelegateError::InsufficientMemory),
    }
}

/// The request of the next turn: the client's first one is its own, any other one is read from the
/// newest delivery.
fn next_request<L: Link>(
    alloc: Global,
    link: &mut L,
    transcript: &Transcript,
    to: End,
) -> Result<TsRequest, DelegateError>
    // The state of the exchange.
    ensures ok { IfOk result (λ request. (base : List Carried) (start : ℕ) →
        Between base start transcript.now.turns (L.log link.old) (L.faults link.old) →
        Asked base start transcript.now.turns (L.log link.new) (L.faults link.new) request) }
    ensures err { IfErr result (λ error. (base : List Carried) (start limit : ℕ) →
        next_end transcript.now.turns ≡ to → TurnLeft limit transcript.now.turns →
        Between base start transcript.now.turns (L.log link.old) (L.faults link.old) →
        Stopped base start limit error transcript.now.turns (L.log link.new) (L.faults link.new)) }
    // What the answer says about the link.
    ensures told { StaysTold (L.edits link.old) (L.edits link.new) (L.log link.old)
        (L.log link.new) }
    ensures link { IfErr result IsNoRefusal }
    ensures failing { RequestTold (L.edits link.old) (L.faults link.old) (L.faults link.new)
        result }
{
    if let None = transcript.newest() {
        return Ok(TsRequest::default());
    }
    let reader = match take_delivery(alloc, link) {
        Ok(reader) => reader,
        Err(LinkError::Failed) => return Err(DelegateError::LinkFault),
        Err(LinkError::InsufficientMemory) => return Err(DelegateError::InsufficientMemory),
    };
    match reader.finish() {
        Ok(request) => Ok(request),
        Err(kind) => Err(DelegateError::Read(to, kind)),
    }
}

/// Carries the message of the newest turn.
fn give<L: Link>(alloc: Global, link: &mut L, transcript: &Transcript) -> Result<(), DelegateError>
    // The state of the exchange.
    ensures ok { OnOk result ((base : List Carried) (start : ℕ) →
        Turned base start transcript.now.turns (L.log link.old) (L.faults link.old) →
        Between base start transcript.now.turns (L.log link.new) (L.faults link.new)) }
    ensures err { IfErr result (λ error. (base : List Carried) (start limit : ℕ) →
        Turned base start transcript.now.turns (L.log link.old) (L.faults link.old) →
        Stopped base start limit error transcript.now.turns (L.log link.new) (L.faults link.new)) }
    ensures given { (base : List Carried) (start : ℕ) → L.faults link.old ≡ start →
        HasMessage transcript.now.turns →
        LoggedButLast base transcript.now.turns (L.log link.old) →
        Given base start transcript.now.turns (L.log link.new)
        (L.faults link.new) }
    // What the answer says about the link.
    ensures link { IfErr result IsNoRefusal }
    ensures same { OnErr result (L.log link.new ≡ L.log link.old) }
    ensures told { StaysTold (L.edits link.old) (L.edits link.new) (L.log link.old)
        (L.log link.new) }
    ensures failing { GiveTold (L.edits link.old) (L.log link.old)
        (newest_message transcript.now.turns) (L.faults link.old)
        (L.faults link.new) result }
{
    match transcript.newest() {
        Some(turn) => match turn.outcome.message() {
            Some(message) => send(alloc, link, turn.end, message),
            None => Ok(()),
        },
        None => Ok(()),
    }
}

fn client_error(error: Error) -> DelegateError
    ensures { IsAnswerTo error.error_type (DelegateError.Client error) result }
{
    if error.error_type == ErrorKind::InsufficientMemory {
        DelegateError::InsufficientMemory
    } else {
        DelegateError::Client(error)
    }
}

fn server_error(error: Error) -> DelegateError
    ensures { IsAnswerTo error.error_type (DelegateError.Server error) result }
{
    if error.error_type == ErrorKind::InsufficientMemory {
        DelegateError::InsufficientMemory
    } else {
        DelegateError::Server(error)
    }
}
