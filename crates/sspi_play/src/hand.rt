//! Hands one delivery to its end.

ghost use Rattle.std.specs.Prelude.{◌≡◌, List, ◌∷◌, OnOk, OnErr, IfErr};
ghost use Rattle.sspi_credssp.specs.Ends.{ClientView, ServerView};
ghost use Rattle.sspi_credssp.specs.Context.{either};
ghost use Rattle.sspi_delegate.specs.Chain.{kdc_calls};
ghost use Rattle.sspi_delegate.specs.Turns.{client_turns, server_turns, AllGoOn};
ghost use Rattle.sspi_delegate.specs.History.{ClientHistory, ServerHistory, KdcStays, ProxyStays};
ghost use Rattle.sspi_play.specs.declared.played.Delivery.{Delivery};
ghost use Rattle.sspi_play.specs.Hands.{RequestIs, IsLeft, EndsBy, ClientHands, ServerHands};
ghost use Rattle.sspi_play.specs.Hands.{Stands, StopsAt};
ghost use Rattle.sspi_play.specs.Hands.{ServerHandPast, ServerHandMade};
ghost use Rattle.sspi_play.specs.History.{ClientPlayed, Gave};
ghost use Rattle.sspi_play.specs.Plays.{IsTaken};

use crate::played::{Delivery, Ending, Played};
use sspi_ber::WireKind;
use sspi_credssp::{CredSspClient, CredSspServer, CredentialsProxy, SspiContext};
use sspi_delegate::{DelegateError, End, Round, Transcript, client_round, server_round};
use sspi_mech::{Kdc, Mechanism};
use sspi_names::AuthIdentity;
use sspi_tsreq::TsRequest;
use sspi_types::{Bytes, Error, ErrorKind};
use std::alloc::Global;

/// The state of a play between two deliveries.
#[derive(Drop)]
pub(crate) struct Standing {
    /// Whether the client has had its start.
    pub begun: bool,
    pub played: Played,
}

/// What a delivery did to the server.
#[derive(Drop)]
pub(crate) enum Handed {
    Stands(Ending),
    Finished(AuthIdentity),
}

/// The request of a delivery. A start is not read: it gives the client's own first request.
fn request_of(alloc: Global, start: bool, bytes: &Bytes) -> Result<TsRequest, WireKind>
    ensures { RequestIs start bytes.now result }
{
    if start {
        return Ok(TsRequest::default());
    }
    TsRequest::from_buffer(alloc, bytes.as_slice())
}

/// The state of an end that refused with this error.
fn ending_by(error: Error) -> Result<Ending, DelegateError>
    ensures { EndsBy error.error_type result }
{
    if error.error_type == ErrorKind::InsufficientMemory {
        Err(DelegateError::InsufficientMemory)
    } else {
        Ok(Ending::Refused(error.error_type))
    }
}

/// Hands a delivery to a running client; answers the client's state after it.
fn hand_client<N: Mechanism, K: Mechanism, D: Kdc>(
    alloc: Global,
    client: &mut CredSspClient<N, K>,
    kdc: &mut D,
    transcript: &mut Transcript,
    start: bool,
    bytes: &Bytes,
) -> Result<Ending, DelegateError>
    ensures hands { ClientHands start bytes.now result transcript.old.turns transcript.new.turns }
    ensures history { let c = either N.REQUESTS N.meaning K.meaning in let k =
        kdc_calls D.told D.asked D.faults in
        (first : ClientView (SspiContext N K)) (kdc_first : D) →
        AllGoOn (client_turns transcript.old.turns) →
        ClientHistory c k first kdc_first (client_turns transcript.old.turns) client.old kdc.old →
        ClientPlayed c k (IsLeft start bytes.now transcript.old.turns transcript.new.turns) first
        kdc_first result
        (client_turns transcript.new.turns) client.new kdc.new }
    ensures server { server_turns transcript.new.turns ≡ server_turns transcript.old.turns }
    ensures kdc { KdcStays D.told D.faults kdc.old kdc.new }
{
    let request = match request_of(alloc, start, bytes) {
        Ok(request) => request,
        Err(WireKind::InsufficientMemory) => return Err(DelegateError::InsufficientMemory),
        Err(kind) => return Ok(Ending::Unread(kind)),
    };
    match client_round(alloc, client, kdc, transcript, request) {
        Round::Answered(()) => Ok(Ending::Running),
        Round::Refused(error) => ending_by(error),
        Round::Lost => Err(DelegateError::InsufficientMemory),
    }
}

/// Hands a delivery to a running server; answers its state after it, or the identity it opened.
fn hand_server<N: Mechanism, K: Mechanism, C: CredentialsProxy>(
    alloc: Global,
    server: &mut CredSspServer<N, K, C>,
    transcript: &mut Transcript,
    bytes: &Bytes,
) -> Result<Handed, DelegateError>
    ensures hands { ServerHands bytes.now result transcript.old.turns transcript.new.turns }
    ensures history { let c = either N.REQUESTS N.meaning K.meaning
        in (first : ServerView (SspiContext N K) C) →
        ServerHistory c C.meaning first (server_turns transcript.old.turns) server.old →
        ServerHandPast c C.meaning first result (server_turns transcript.new.turns) server.new }
    ensures made { ServerHandMade (either N.REQUESTS N.meaning K.meaning) C.meaning server.old
        result transcript.new.turns server.new }
    ensures client { client_turns transcript.new.turns ≡ client_turns transcript.old.turns }
    ensures proxy { ProxyStays C.meaning server.old.proxy server.new.proxy }
{
    let request = match request_of(alloc, false, bytes) {
        Ok(request) => request,
        Err(WireKind::InsufficientMemory) => return Err(DelegateError::InsufficientMemory),
        Err(kind) => return Ok(Handed::Stands(Ending::Unread(kind))),
    };
    match server_round(alloc, server, transcript, request) {
        Round::Answered(None) => Ok(Handed::Stands(Ending::Running)),
        Round::Answered(Some(identity)) => Ok(Handed::Finished(identity)),
        Round::Refused(error) => {
            let ending = ending_by(error)?;
            Ok(Handed::Stands(ending))
        }
        Round::Lost => Err(DelegateError::InsufficientMemory),
    }
}

/// Hands a delivery to its end, if that end still runs.
pub(crate) fn hand<N: Mechanism, K: Mechanism, C: CredentialsProxy, D: Kdc>(
    alloc: Global,
    client: &mut CredSspClient<N, K>,
    server: &mut CredSspServer<N, K, C>,
    delivery: &Delivery,
    kdc: &mut D,
    transcript: &mut Transcript,
    standing: &mut Standing,
) -> Result<(), DelegateError>
    // The state of the play after the delivery, or how an error ended the play.
    ensures stands { OnOk result ((past : List Delivery) →
        Stands past transcript.old.turns standing.old →
        Stands (delivery.now ∷ past) transcript.new.turns standing.new) }
    ensures stops { OnErr result ((past : List Delivery) →
        Stands past transcript.old.turns standing.old →
        StopsAt delivery.now past transcript.new.turns) }
    ensures only { IfErr result (λ error. error ≡ DelegateError.InsufficientMemory) }
    // What both ends did.
    ensures client_history { let c = either N.REQUESTS N.meaning K.meaning in let k =
        kdc_calls D.told D.asked D.faults in
        (first : ClientView (SspiContext N K)) (kdc_first : D) (past : List Delivery) →
        Stands past transcript.old.turns standing.old →
        ClientHistory c k first kdc_first (client_turns transcript.old.turns) client.old kdc.old →
        ClientPlayed c k (IsTaken delivery.now past transcript.new.turns) first kdc_first result
        (client_turns transcript.new.turns) client.new kdc.new }
    ensures server_history { let c = either N.REQUESTS N.meaning K.meaning
        in (first : ServerView (SspiContext N K) C) →
        ServerHistory c C.meaning first (server_turns transcript.old.turns) server.old →
        ServerHistory c C.meaning first (server_turns transcript.new.turns) server.new }
    ensures identity { let c = either N.REQUESTS N.meaning K.meaning
        in (first : ServerView (SspiContext N K) C) →
        ServerHistory c C.meaning first (server_turns transcript.old.turns) server.old →
        Gave c C.meaning first standing.old.played.identity (server_turns transcript.old.turns)
        server.old →
        OnOk result (Gave c C.meaning first standing.new.played.identity
        (server_turns transcript.new.turns) server.new) }
    // What stays.
    ensures kdc { KdcStays D.told D.faults kdc.old kdc.new }
    ensures proxy { ProxyStays C.meaning server.old.proxy server.new.proxy }
{
    match delivery.to {
        End::Client => {
            let start = !standing.begun;
            standing.begun = true;
            match standing.played.client {
                Ending::Running => {
                    let ending = hand_client(
                        alloc,
                        client,
                        kdc,
                        transcript,
                        start,
                        &delivery.bytes,
                    )?;
                    standing.played.client = ending;
                    Ok(())
                }
                Ending::Refused(_) => Ok(()),
                Ending::Unread(_) => Ok(()),
            }
        }
        End::Server => match standing.played.server {
            Ending::Running => match hand_server(alloc, server, transcript, &delivery.bytes)? {
                Handed::Stands(ending) => {
                    standing.played.server = ending;
                    Ok(())
                }
                Handed::Finished(identity) => {
                    standing.played.identity = Some(identity);
                    Ok(())
                }
            },
            Ending::Refused(_) => Ok(()),
            Ending::Unread(_) => Ok(()),
        },
    }
}
