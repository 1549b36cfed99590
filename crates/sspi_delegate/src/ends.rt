//! One turn of each end, recorded in the transcript; a client's with its questions for the KDC.

ghost use Rattle.std.specs.Prelude.{◌≡◌, ◌<◌, [], ◌∷◌, None, IfSome};
ghost use Rattle.sspi_credssp.specs.Ends.{ClientView, ServerView};
ghost use Rattle.sspi_credssp.specs.Context.{either};
ghost use Rattle.sspi_delegate.specs.Chain.{HasReplied, HasNoReply, kdc_calls};
ghost use Rattle.sspi_delegate.specs.Turns.{client_turns, server_turns};
ghost use Rattle.sspi_delegate.specs.LogKeeping.{recorded};
ghost use Rattle.sspi_delegate.specs.History.{ClientHistory, ServerHistory, KdcStays, ProxyStays};
ghost use Rattle.sspi_delegate.specs.Recorded.{ClientPushed, ServerPushed};
ghost use Rattle.sspi_delegate.specs.Rounds.{added_by_client, added_by_server, ClientRoundPast};
ghost use Rattle.sspi_delegate.specs.Rounds.{ServerRoundPast};
ghost use Rattle.sspi_delegate.specs.Halves.{ClientConcludes};

use crate::transcript::Transcript;
use sspi_credssp::{
    ClientState, CredSspClient, CredSspServer, CredentialsProxy, End, Outcome, Progress,
    ServerError, ServerState, SspiContext,
};
use sspi_mech::{Kdc, KdcError, Mechanism, Reply};
use sspi_names::{AuthIdentity, NetworkRequest};
use sspi_tsreq::TsRequest;
use sspi_types::{Bytes, Error};
use std::alloc::Global;

/// The result of a turn of an end.
#[derive(Drop)]
pub enum Round<T> {
    /// It was answered.
    Answered(T),
    /// It was refused, with this error.
    Refused(Error),
    /// Memory ran out, and no turn was recorded. A client may then be waiting for a reply of its
    /// KDC.
    Lost,
}

/// The reply to a question to the KDC, or `None` if the KDC ran out of memory.
fn ask<D: Kdc>(kdc: &mut D, question: &NetworkRequest) -> Option<Reply>
    ensures replied { IfSome result (λ reply. HasReplied D.told D.asked D.faults kdc.old
        question.now reply kdc.new) }
    ensures lost { result ≡ None → HasNoReply D.told D.asked D.faults kdc.old kdc.new }
{
    match kdc.ask(question) {
        Ok(bytes) => Some(Reply::Answered(Bytes::from_vec(bytes))),
        Err(KdcError::Failed) => Some(Reply::Failed),
        Err(KdcError::InsufficientMemory) => None,
    }
}

/// Hands a request to the client and asks the KDC until the turn is over.
fn finish_turn<N: Mechanism, K: Mechanism, D: Kdc>(
    client: &mut CredSspClient<N, K>,
    request: TsRequest,
    kdc: &mut D,
) -> Round<ClientState>
    ensures turn { ClientConcludes (either N.REQUESTS N.meaning K.meaning)
        (kdc_calls D.told D.asked D.faults) client.old kdc.old request result client.new kdc.new }
    ensures kdc { KdcStays D.told D.faults kdc.old kdc.new }
{
    let mut progress = match client.process(request) {
        Ok(progress) => progress,
        Err(error) => return Round::Refused(error),
    };
    loop {
        match progress {
            Progress::Completed(state) => return Round::Answered(state),
            Progress::Suspended(question) => {
                let Some(reply) = ask(kdc, &question) else {
                    return Round::Lost;
                };
                progress = match client.resume(&reply) {
                    Ok(progress) => progress,
                    Err(error) => return Round::Refused(error),
                };
            }
        }
    }
}

/// A turn of the client on this request, which is recorded whether or not it is refused.
///
/// The KDC is asked what the client's context asks, and the turn goes on with its replies, or with
/// `Reply::Failed` where a call fails. The result is `Lost` if memory ran out for the record or for
/// a reply of the KDC. Then the transcript has no further turn, and the client is as it was, or
/// waits for that reply.
pub fn client_round<N: Mechanism, K: Mechanism, D: Kdc>(
    alloc: Global,
    client: &mut CredSspClient<N, K>,
    kdc: &mut D,
    transcript: &mut Transcript,
    request: TsRequest,
) -> Round<()>
    // The turn that was made and recorded.
    ensures turn { ClientPushed request result transcript.old.turns transcript.new.turns }
    ensures made { ClientRoundPast (either N.REQUESTS N.meaning K.meaning)
        (kdc_calls D.told D.asked D.faults) request
        client.old kdc.old result (client_turns (added_by_client result transcript.new.turns))
        client.new kdc.new }
    ensures client_history { let c = either N.REQUESTS N.meaning K.meaning in let k =
        kdc_calls D.told D.asked D.faults in
        (first : ClientView (SspiContext N K)) (kdc_first : D) →
        ClientHistory c k first kdc_first (client_turns transcript.old.turns) client.old kdc.old →
        ClientRoundPast c k request first kdc_first result (client_turns transcript.new.turns)
        client.new kdc.new }
    // What stays.
    ensures server { server_turns transcript.new.turns ≡ server_turns transcript.old.turns }
    ensures kdc { KdcStays D.told D.faults kdc.old kdc.new }
{
    let Ok(()) = transcript.reserve() else {
        return Round::Lost;
    };
    let Ok(delivered) = request.clone(alloc) else {
        return Round::Lost;
    };
    match finish_turn(client, request, kdc) {
        Round::Answered(ClientState::ReplyNeeded(reply)) => {
            record_client(client, transcript, delivered, Outcome::Reply(reply));
            Round::Answered(())
        }
        Round::Answered(ClientState::FinalMessage(reply)) => {
            record_client(client, transcript, delivered, Outcome::Final(reply));
            Round::Answered(())
        }
        Round::Refused(refusal) => {
            record_client(
                client,
                transcript,
                delivered,
                Outcome::Refused(refusal.error_type, None),
            );
            Round::Refused(refusal)
        }
        Round::Lost => Round::Lost,
    }
}

fn record_client<N: Mechanism, K: Mechanism>(
    client: &mut CredSspClient<N, K>,
    transcript: &mut Transcript,
    delivered: TsRequest,
    outcome: Outcome,
)
    requires { 0 < transcript.old.room }
    ensures turn { transcript.new.turns ≡ recorded End.Client delivered client.old.acts
        client.old.output outcome ∷ transcript.old.turns }
    ensures rest { client.new ≡ record client.old { output = [] } }
{
    let acts = client.last_acts();
    let output = client.take_output();
    transcript.record(End::Client, delivered, acts, output, outcome);
}

/// A turn of the server on this request, which is recorded whether or not it is refused.
///
/// The result is `Lost` if memory ran out for the record: then the server is as it was, and the
/// transcript has no further turn.
pub fn server_round<N: Mechanism, K: Mechanism, C: CredentialsProxy>(
    alloc: Global,
    server: &mut CredSspServer<N, K, C>,
    transcript: &mut Transcript,
    request: TsRequest,
) -> Round<Option<AuthIdentity>>
    // The turn that was made and recorded.
    ensures turn { ServerPushed request result transcript.old.turns transcript.new.turns }
    ensures made { ServerRoundPast (either N.REQUESTS N.meaning K.meaning) C.meaning server.old
        result
        (server_turns (added_by_server result transcript.new.turns)) server.new }
    ensures server_history { let c = either N.REQUESTS N.meaning K.meaning
        in (first : ServerView (SspiContext N K) C) →
        ServerHistory c C.meaning first (server_turns transcript.old.turns) server.old →
        ServerRoundPast c C.meaning first result (server_turns transcript.new.turns) server.new }
    // What stays.
    ensures proxy { ProxyStays C.meaning server.old.proxy server.new.proxy }
    ensures client { client_turns transcript.new.turns ≡ client_turns transcript.old.turns }
{
    let Ok(()) = transcript.reserve() else {
        return Round::Lost;
    };
    let Ok(delivered) = request.clone(alloc) else {
        return Round::Lost;
    };
    let answered = server.process(request);
    let acts = server.last_acts();
    let output = server.take_output();
    match answered {
        Ok(ServerState::ReplyNeeded(reply)) => {
            transcript.record(End::Server, delivered, acts, output, Outcome::Reply(reply));
            Round::Answered(None)
        }
        Ok(ServerState::Finished(identity)) => {
            transcript.record(End::Server, delivered, acts, output, Outcome::Finished);
            Round::Answered(Some(identity))
        }
        Err(ServerError { ts_request, error }) => {
            let outcome = Outcome::Refused(error.error_type, ts_request);
            transcript.record(End::Server, delivered, acts, output, outcome);
            Round::Refused(error)
        }
    }
}
