//! The server's authentication: the steps of its context, and the look-up of its peer.

ghost use Rattle.std.specs.Prelude.{ℕ, List, Option, Result, Ok, ◌≡◌, ◌≢◌, [], map, None, Some};
ghost use Rattle.std.specs.Prelude.{true, false, IsTrue, OnOk};
ghost use Rattle.std.specs.Prelude.{OnErr, IfOk, IfErr};
ghost use Rattle.sspi_names.specs.declared.credentials.Credentials.TheVariants as credentials;
ghost use Rattle.sspi_credssp.specs.Acts.{no_acts, SameBut};
ghost use Rattle.sspi_credssp.specs.Context.{IfContext, either};
ghost use Rattle.sspi_credssp.specs.Proxy.{IsAsked, HasAsked, AreFound};
ghost use Rattle.sspi_credssp.specs.ServerStage.{IsLater, answered_by};
ghost use Rattle.sspi_credssp.specs.ServerCause.{IdentifyCause, LookUpRefused};
ghost use Rattle.sspi_credssp.specs.Turn.{IsOver};
ghost use Rattle.sspi_credssp.specs.ServerTurn.{IsIdentified, server_requirements, server_args};
ghost use Rattle.sspi_mech.specs.Answered.{answered};

use crate::context::SspiContext;
use crate::proxy::{CredentialsProxy, ProxyError};
use crate::request::{with_exchange, with_tokens};
use crate::server::CredSspServer;
use crate::server_refusal::refusal;
use crate::server_state::{ServerError, ServerState};
use crate::state::CredSspState;
use crate::token::token_of;
use bitflags::Flags;
use sspi_mech::{AcceptSecurityContext, Mechanism, Refusal, Step};
use sspi_names::{AuthIdentity, Credentials, CredentialsBuffers, Username};
use sspi_tsreq::TsRequest;
use sspi_types::{
    Bytes, DataRepresentation, Error, ErrorKind, Reason, SecurityStatus, ServerRequestFlags,
};
use std::alloc::Global;

// What goes back to the client.
#[derive(Drop)]
pub enum Answer {
    Token(Bytes),
    Proof(Bytes),
}

fn with_answer(request: TsRequest, answer: Answer) -> TsRequest
    ensures { result ≡ answered_by request answer }
{
    match answer {
        Answer::Token(token) => with_tokens(request, Some(token)),
        Answer::Proof(proof) => with_exchange(request, proof),
    }
}

fn server_requirements() -> ServerRequestFlags
    ensures { result ≡ server_requirements }
{
    ServerRequestFlags::empty()
}

fn accept<N: Mechanism, K: Mechanism>(
    context: &mut SspiContext<N, K>,
    credentials_handle: &Option<CredentialsBuffers>,
    token: &Option<Bytes>,
) -> Result<Step, Refusal>
    ensures step { (either N.REQUESTS N.meaning K.meaning).accepts context.old
        (server_args credentials_handle.now token.now) (answered result) context.new }
{
    Ok(context.accept_security_context(&AcceptSecurityContext {
        credentials_handle: credentials_handle.as_ref(),
        context_requirements: server_requirements(),
        target_data_representation: DataRepresentation::Native,
        input: token_of(token),
    })?)
}

fn has_ended(status: SecurityStatus) -> bool
    ensures ended { IsTrue result → IsOver (Some status) }
    ensures going { result ≡ false → status ≢ SecurityStatus.Ok }
    ensures on { result ≡ false → status ≢ SecurityStatus.CompleteNeeded }
{
    status == SecurityStatus::Ok || status == SecurityStatus::CompleteNeeded
}

// The identities that the peer of this name may have; at least one.
#[tactic(auto, using(crate::proofs::Asked::asked_once, crate::proofs::Asked::has_asked_once))]
fn look_up<C: CredentialsProxy>(
    proxy: &mut C,
    username: &Username,
) -> Result<Vec<AuthIdentity>, Refusal>
    // What `Ok` holds, and what the proxy was asked.
    ensures found { IfOk result (λ identities. AreFound (C.meaning.told proxy.old) username.now
        identities.items) }
    ensures some { IfOk result (λ identities. identities.items ≢ []) }
    ensures proxy { IsAsked C.meaning 1 proxy.old proxy.new }
    ensures asked { OnOk result (HasAsked C.meaning 1 proxy.old proxy.new) }
    // What a refusal says.
    ensures cause { IfErr result (λ error. error.error_type ≢ ErrorKind.InsufficientMemory →
        LookUpRefused (C.meaning.told proxy.old) username.now (C.meaning.faults proxy.old)
        (C.meaning.faults proxy.new) error.error_type) }
{
    match proxy.auth_data_candidates_by_user(username) {
        Ok(candidates) => some_of(candidates),
        Err(ProxyError::InsufficientMemory) => {
            Err(Refusal::new(ErrorKind::InsufficientMemory, Reason::Memory))
        }
        Err(ProxyError::NotFound) => Err(Refusal::new(ErrorKind::LogonDenied, Reason::Proxy)),
        Err(ProxyError::Failed) => Err(Refusal::new(ErrorKind::LogonDenied, Reason::Proxy)),
    }
}

fn some_of(candidates: Vec<AuthIdentity>) -> Result<Vec<AuthIdentity>, Refusal>
    // What `Ok` holds.
    ensures ok { IfOk result (λ identities. identities.items ≡ candidates.items) }
    ensures some { IfOk result (λ identities. identities.items ≢ []) }
    // What a refusal says.
    ensures err { OnErr result (candidates.items ≡ []) }
    ensures kind { IfErr result (λ error. error.error_type ≡ ErrorKind.NoCredentials) }
{
    if candidates.is_empty() {
        return Err(Refusal::new(ErrorKind::NoCredentials, Reason::NoIdentity));
    }
    Ok(candidates)
}

fn credentials_of(alloc: Global, identities: Vec<AuthIdentity>) -> Result<Vec<Credentials>, Refusal>
    ensures ok { IfOk result (λ all. all.items ≡ map credentials.AuthIdentity identities.items) }
    ensures err { IfErr result (λ error. error.error_type ≡ ErrorKind.InsufficientMemory) }
{
    let all = identities
        .into_iter()
        .map(|identity| Credentials::AuthIdentity(identity))
        .collect(alloc)?;
    Ok(all)
}

// Names the peer, looks up its identities and passes them to the context.
fn identify<N: Mechanism, K: Mechanism, C: CredentialsProxy>(
    alloc: Global,
    context: &mut SspiContext<N, K>,
    proxy: &mut C,
) -> Result<(), Refusal>
    // What was identified, and what a refusal leaves.
    ensures identified { OnOk result (IsIdentified (either N.REQUESTS N.meaning K.meaning)
        (C.meaning.told proxy.old) context.old context.new) }
    ensures counts { let c = either N.REQUESTS N.meaning K.meaning in c.counts
        context.new ≡ c.counts context.old }
    ensures err { OnErr result (context.new ≡ context.old) }
    // What the proxy was asked.
    ensures proxy { IsAsked C.meaning 1 proxy.old proxy.new }
    ensures asked { OnOk result (HasAsked C.meaning 1 proxy.old proxy.new) }
    // What a refusal says.
    ensures cause { IfErr result (λ error. error.error_type ≢ ErrorKind.InsufficientMemory →
        IdentifyCause (either N.REQUESTS N.meaning K.meaning)
        context.old (C.meaning.told proxy.old) (C.meaning.faults proxy.old)
        (C.meaning.faults proxy.new) error.error_type) }
{
    let names = context.query_context_names()?;
    let candidates = look_up(proxy, &names.username)?;
    let identities = credentials_of(alloc, candidates)?;
    Ok(context.custom_set_auth_identities(identities)?)
}

impl<N: Mechanism, K: Mechanism, C: CredentialsProxy> CredSspServer<N, K, C> {
    ghost use Rattle.sspi_credssp.specs.Proxy.{Asks, look_ups_at};
    ghost use Rattle.sspi_credssp.specs.Ends.{ServerView};
    ghost use Rattle.sspi_credssp.specs.ServerCause.{NegoCause, OverCause, AfterCause};
    ghost use Rattle.sspi_credssp.specs.ServerStage.{HasDone, HasReached, IsAtStep, KeepsStep};
    ghost use Rattle.sspi_credssp.specs.ServerStage.{CompletedStep, Answered, IsReady};
    ghost use Rattle.sspi_credssp.specs.ServerTurn.{Unknown, Accepted, HasCome, HasAccepted};
    ghost use Rattle.sspi_credssp.specs.ServerTurn.{HasAcceptedTurn, ServerGoes};

    pub(crate) fn negotiate(&mut self, request: TsRequest) -> Result<ServerState, ServerError>
        // What must hold before.
        requires { HasDone no_acts self.old }
        // The turn, and the step in it.
        ensures turn { let c = either N.REQUESTS N.meaning K.meaning
            in (start : ServerView (SspiContext N K) C) (d : TsRequest) →
            request ≡ record d { version = self.old.settings.version } →
            IsReady c start d self.old →
            self.old.state ≡ CredSspState.NegoToken →
            self.old.output ≡ [] → ServerGoes c start d result self.new }
        ensures step { let c = either N.REQUESTS N.meaning K.meaning
            in (start : ServerView (SspiContext N K) C) (d : TsRequest) →
            d.nego_tokens ≡ request.nego_tokens → IsAtStep c C.meaning start self.old →
            HasAcceptedTurn c C.meaning start d result self.new }
        // What a refusal says.
        ensures cause { let c = either N.REQUESTS N.meaning K.meaning
            in (start : ServerView (SspiContext N K) C) (d : TsRequest) →
            request ≡ record d { version = self.old.settings.version } →
            IsAtStep c C.meaning start self.old →
            IfErr result (λ refusal. refusal.error.error_type ≢ ErrorKind.InsufficientMemory →
            NegoCause c C.meaning self.new.acts.status start d self.new refusal.error.error_type) }
        ensures codeless { IfErr result (λ refusal. refusal.error.nstatus ≡ None) }
        // What holds afterwards, and what the proxy was asked.
        ensures reached { HasReached self.new.acts.status self.new }
        ensures proxy { Asks C.meaning (look_ups_at self.new.acts.status) result self.old.proxy
            self.new.proxy }
    {
        match self.answer(&request) {
            Ok(answer) => Ok(ServerState::ReplyNeeded(with_answer(request, answer))),
            Err(error) => Err(refusal(self.state, request, error)),
        }
    }

    fn answer(&mut self, request: &TsRequest) -> Result<Answer, Refusal>
        // What must hold before.
        requires { HasDone no_acts self.old }
        // The turn, and the step in it.
        ensures turn { let c = either N.REQUESTS N.meaning K.meaning
            in (start : ServerView (SspiContext N K) C) (d : TsRequest) →
            request.now ≡ record d { version = self.old.settings.version } →
            IsReady c start d self.old →
            self.old.state ≡ CredSspState.NegoToken →
            self.old.output ≡ [] → Answered c start d (answered result) self.new }
        ensures step { let c = either N.REQUESTS N.meaning K.meaning
            in (start : ServerView (SspiContext N K) C) (d : TsRequest) →
            d.nego_tokens ≡ request.now.nego_tokens → IsAtStep c C.meaning start self.old →
            HasAccepted c C.meaning start d (answered result) self.new }
        ensures kept { (self.new.settings.version ≡ self.old.settings.version) ×
            OnErr result (self.new.state ≡ self.old.state) }
        // What a refusal says.
        ensures cause { let c = either N.REQUESTS N.meaning K.meaning
            in (start : ServerView (SspiContext N K) C) (d : TsRequest) →
            request.now ≡ record d { version = self.old.settings.version } →
            IsAtStep c C.meaning start self.old →
            IfErr result (λ error. error.error_type ≢ ErrorKind.InsufficientMemory →
            NegoCause c C.meaning self.new.acts.status start d self.new error.error_type) }
        // What holds afterwards, and what the proxy was asked.
        ensures reached { HasReached self.new.acts.status self.new }
        ensures proxy { Asks C.meaning (look_ups_at self.new.acts.status) result self.old.proxy
            self.new.proxy }
    {
        self.acts.negotiated = true;
        let Some(context) = &mut self.context else {
            unreachable!()
        };
        let step = accept(context, &self.credentials_handle, &request.nego_tokens)?;
        self.acts.status = Some(step.status);
        self.output = step.output;
        self.answer_step(step.status, request)
    }

    fn answer_step(
        &mut self,
        status: SecurityStatus,
        request: &TsRequest,
    ) -> Result<Answer, Refusal>
        // What must hold before.
        requires { HasDone (record no_acts { negotiated = true; status = Some status }) self.old }
        // The turn, and the step in it.
        ensures turn { let c = either N.REQUESTS N.meaning K.meaning
            in (start : ServerView (SspiContext N K) C) (d : TsRequest) →
            request.now ≡ record d { version = self.old.settings.version } →
            IsReady c start d self.old →
            self.old.state ≡ CredSspState.NegoToken →
            Answered c start d (answered result) self.new }
        ensures step { let c = either N.REQUESTS N.meaning K.meaning
            in (start : ServerView (SspiContext N K) C) (d : TsRequest) →
            IsLater C.meaning start.proxy self.old.proxy →
            IfContext self.old.context (Accepted c C.meaning start self.old.handle d.nego_tokens
            Unknown
            (Ok (record { status = status; output = self.old.output }))) →
            HasAccepted c C.meaning start d (answered result) self.new }
        ensures kept { KeepsStep self.old result self.new }
        // What a refusal says.
        ensures cause { let c = either N.REQUESTS N.meaning K.meaning
            in (start : ServerView (SspiContext N K) C) (d : TsRequest) →
            request.now ≡ record d { version = self.old.settings.version } →
            IsLater C.meaning start.proxy self.old.proxy →
            HasCome c C.meaning Unknown status start d self.old →
            IfErr result (λ error. error.error_type ≢ ErrorKind.InsufficientMemory →
            NegoCause c C.meaning (Some status) start d self.new error.error_type) }
        // What holds afterwards, and what the proxy was asked.
        ensures reached { HasReached (Some status) self.new }
        ensures proxy { Asks C.meaning (look_ups_at self.new.acts.status) result self.old.proxy
            self.new.proxy }
    {
        if status == SecurityStatus::ContinueNeeded {
            return Ok(Answer::Token(self.copy_output()?));
        }
        if has_ended(status) {
            return self.complete(request);
        }
        Err(Refusal::new(ErrorKind::InternalError, Reason::Status))
    }

    fn copy_output(&self) -> Result<Bytes, Refusal>
        ensures ok { IfOk result (λ token. token ≡ self.now.output) }
        ensures err { IfErr result (λ error. error.error_type ≡ ErrorKind.InsufficientMemory) }
    {
        Ok(self.output.clone(self.alloc)?)
    }

    // The authentication has ended: the peer is looked up and the context completed, and then the
    // client is answered.
    fn complete(&mut self, request: &TsRequest) -> Result<Answer, Refusal>
        // What must hold before.
        requires { HasDone (record no_acts { negotiated = true; status = self.old.acts.status })
            self.old }
        // The turn, and the step in it.
        ensures turn { let c = either N.REQUESTS N.meaning K.meaning
            in (start : ServerView (SspiContext N K) C) (d : TsRequest) →
            request.now ≡ record d { version = self.old.settings.version } →
            IsReady c start d self.old →
            self.old.state ≡ CredSspState.NegoToken →
            IsOver self.old.acts.status → Answered c start d (answered result) self.new }
        ensures step { let c = either N.REQUESTS N.meaning K.meaning in
            (start : ServerView (SspiContext N K) C) (token : Option (List ℕ))
            (answer : Result Step Error) →
            IsLater C.meaning start.proxy self.old.proxy →
            IfContext self.old.context (Accepted c C.meaning start self.old.handle token Unknown
            answer) →
            CompletedStep c C.meaning start self.old.handle token answer (answered result)
            self.new.context }
        // What holds afterwards.
        ensures kept { KeepsStep self.old result self.new }
        ensures reached { HasReached self.old.acts.status self.new }
        // What a refusal says.
        ensures cause { let c = either N.REQUESTS N.meaning K.meaning in
            (start : ServerView (SspiContext N K) C) (d : TsRequest) (status : SecurityStatus) →
            request.now ≡ record d { version = self.old.settings.version } →
            IsLater C.meaning start.proxy self.old.proxy →
            HasCome c C.meaning Unknown status start d self.old →
            IfErr result (λ error. error.error_type ≢ ErrorKind.InsufficientMemory →
            OverCause c C.meaning status start d self.new error.error_type) }
        // What the proxy was asked.
        ensures proxy { Asks C.meaning 1 result self.old.proxy self.new.proxy }
    {
        let Some(context) = &mut self.context else {
            unreachable!()
        };
        identify(self.alloc, context, &mut self.credentials)?;
        context.complete_auth_token()?;
        self.answer_peer(request)
    }

    // Answers a proof that is already there, or asks for it with the last token.
    fn answer_peer(&mut self, request: &TsRequest) -> Result<Answer, Refusal>
        // What must hold before.
        requires { HasDone (record no_acts { negotiated = true; status = self.old.acts.status })
            self.old }
        // The turn.
        ensures turn { let c = either N.REQUESTS N.meaning K.meaning
            in (start : ServerView (SspiContext N K) C) (d : TsRequest) →
            request.now ≡ record d { version = self.old.settings.version } →
            IsReady c start d self.old →
            self.old.state ≡ CredSspState.NegoToken →
            IsOver self.old.acts.status → Answered c start d (answered result) self.new }
        // All that may change, and the end's state afterwards.
        ensures frame { self.new ≡ record self.old {
          state = self.new.state;
          context = self.new.context;
          acts = self.new.acts;
        } }
        ensures moved { SameBut (either N.REQUESTS N.meaning K.meaning) self.old.context
            self.new.context }
        ensures state { OnErr result (self.new.state ≡ self.old.state) }
        ensures reached { HasReached self.old.acts.status self.new }
        // What a refusal says.
        ensures cause { IfErr result (λ error. error.error_type ≢ ErrorKind.InsufficientMemory →
            AfterCause (either N.REQUESTS N.meaning K.meaning) request.now.pub_key_auth
            request.now.client_nonce self.new
            error.error_type) }
    {
        match &request.pub_key_auth {
            Some(_) => {
                let proof = self.exchange(request)?;
                self.state = CredSspState::AuthInfo;
                Ok(Answer::Proof(proof))
            }
            None => {
                if self.output.is_empty() {
                    return Err(Refusal::new(ErrorKind::InvalidToken, Reason::EmptyToken));
                }
                let token = self.copy_output()?;
                self.state = CredSspState::PubKeyInfo;
                Ok(Answer::Token(token))
            }
        }
    }
}
