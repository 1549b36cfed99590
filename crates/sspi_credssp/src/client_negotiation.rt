//! The client's authentication: the steps of its context, and the proof of the key at their end.

ghost use Rattle.std.specs.Prelude.{◌≡◌, ◌≢◌, ◌<◌, ◌+◌, ℕ, List, [], ◌∷◌, None, Some, true, false};
ghost use Rattle.std.specs.Prelude.{IsSome, OnErr, IfErr};
ghost use Rattle.sspi_names.specs.declared.network.NetworkRequest.{NetworkRequest};
ghost use Rattle.sspi_mech.specs.Answers.{answer_of, OnAsk};
ghost use Rattle.sspi_mech.specs.declared.step.Answer.TheVariants as answers;
ghost use Rattle.sspi_credssp.specs.Acts.{no_acts, SameBut, is_waiting_in, left_in};
ghost use Rattle.sspi_credssp.specs.Context.{Begun, IfContext, either, ForClient};
ghost use Rattle.sspi_credssp.specs.ClientCause.{NegoCause, ProveCause};
ghost use Rattle.sspi_credssp.specs.ClientTurn.{Asked, StepsTo, HasStepped, OnSuspended};
ghost use Rattle.sspi_credssp.specs.ClientTurn.{client_requirements, client_args};
ghost use Rattle.sspi_credssp.specs.Refused.{IsRefusedFor};
ghost use Rattle.sspi_mech.specs.Answered.{answered};
ghost use Rattle.sspi_types.specs.declared.credential_use.CredentialUse.TheVariants as purposes;

use crate::client::CredSspClient;
use crate::client_state::{ClientState, Progress};
use crate::context::SspiContext;
use crate::proof::seal_text;
use crate::request::{with_proof, with_tokens};
use crate::state::CredSspState;
use crate::token::{copy_token, token_of};
use bitflags::Flags;
use sspi_mech::{InitializeSecurityContext, Mechanism, Progressing, Refusal, Reply};
use sspi_names::CredentialsBuffers;
use sspi_tsreq::TsRequest;
use sspi_types::{
    Bytes, ClientRequestFlags, DataRepresentation, ErrorKind, Reason, SecurityStatus, Text,
};

fn client_requirements() -> ClientRequestFlags
    ensures { result ≡ client_requirements }
{
    ClientRequestFlags::MUTUAL_AUTH
        .union(ClientRequestFlags::USE_SESSION_KEY)
        .union(ClientRequestFlags::INTEGRITY)
        .union(ClientRequestFlags::CONFIDENTIALITY)
}

fn initialize<N: Mechanism, K: Mechanism>(
    context: &mut SspiContext<N, K>,
    credentials_handle: &Option<CredentialsBuffers>,
    service_principal_name: &Text,
    token: &Option<Bytes>,
) -> Result<Progressing, Refusal>
    ensures step { (either N.REQUESTS N.meaning K.meaning).steps context.old
        (client_args credentials_handle.now service_principal_name.now token.now)
        (answer_of (answered result)) context.new }
{
    Ok(context.initialize_security_context(&InitializeSecurityContext {
        credentials_handle: credentials_handle.as_ref(),
        context_requirements: client_requirements(),
        target_data_representation: DataRepresentation::Native,
        target_name: Some(service_principal_name.as_str()),
        input: token_of(token),
    })?)
}

fn resume<N: Mechanism, K: Mechanism>(
    context: &mut SspiContext<N, K>,
    reply: &Reply,
) -> Result<Progressing, Refusal>
    ensures { (either N.REQUESTS N.meaning K.meaning).resumes context.old reply.now
        (answer_of (answered result)) context.new }
{
    Ok(context.resume(reply)?)
}

impl<N: Mechanism, K: Mechanism> CredSspClient<N, K> {
    ghost use Rattle.sspi_credssp.specs.Ends.{ClientView};
    ghost use Rattle.sspi_credssp.specs.ClientCall.{Awaits};
    ghost use Rattle.sspi_credssp.specs.ClientStage.{HasDone, HasGoneOn, KeepsStep, KeepsRequest};
    ghost use Rattle.sspi_credssp.specs.ClientStage.{ClientAnswers, ClientProves};
    ghost use Rattle.sspi_credssp.specs.ClientTurn.{ClientGoes, IsReady};

    pub(crate) fn negotiate(&mut self, request: TsRequest) -> Result<Progress, Refusal>
        // What must hold before.
        requires acts { self.old.acts ≡ no_acts }
        requires begun { IsSome self.old.context }
        // The turn, and the step in it.
        ensures turn { let c = either N.REQUESTS N.meaning K.meaning
            in (start : ClientView (SspiContext N K)) (d : TsRequest) →
            request ≡ record d { version = self.old.settings.version } →
            IsReady c start d self.old →
            self.old.state ≡ CredSspState.NegoToken →
            self.old.output ≡ [] → ClientGoes c start d (answered result) self.new }
        ensures step { let c = either N.REQUESTS N.meaning K.meaning
            in (start : ClientView (SspiContext N K)) (d : TsRequest) →
            d.nego_tokens ≡ request.nego_tokens → start.settings.target ≡ self.old.settings.target →
            IfContext self.old.context (Begun c start.context start.handle
            (ForClient start.settings.mode) purposes.Outbound
            (Some start.settings.credentials) self.old.handle) →
            HasStepped c start d 0 [] (answered result) self.new }
        // What a refusal says.
        ensures cause { IfErr result (λ error. error.error_type ≢ ErrorKind.InsufficientMemory →
            NegoCause (either N.REQUESTS N.meaning K.meaning) self.new.acts.status self.new
            error.error_type) }
        // What holds afterwards.
        ensures begun { IsSome self.new.context }
    {
        self.acts.negotiated = true;
        let Some(context) = &mut self.context else {
            unreachable!()
        };
        let progress = initialize(
            context,
            &self.credentials_handle,
            &self.service_principal_name,
            &request.nego_tokens,
        );
        self.go_on(progress, request)
    }

    pub(crate) fn resume_with(
        &mut self,
        reply: &Reply,
        request: TsRequest,
    ) -> Result<Progress, Refusal>
        // What must hold before.
        requires done { HasDone no_acts self.old }
        // The turn, and the step in it.
        ensures on { HasGoneOn (either N.REQUESTS N.meaning K.meaning) self.old self.new }
        ensures turn { let c = either N.REQUESTS N.meaning K.meaning
            in (start : ClientView (SspiContext N K)) (d : TsRequest) →
            request ≡ record d { version = self.old.settings.version } →
            IsReady c start d self.old →
            self.old.state ≡ CredSspState.NegoToken →
            self.old.output ≡ [] → ClientGoes c start d (answered result) self.new }
        ensures step { let c = either N.REQUESTS N.meaning K.meaning
            in (start : ClientView (SspiContext N K)) (d : TsRequest)
            (tries : ℕ) (log : List Asked) (q : NetworkRequest) →
            StepsTo c start d tries log (answers.Ask q) self.old →
            HasStepped c start d tries (record { question = q; reply = reply.now } ∷ log)
            (answered result) self.new }
        // What an unfinished step leaves.
        ensures still { let c = either N.REQUESTS N.meaning K.meaning
            in (start : ClientView (SspiContext N K)) (d : TsRequest)
            (tries : ℕ) (log : List Asked) (q : NetworkRequest) →
            request ≡ record d { version = self.old.settings.version } →
            IsReady c start d self.old →
            self.old.state ≡ CredSspState.NegoToken →
            self.old.output ≡ [] → StepsTo c start d tries log (answers.Ask q) self.old →
            OnErr result (self.new.acts.status ≡ None → is_waiting_in c self.new.context ≡ true →
            Awaits c start d (tries + 1) (record { question = q; reply = reply.now } ∷ log) q
            self.new) }
        ensures dropped { OnErr result (is_waiting_in (either N.REQUESTS N.meaning K.meaning)
            self.new.context ≡ false →
            self.new.kept ≡ self.old.kept) }
        ensures falls { let c = either N.REQUESTS N.meaning K.meaning in
            OnSuspended (answered result)
            (left_in c self.new.context < left_in c self.old.context) }
        // What a refusal says.
        ensures cause { IsRefusedFor result
            (NegoCause (either N.REQUESTS N.meaning K.meaning) self.new.acts.status self.new) }
    {
        self.acts.negotiated = true;
        let Some(context) = &mut self.context else {
            unreachable!()
        };
        let progress = resume(context, reply);
        self.go_on(progress, request)
    }

    // Turns the step's answer into progress. The request is kept while the context waits, also if a
    // refused resume waits again.
    fn go_on(
        &mut self,
        progress: Result<Progressing, Refusal>,
        request: TsRequest,
    ) -> Result<Progress, Refusal>
        // What must hold before.
        requires done { HasDone (record no_acts { negotiated = true }) self.old }
        // The turn, and the step in it.
        ensures on { HasGoneOn (either N.REQUESTS N.meaning K.meaning) self.old self.new }
        ensures turn { let c = either N.REQUESTS N.meaning K.meaning
            in (start : ClientView (SspiContext N K)) (d : TsRequest) →
            request ≡ record d { version = self.old.settings.version } →
            IsReady c start d self.old →
            self.old.state ≡ CredSspState.NegoToken →
            self.old.output ≡ [] → OnAsk (answer_of (answered progress))
            (is_waiting_in c self.old.context ≡ true) →
            ClientGoes c start d (answered result) self.new }
        ensures step { let c = either N.REQUESTS N.meaning K.meaning in
            (start : ClientView (SspiContext N K)) (d : TsRequest) (tries : ℕ) (log : List Asked) →
            StepsTo c start d tries log (answer_of (answered progress)) self.old →
            HasStepped c start d tries log (answered result) self.new }
        // What an unfinished step leaves.
        ensures still { OnErr result (self.new.acts.status ≡ None →
            KeepsRequest (either N.REQUESTS N.meaning K.meaning) self.old (answered progress)
            request self.new) }
        ensures dropped { OnErr result (is_waiting_in (either N.REQUESTS N.meaning K.meaning)
            self.new.context ≡ false →
            self.new.kept ≡ self.old.kept) }
        ensures falls { let c = either N.REQUESTS N.meaning K.meaning in (n : ℕ) →
            OnAsk (answer_of (answered progress)) (left_in c self.old.context < n) →
            OnSuspended (answered result) (left_in c self.new.context < n) }
        // What a refusal says.
        ensures cause { IsRefusedFor result
            (NegoCause (either N.REQUESTS N.meaning K.meaning) self.new.acts.status self.new) }
    {
        match progress {
            Ok(Progressing::Done(step)) => {
                let state = self.reply(step.status, step.output, request)?;
                Ok(Progress::Completed(state))
            }
            Ok(Progressing::Suspended(question)) => {
                self.suspended = Some(request);
                Ok(Progress::Suspended(question))
            }
            Err(error) => {
                if self.waiting() {
                    self.suspended = Some(request);
                }
                Err(error)
            }
        }
    }

    fn reply(
        &mut self,
        status: SecurityStatus,
        output: Bytes,
        request: TsRequest,
    ) -> Result<ClientState, Refusal>
        // What must hold before.
        requires acts { self.old.acts ≡ record no_acts { negotiated = true } }
        requires begun { IsSome self.old.context }
        // The turn, and the step in it.
        ensures turn { let c = either N.REQUESTS N.meaning K.meaning
            in (start : ClientView (SspiContext N K)) (d : TsRequest) →
            request ≡ record d { version = self.old.settings.version } →
            IsReady c start d self.old →
            self.old.state ≡ CredSspState.NegoToken →
            ClientAnswers c start d (answered result) self.new }
        ensures step { KeepsStep (either N.REQUESTS N.meaning K.meaning) self.old status output
            self.new }
        // What a refusal says.
        ensures cause { IsRefusedFor result
            (NegoCause (either N.REQUESTS N.meaning K.meaning) self.new.acts.status self.new) }
    {
        self.acts.status = Some(status);
        self.output = output;
        if status == SecurityStatus::Ok {
            return self.prove(request);
        }
        let token = self.output.clone(self.alloc)?;
        Ok(ClientState::ReplyNeeded(with_tokens(request, Some(token))))
    }

    // The authentication has ended: the client's proof goes with the last token, if there is one.
    fn prove(&mut self, request: TsRequest) -> Result<ClientState, Refusal>
        // What must hold before.
        requires acts { self.old.acts ≡ record no_acts {
          negotiated = true;
          status = Some SecurityStatus.Ok;
        } }
        requires begun { IsSome self.old.context }
        // The turn, and the step in it.
        ensures turn { let c = either N.REQUESTS N.meaning K.meaning
            in (start : ClientView (SspiContext N K)) (d : TsRequest) →
            request ≡ record d { version = self.old.settings.version } →
            IsReady c start d self.old →
            self.old.state ≡ CredSspState.NegoToken →
            ClientAnswers c start d (answered result) self.new }
        ensures step { KeepsStep (either N.REQUESTS N.meaning K.meaning) self.old SecurityStatus.Ok
            self.old.output self.new }
        // What a refusal says.
        ensures cause { IsRefusedFor result
            (ProveCause (either N.REQUESTS N.meaning K.meaning) self.new.noted self.new.context
            self.new) }
    {
        let tokens = copy_token(self.alloc, &self.output)?;
        let proof = self.seal_proof()?;
        self.state = CredSspState::AuthInfo;
        Ok(ClientState::ReplyNeeded(with_proof(request, tokens, self.client_nonce, proof)))
    }

    fn seal_proof(&mut self) -> Result<Bytes, Refusal>
        // What must hold before.
        requires proved { self.old.acts.proved ≡ false }
        requires begun { IsSome self.old.context }
        // What holds of every answer.
        ensures proves { ClientProves (either N.REQUESTS N.meaning K.meaning) self.old
            (answered result) self.new }
        ensures moved { SameBut (either N.REQUESTS N.meaning K.meaning) self.old.context
            self.new.context }
        // What a refusal says.
        ensures cause { IfErr result (λ error. error.error_type ≢ ErrorKind.InsufficientMemory →
            ProveCause (either N.REQUESTS N.meaning K.meaning) self.new.noted self.new.context
            self.new error.error_type) }
    {
        let Some(version) = self.peer_version else {
            return Err(Refusal::new(ErrorKind::InternalError, Reason::NoVersion));
        };
        let proof = self.own_proof(version)?;
        let Some(context) = &mut self.context else {
            unreachable!()
        };
        seal_text(context, &mut self.acts.proved, proof.as_slice())
    }
}
