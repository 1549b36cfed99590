//! The server after its authentication: the exchange of proofs, and the credentials.

ghost use Rattle.std.specs.Prelude.{◌≡◌, ◌≢◌, ◌-◌, [], None, Some, true, false, nat_lt, IsSome};
ghost use Rattle.std.specs.Prelude.{OnOk, OnErr, IfOk, IfErr};
ghost use Rattle.sspi_mech.specs.Calls.{ToSeal};
ghost use Rattle.sspi_credssp.specs.Acts.{no_acts};
ghost use Rattle.sspi_credssp.specs.Context.{either};
ghost use Rattle.sspi_credssp.specs.Exchange.{AlteredExactly, BlobStops, OpensIdentity, ProofCause};
ghost use Rattle.sspi_credssp.specs.Exchange.{prescribed};
ghost use Rattle.sspi_credssp.specs.Opened.{Exchanges, Opens};
ghost use Rattle.sspi_credssp.specs.Requests.{nonce_of};
ghost use Rattle.sspi_credssp.specs.ServerCause.{OpenedCause, OpenedExact, lacks_nonce};
ghost use Rattle.sspi_credssp.specs.Turn.{HasNonce};
ghost use Rattle.sspi_mech.specs.Answered.{answered};

use crate::acts::Acts;
use crate::context::SspiContext;
use crate::credentials::read_identity;
use crate::proof::{altered, long_enough, opens_to, present, seal_text, sealed_blob};
use crate::proxy::CredentialsProxy;
use crate::public_key::{EndpointType, prescribed_proof};
use crate::request::with_exchange;
use crate::server::CredSspServer;
use crate::server_refusal::refusal;
use crate::server_state::{ServerError, ServerState};
use crate::state::CredSspState;
use crate::versions::FIRST_HASHED_VERSION;
use sspi_mech::{Mechanism, Refusal};
use sspi_names::AuthIdentity;
use sspi_tsreq::TsRequest;
use sspi_types::{Bytes, ErrorKind, Reason};
use std::alloc::Global;

// The nonce that the proofs are made with, which must be present from version 5 on.
fn nonce_for(version: u32, nonce: &Option<[u8; 32]>) -> Result<&[u8], Refusal>
    // What `Ok` holds.
    ensures ok { IfOk result (λ bytes. bytes.now ≡ nonce_of nonce.now) }
    ensures there { OnOk result (HasNonce (nat_lt version 5) nonce.now) }
    ensures passed { OnOk result (lacks_nonce (nat_lt version 5) nonce.now ≡ false) }
    // What a refusal says.
    ensures lacking { OnErr result (lacks_nonce (nat_lt version 5) nonce.now ≡ true) }
    ensures kind { IfErr result (λ error. error.error_type ≡ ErrorKind.InvalidToken) }
{
    match nonce {
        Some(nonce) => Ok(nonce),
        None if version < FIRST_HASHED_VERSION => Ok(&[]),
        None => Err(Refusal::new(ErrorKind::InvalidToken, Reason::NoNonce)),
    }
}

// Opens the client's proof, and seals the server's own if it is the right one.
fn answer_proof<N: Mechanism, K: Mechanism>(
    alloc: Global,
    context: &mut SspiContext<N, K>,
    acts: &mut Acts,
    blob: &[u8],
    version: u32,
    nonce: &[u8],
    public_key: &[u8],
) -> Result<Bytes, Refusal>
    // What must hold before.
    requires checked { acts.old.checked ≡ false }
    requires proved { acts.old.proved ≡ false }
    // What holds of every answer.
    ensures exchanges { Exchanges (either N.REQUESTS N.meaning K.meaning) context.old blob.now
        (prescribed EndpointType.Client version nonce.now public_key.now) context.new
        acts.new.checked acts.new.proved result }
    ensures acts { acts.new ≡ record acts.old {
      checked = acts.new.checked;
      proved = acts.new.proved;
    } }
    // What `Ok` holds.
    ensures blob { let c = either N.REQUESTS N.meaning K.meaning in IfOk result (λ answer.
        c.seals context.new ((c.counts context.new).sealings - 1)
        (prescribed EndpointType.Server version nonce.now public_key.now) answer) }
    // What a refusal says.
    ensures cause { let c = either N.REQUESTS N.meaning K.meaning in
        IfErr result (λ error. error.error_type ≢ ErrorKind.InsufficientMemory →
        ProofCause c acts.new.checked context.new blob.now
        (prescribed EndpointType.Client version nonce.now public_key.now)
        (c.refuses context.new
        (ToSeal (prescribed EndpointType.Server version nonce.now public_key.now))
        error.error_type)
        error.error_type) }
    ensures exact { IfErr result (λ error. AlteredExactly (either N.REQUESTS N.meaning K.meaning)
        acts.new.checked context.new
        blob.now (prescribed EndpointType.Client version nonce.now public_key.now)
        error.error_type) }
    ensures ended { OnErr result (acts.new.proved ≡ false) }
{
    if opens_to(
        context,
        acts,
        blob,
        EndpointType::Client,
        version,
        nonce,
        public_key,
    )? {
        let proof = prescribed_proof(alloc, EndpointType::Server, version, nonce, public_key)?;
        seal_text(context, &mut acts.proved, proof.as_slice())
    } else {
        Err(altered(version))
    }
}

fn open_credentials<N: Mechanism, K: Mechanism>(
    alloc: Global,
    context: &mut SspiContext<N, K>,
    acts: &mut Acts,
    blob: &[u8],
) -> Result<AuthIdentity, Refusal>
    // What must hold before.
    requires { acts.old.opened ≡ false }
    // What holds of every answer.
    ensures opens { Opens (either N.REQUESTS N.meaning K.meaning) context.old context.new acts.old
        acts.new }
    // What `Ok` holds.
    ensures ok { OnOk result (acts.new.opened ≡ true) }
    ensures gives { IfOk result (λ identity. OpensIdentity (either N.REQUESTS N.meaning K.meaning)
        context.new blob.now identity) }
    // What a refusal says.
    ensures cause { IfErr result (λ error. error.error_type ≢ ErrorKind.InsufficientMemory →
        OpenedCause (either N.REQUESTS N.meaning K.meaning) acts.new.opened (Some context.new)
        blob.now error.error_type) }
    ensures exact { IfErr result (λ error.
        OpenedExact (either N.REQUESTS N.meaning K.meaning) acts.new.opened (Some context.new)
        blob.now error.error_type) }
{
    let text = context.unseal(blob)?;
    acts.opened = true;
    read_identity(alloc, &text)
}

impl<N: Mechanism, K: Mechanism, C: CredentialsProxy> CredSspServer<N, K, C> {
    ghost use Rattle.sspi_credssp.specs.Ends.{ServerView};
    ghost use Rattle.sspi_credssp.specs.ServerCause.{ExchangeCause, ExchangeExact};
    ghost use Rattle.sspi_credssp.specs.ServerTurn.{ServerGoes};
    ghost use Rattle.sspi_credssp.specs.ServerStage.{HasDone, ServerExchanges, ServerOpens};
    ghost use Rattle.sspi_credssp.specs.ServerStage.{IsReady};

    pub(crate) fn prove(&mut self, request: TsRequest) -> Result<ServerState, ServerError>
        // What must hold before.
        requires { HasDone no_acts self.old }
        // The turn.
        ensures turn { let c = either N.REQUESTS N.meaning K.meaning
            in (start : ServerView (SspiContext N K) C) (d : TsRequest) →
            request ≡ record d { version = self.old.settings.version } →
            IsReady c start d self.old →
            self.old.state ≡ CredSspState.PubKeyInfo →
            self.old.output ≡ [] → ServerGoes c start d result self.new }
        // What a refusal says.
        ensures cause { IfErr result (λ refusal.
            refusal.error.error_type ≢ ErrorKind.InsufficientMemory →
            ExchangeCause (either N.REQUESTS N.meaning K.meaning) request.pub_key_auth
            self.new.noted
            request.client_nonce self.new refusal.error.error_type) }
        ensures exact { IfErr result (λ refusal. ExchangeExact
            (either N.REQUESTS N.meaning K.meaning) request.pub_key_auth
            self.new.noted request.client_nonce self.new refusal.error.error_type) }
        ensures codeless { IfErr result (λ refusal. refusal.error.nstatus ≡ None) }
        // What holds afterwards.
        ensures acts { (self.new.acts.status ≡ None) × (self.new.acts.negotiated ≡ false) }
        ensures kept { IsSome self.new.context × (self.new.proxy ≡ self.old.proxy) }
    {
        match self.exchange(&request) {
            Ok(proof) => {
                self.state = CredSspState::AuthInfo;
                Ok(ServerState::ReplyNeeded(with_exchange(request, proof)))
            }
            Err(error) => Err(refusal(self.state, request, error)),
        }
    }

    pub(crate) fn finish(&mut self, request: TsRequest) -> Result<ServerState, ServerError>
        // What must hold before.
        requires { HasDone no_acts self.old }
        // The turn.
        ensures turn { let c = either N.REQUESTS N.meaning K.meaning
            in (start : ServerView (SspiContext N K) C) (d : TsRequest) →
            request ≡ record d { version = self.old.settings.version } →
            IsReady c start d self.old →
            self.old.state ≡ CredSspState.AuthInfo →
            self.old.output ≡ [] → ServerGoes c start d result self.new }
        // What a refusal says.
        ensures cause { let c = either N.REQUESTS N.meaning K.meaning in
            IfErr result (λ refusal. refusal.error.error_type ≢ ErrorKind.InsufficientMemory →
            BlobStops request.auth_info refusal.error.error_type
            (λ blob. OpenedCause c self.new.acts.opened self.new.context blob
            refusal.error.error_type)) }
        ensures exact { let c = either N.REQUESTS N.meaning K.meaning in
            IfErr result (λ refusal. BlobStops request.auth_info refusal.error.error_type
            (λ blob. OpenedExact c self.new.acts.opened self.new.context blob
            refusal.error.error_type)) }
        ensures codeless { IfErr result (λ refusal. refusal.error.nstatus ≡ None) }
        // What holds afterwards.
        ensures acts { (self.new.acts.status ≡ None) × (self.new.acts.negotiated ≡ false) }
        ensures begun { IsSome self.new.context }
        ensures proxy { self.new.proxy ≡ self.old.proxy }
    {
        match self.open(&request.auth_info) {
            Ok(identity) => {
                self.state = CredSspState::Final;
                Ok(ServerState::Finished(identity))
            }
            Err(error) => Err(refusal(self.state, request, error)),
        }
    }

    fn open(&mut self, auth_info: &Option<Bytes>) -> Result<AuthIdentity, Refusal>
        // What must hold before.
        requires acts { self.old.acts ≡ no_acts }
        requires begun { IsSome self.old.context }
        // What holds of every answer.
        ensures opens { ServerOpens (either N.REQUESTS N.meaning K.meaning) self.old auth_info.now
            (answered result) self.new }
        // What a refusal says.
        ensures cause { let c = either N.REQUESTS N.meaning K.meaning in
            IfErr result (λ error. error.error_type ≢ ErrorKind.InsufficientMemory →
            BlobStops auth_info.now error.error_type
            (λ blob. OpenedCause c self.new.acts.opened self.new.context blob
            error.error_type)) }
        ensures exact { let c = either N.REQUESTS N.meaning K.meaning in
            IfErr result (λ error. BlobStops auth_info.now error.error_type
            (λ blob. OpenedExact c self.new.acts.opened self.new.context blob error.error_type)) }
        // What holds afterwards.
        ensures begun { IsSome self.new.context }
    {
        let blob = sealed_blob(auth_info, Reason::NoAuthInfo)?;
        let Some(context) = &mut self.context else {
            unreachable!()
        };
        open_credentials(self.alloc, context, &mut self.acts, blob)
    }

    // Checks the client's proof and seals the server's.
    pub(crate) fn exchange(&mut self, request: &TsRequest) -> Result<Bytes, Refusal>
        // What must hold before.
        requires unproved { (self.old.acts.checked ≡ false) × (self.old.acts.proved ≡ false) }
        requires begun { IsSome self.old.context }
        requires noted { IsSome self.old.noted }
        // What holds of every answer.
        ensures exchanges { ServerExchanges (either N.REQUESTS N.meaning K.meaning) self.old
            request.now (answered result) self.new }
        // What a refusal says.
        ensures cause { IfErr result (λ error. error.error_type ≢ ErrorKind.InsufficientMemory →
            ExchangeCause (either N.REQUESTS N.meaning K.meaning) request.now.pub_key_auth
            self.new.noted
            request.now.client_nonce self.new error.error_type) }
        ensures exact { IfErr result (λ error. ExchangeExact (either N.REQUESTS N.meaning K.meaning)
            request.now.pub_key_auth
            self.new.noted request.now.client_nonce self.new error.error_type) }
        ensures ended { OnErr result (self.new.acts.proved ≡ false) }
        // What holds afterwards.
        ensures begun { IsSome self.new.context }
    {
        let Some(version) = self.peer_version else {
            unreachable!()
        };
        let Some(context) = &mut self.context else {
            unreachable!()
        };
        let blob = present(&request.pub_key_auth, Reason::NoPubKey)?;
        let nonce = nonce_for(version, &request.client_nonce)?;
        let blob = long_enough(blob)?;
        let key = self.public_key.as_slice();
        answer_proof(
            self.alloc,
            context,
            &mut self.acts,
            blob,
            version,
            nonce,
            key,
        )
    }
}
