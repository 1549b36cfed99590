//! The CredSSP client (MS-CSSP 3.1.5.1): `process` and `resume`.

ghost use Rattle.std.specs.Prelude.{◌≡◌, [], None, Some, false, IsSome, IfErr, OnOk, OnErr};
ghost use Rattle.std.specs.Prelude.{length, string_bytes};
ghost use Rattle.sspi_types.specs.declared.credential_use.CredentialUse.TheVariants as purposes;
ghost use Rattle.sspi_credssp.specs.Unused.{IsUnusedIn};
ghost use Rattle.sspi_credssp.specs.Acts.{no_acts, is_waiting_in, left_in};
ghost use Rattle.sspi_credssp.specs.Ends.{ClientView};
ghost use Rattle.sspi_credssp.specs.Context.{either, ForClient};
ghost use Rattle.sspi_credssp.specs.Noted.{is_altered_in, is_old_in, noted_in, VersionStopsIn};
ghost use Rattle.sspi_credssp.specs.Noted.{OrMemory};
ghost use Rattle.sspi_credssp.specs.Refused.{IsRefusedFor};
ghost use Rattle.sspi_credssp.specs.Requests.{is_code};
ghost use Rattle.sspi_mech.specs.Answered.{answered};

use crate::acts::Acts;
use crate::answered::answered;
use crate::both_ends::{adopt, forget};
use crate::client_state::Progress;
use crate::context::SspiContext;
use crate::mode::ClientMode;
use crate::peer_version::{DEFAULT_LEAST_VERSION, note_version};
use crate::request::at_version;
use crate::state::CredSspState;
use crate::versions::DEFAULT_VERSION;
use sspi_mech::{Mechanism, Refusal, Reply};
use sspi_names::{Credentials, CredentialsBuffers};
use sspi_tsreq::{CredSspMode, TsRequest};
use sspi_types::{Bytes, CredentialUse, Error, ErrorKind, Reason, Text};
use std::alloc::Global;
use std::marker::Model;

/// The CredSSP client (MS-CSSP 3.1.5.1): it authenticates, proves that it uses the channel with the
/// given public key, and checks that the server proves the same. Only then does it delegate its
/// credentials.
#[derive(Drop)]
pub struct CredSspClient<N, K> {
    pub(crate) alloc: Global,
    pub(crate) public_key: Bytes,
    pub(crate) credentials: Credentials,
    pub(crate) cred_ssp_mode: CredSspMode,
    pub(crate) ts_request_version: u32,
    pub(crate) least_version: u32,
    pub(crate) client_mode: ClientMode,
    pub(crate) service_principal_name: Text,
    pub(crate) client_nonce: [u8; 32],
    pub(crate) state: CredSspState,
    pub(crate) context: Option<SspiContext<N, K>>,
    pub(crate) credentials_handle: Option<CredentialsBuffers>,
    pub(crate) peer_version: Option<u32>,
    pub(crate) acts: Acts,
    pub(crate) output: Bytes,
    pub(crate) suspended: Option<TsRequest>,
}

impl<N, K> Model for CredSspClient<N, K> {
    ghost use Rattle.sspi_credssp.specs.declared.context.SspiContext.{SspiContext};
    ghost use Rattle.sspi_credssp.specs.Ends.{ClientView, IsClientState};

    ghost Value = { ClientView (SspiContext N K) };

    ghost view = { λ a. record {
      settings = record {
        public_key = a.public_key;
        credentials = a.credentials;
        delegation = a.cred_ssp_mode;
        version = a.ts_request_version;
        least = a.least_version;
        mode = a.client_mode;
        target = a.service_principal_name;
        nonce = a.client_nonce;
      };
      state = a.state;
      context = a.context;
      handle = a.credentials_handle;
      noted = a.peer_version;
      acts = a.acts;
      output = a.output;
      kept = a.suspended;
    } };

    ghost invariant = { λ a. IsClientState a.context a.credentials_handle a.peer_version a.state
        a.client_nonce };
}

impl<N, K> CredSspClient<N, K> {
    ghost use Rattle.sspi_credssp.specs.Ends.{IsFreshClient, new_client};

    /// A client of version 6; otherwise like `new_with_version`.
    pub fn new(
        alloc: Global,
        public_key: Vec<u8>,
        credentials: Credentials,
        cred_ssp_mode: CredSspMode,
        client_mode: ClientMode,
        service_principal_name: String,
        client_nonce: [u8; 32],
    ) -> CredSspClient<N, K>
        ensures fresh { IsFreshClient result }
        ensures settings { result.settings ≡ new_client public_key.items credentials cred_ssp_mode 6
            client_mode
            (string_bytes service_principal_name) client_nonce }
    {
        CredSspClient::new_with_version(
            alloc,
            public_key,
            credentials,
            cred_ssp_mode,
            DEFAULT_VERSION,
            client_mode,
            service_principal_name,
            client_nonce,
        )
    }

    /// A client of this version of CredSSP, with nothing delivered to it yet. Allocates nothing.
    ///
    /// `public_key` is the SubjectPublicKey of the channel's certificate, and
    /// `service_principal_name` the target of the authentication. `client_nonce` goes into the
    /// proofs from version 5 on: use fresh random bytes for each client. If `cred_ssp_mode` is
    /// `CredentialLess`, the client authenticates with its credentials and delegates empty ones.
    pub fn new_with_version(
        alloc: Global,
        public_key: Vec<u8>,
        credentials: Credentials,
        cred_ssp_mode: CredSspMode,
        ts_request_version: u32,
        client_mode: ClientMode,
        service_principal_name: String,
        client_nonce: [u8; 32],
    ) -> CredSspClient<N, K>
        ensures fresh { IsFreshClient result }
        ensures settings { result.settings ≡ new_client public_key.items credentials cred_ssp_mode
            ts_request_version client_mode
            (string_bytes service_principal_name) client_nonce }
    {
        CredSspClient {
            alloc,
            public_key: Bytes::from_vec(public_key),
            credentials,
            cred_ssp_mode,
            ts_request_version,
            least_version: DEFAULT_LEAST_VERSION,
            client_mode,
            service_principal_name: Text::from_string(service_principal_name),
            client_nonce,
            state: CredSspState::NegoToken,
            context: None,
            credentials_handle: None,
            peer_version: None,
            acts: Acts::none(),
            output: Bytes::new(alloc),
            suspended: None,
        }
    }

    /// The same client, refusing a server whose first version is below this; 0 accepts every
    /// version. Without this call the least is 5: below it the proofs are the key itself and the
    /// key plus one (MS-CSSP 3.1.5), which a relay of the exchange can choose. Allocates nothing.
    pub fn with_least_version(self, least: u32) -> CredSspClient<N, K>
        ensures { result ≡ record self { settings = record self.settings { least = least } } }
    {
        let mut client = self;
        client.least_version = least;
        client
    }

    /// What the last call did on the security context, even if it was refused.
    pub fn last_acts(&self) -> Acts
        ensures { result ≡ self.now.acts }
    {
        self.acts
    }

    /// What the client waits for.
    pub fn state(&self) -> CredSspState
        ensures { result ≡ self.now.state }
    {
        self.state
    }

    /// The nonce that goes into the proofs from version 5 on: the 32 bytes that the client was made
    /// with.
    pub fn client_nonce(&self) -> &[u8; 32]
        ensures nonce { result.now ≡ self.now.settings.nonce }
        ensures size { length self.now.settings.nonce ≡ 32 }
    {
        &self.client_nonce
    }

    /// Takes the token that the context's step returned in the last call, resumes included; empty
    /// if no step answered, and once it has been taken.
    pub fn take_output(&mut self) -> Bytes
        ensures output { result ≡ self.old.output }
        ensures rest { self.new ≡ record self.old { output = [] } }
    {
        std::mem::replace(&mut self.output, Bytes::new(self.alloc))
    }
}

impl<N: Mechanism, K: Mechanism> CredSspClient<N, K> {
    ghost use Rattle.sspi_credssp.specs.Context.{Begun, BeginCause, IfContext, MadeOr};
    ghost use Rattle.sspi_credssp.specs.ClientCall.{ClientCall, ResumeCall};
    ghost use Rattle.sspi_credssp.specs.ClientCause.{StateCause, StateExact};
    ghost use Rattle.sspi_credssp.specs.ClientTurn.{HasStepped, ClientGoes, IsReady};

    /// Whether a turn is suspended.
    pub fn waiting(&self) -> bool
        ensures { result ≡ is_waiting_in (either N.REQUESTS N.meaning K.meaning) self.now.context }
    {
        match &self.context {
            None => false,
            Some(context) => context.waiting(),
        }
    }

    /// How often the context may still ask a KDC, at most; 0 before there is a context.
    pub fn requests_left(&self) -> u64
        ensures { result ≡ left_in (either N.REQUESTS N.meaning K.meaning) self.now.context }
    {
        match &self.context {
            None => 0,
            Some(context) => context.requests_left(),
        }
    }

    /// Takes the server's message and makes the client's next one; the first call takes a default
    /// request.
    ///
    /// Refusals come in this order: `OutOfSequence` while a turn is suspended; `InvalidToken`, with
    /// the code as its status, if the server reports an error; the kinds of the version; the kinds
    /// of a new context; then by the state. The call that makes the context checks no version. In
    /// any other: `DowngradeDetected` if no version of the server is pinned yet and this one is
    /// below the least, and then not pinned; `MessageAltered` if the server changes its version. In
    /// the authentication: the kinds of the context's step, `InternalError` if it ends before a
    /// version was pinned, and the kinds of sealing the proof. When the server's proof is due:
    /// `InvalidToken` if it is absent or has under 16 bytes; the kinds of opening it;
    /// `MessageAltered` if it is not the right one; the kinds of the credentials' text and of
    /// sealing it. `OutOfSequence` once the last message was made. Out of memory may replace any
    /// refusal after the version. It never replaces that last one, nor that of a proof that is
    /// absent, short, not opened or wrong.
    ///
    /// A call that is refused for a suspended turn, the code or the version only forgets what the
    /// last call did. Any other refusal leaves the state, the mode and what was acquired before
    /// unchanged, and keeps a context that the call made. The request is dropped.
    pub fn process(&mut self, ts_request: TsRequest) -> Result<Progress, Error>
        ensures { ClientCall (either N.REQUESTS N.meaning K.meaning) self.old ts_request result
            self.new }
    {
        self.forget_last_call();
        if self.waiting() {
            return Err(Error::new(ErrorKind::OutOfSequence, Reason::Sequence));
        }
        ts_request.check_error()?;
        self.begin(ts_request.version)?;
        answered(self.take(at_version(ts_request, self.ts_request_version)))
    }

    /// Continues the suspended turn once the outcome of its request is known.
    ///
    /// `OutOfSequence` if no turn is suspended; the client then only forgets what its last call did
    /// (`last_acts`, `take_output`). Otherwise it refuses with the kinds of the context's step;
    /// with `InternalError` if the authentication ends before a version was pinned; with the kinds
    /// of sealing the proof; and when out of memory. A refused client is still suspended exactly if
    /// its context is: it keeps the request, and a later call continues from there.
    pub fn resume(&mut self, reply: &Reply) -> Result<Progress, Error>
        ensures { ResumeCall (either N.REQUESTS N.meaning K.meaning) self.old reply.now result
            self.new }
    {
        self.forget_last_call();
        if !self.waiting() {
            return Err(Error::new(ErrorKind::OutOfSequence, Reason::Sequence));
        }
        match self.suspended.take() {
            Some(request) => answered(self.resume_with(reply, request)),
            None => Err(Error::new(ErrorKind::OutOfSequence, Reason::Sequence)),
        }
    }

    fn forget_last_call(&mut self)
        ensures { self.new ≡ record self.old { acts = no_acts; output = [] } }
    {
        forget(self.alloc, &mut self.acts, &mut self.output);
    }

    // The turn, once the request's code and version have been checked.
    fn take(&mut self, request: TsRequest) -> Result<Progress, Refusal>
        // What must hold before.
        requires acts { self.old.acts ≡ no_acts }
        requires begun { IsSome self.old.context }
        // The turn, and the step in it.
        ensures turn { let c = either N.REQUESTS N.meaning K.meaning
            in (start : ClientView (SspiContext N K)) (d : TsRequest) →
            request ≡ record d { version = self.old.settings.version } →
            IsReady c start d self.old → self.old.output ≡ [] →
            ClientGoes c start d (answered result) self.new }
        ensures step { let c = either N.REQUESTS N.meaning K.meaning
            in (start : ClientView (SspiContext N K)) (d : TsRequest) →
            d.nego_tokens ≡ request.nego_tokens → start.settings.target ≡ self.old.settings.target →
            IfContext self.old.context (Begun c start.context start.handle
            (ForClient start.settings.mode) purposes.Outbound
            (Some start.settings.credentials) self.old.handle) →
            HasStepped c start d 0 [] (answered result) self.new }
        // What a refusal says.
        ensures cause { IsRefusedFor result
            (StateCause (either N.REQUESTS N.meaning K.meaning) self.old.state request self.new) }
        ensures exact { IfErr result (λ error.
            StateExact (either N.REQUESTS N.meaning K.meaning) self.old.state request self.new
            error.error_type) }
        // What holds afterwards.
        ensures begun { IsSome self.new.context }
    {
        match self.state {
            CredSspState::NegoToken => self.negotiate(request),
            CredSspState::AuthInfo => Ok(Progress::Completed(self.conclude(request)?)),
            CredSspState::PubKeyInfo | CredSspState::Final => Err(Refusal::out_of_sequence()),
        }
    }

    fn begin(&mut self, version: u32) -> Result<(), Refusal>
        // What `Ok` holds, and all that may change.
        ensures frame { self.new ≡ record self.old {
          context = self.new.context;
          handle = self.new.handle;
          noted = self.new.noted;
        } }
        ensures ready { let c = either N.REQUESTS N.meaning K.meaning in
            OnOk result ((start : ClientView (SspiContext N K)) (d : TsRequest) →
            d.version ≡ version → self.old ≡ record start { acts = no_acts; output = [] } →
            is_waiting_in c start.context ≡ false → is_code d.error_code ≡ false →
            IsReady c start d self.new) }
        ensures begun { let c = either N.REQUESTS N.meaning K.meaning in OnOk result
            (IfContext self.new.context
            (Begun c self.old.context self.old.handle (ForClient self.old.settings.mode)
            purposes.Outbound
            (Some self.old.settings.credentials) self.new.handle)) }
        // What a refusal leaves.
        ensures err { OnErr result (self.new ≡ self.old) }
        ensures noted { OnErr result (self.new.noted ≡ noted_in self.old.context
            self.old.settings.least self.old.noted version) }
        // How the version was checked, and what a refusal says.
        ensures passed { OnOk result (IsSome self.new.context ×
            (is_altered_in self.old.context self.old.noted version ≡ false)
            × (is_old_in self.old.context self.old.settings.least self.old.noted version ≡ false)) }
        ensures cause { let c = either N.REQUESTS N.meaning K.meaning in
            IfErr result (λ error. VersionStopsIn self.old.context self.old.settings.least
            self.old.noted version error.error_type
            (MadeOr self.old.context self.new.context (OrMemory error.error_type
            (BeginCause c (ForClient self.old.settings.mode) purposes.Outbound
            (Some self.old.settings.credentials) error.error_type))
            ⊥)) }
    {
        match &self.context {
            None => {
                self.make_context()?;
                Ok(())
            }
            Some(_) => note_version(&mut self.peer_version, self.least_version, version),
        }
    }

    // The context and the credentials that it acquires are kept together or not at all.
    fn make_context(&mut self) -> Result<(), Refusal>
        // What must hold before.
        requires { self.old.context ≡ None }
        // What `Ok` holds, and all that may change.
        ensures frame { self.new ≡ record self.old {
          context = self.new.context;
          handle = self.new.handle;
        } }
        ensures begun { let c = either N.REQUESTS N.meaning K.meaning in OnOk result
            (IfContext self.new.context
            (Begun c self.old.context self.old.handle (ForClient self.old.settings.mode)
            purposes.Outbound
            (Some self.old.settings.credentials) self.new.handle)) }
        ensures made { OnOk result (IsSome self.new.context) }
        ensures unused { OnOk result (IsUnusedIn (either N.REQUESTS N.meaning K.meaning)
            self.new.context) }
        // What a refusal says, and what it leaves.
        ensures err { OnErr result (self.new ≡ self.old) }
        ensures fresh { (self.old.noted ≡ None) × (self.old.state ≡ CredSspState.NegoToken) }
        ensures cause { let c = either N.REQUESTS N.meaning K.meaning in
            IsRefusedFor result (BeginCause c (ForClient self.old.settings.mode) purposes.Outbound
            (Some self.old.settings.credentials)) }
    {
        let context = SspiContext::new_client(self.alloc, &self.client_mode)?;
        adopt(
            context,
            CredentialUse::Outbound,
            Some(&self.credentials),
            &mut self.context,
            &mut self.credentials_handle,
        )
    }
}
