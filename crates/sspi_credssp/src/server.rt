//! The CredSSP server (MS-CSSP 3.1.5.2): `process`.

ghost use Rattle.std.specs.Prelude.{◌≡◌, ◌≢◌, [], None, true, false, IsSome, IfErr, OnOk, OnErr};
ghost use Rattle.sspi_types.specs.declared.credential_use.CredentialUse.TheVariants as purposes;
ghost use Rattle.sspi_credssp.specs.Acts.{no_acts};
ghost use Rattle.sspi_credssp.specs.Proxy.{Asks, list_calls, lists_in};
ghost use Rattle.sspi_credssp.specs.Context.{Begun, IfContext, MadeOr, either};
ghost use Rattle.sspi_credssp.specs.Noted.{differs, is_old, VersionStops, OrMemory};
ghost use Rattle.sspi_credssp.specs.Refused.{IsRefusedFor};
ghost use Rattle.sspi_credssp.specs.Unused.{IsUnusedIn};
ghost use Rattle.sspi_mech.specs.Answered.{answered};

use crate::acts::Acts;
use crate::both_ends::{adopt, forget};
use crate::context::SspiContext;
use crate::mode::ServerMode;
use crate::peer_version::{DEFAULT_LEAST_VERSION, note_version};
use crate::peers::list_peers;
use crate::proxy::CredentialsProxy;
use crate::request::at_version;
use crate::server_refusal::refusal;
use crate::server_state::{ServerError, ServerState};
use crate::state::CredSspState;
use crate::versions::DEFAULT_VERSION;
use sspi_mech::{Mechanism, Refusal};
use sspi_names::CredentialsBuffers;
use sspi_tsreq::TsRequest;
use sspi_types::{Bytes, CredentialUse, ErrorKind, Reason};
use std::alloc::Global;
use std::marker::Model;

/// The CredSSP server (MS-CSSP 3.1.5.2): it authenticates its client, checks that the client uses
/// the channel with the server's public key, and proves the same. Then it reads the credentials
/// that the client delegates.
#[derive(Drop)]
pub struct CredSspServer<N, K, C> {
    pub(crate) alloc: Global,
    pub(crate) public_key: Bytes,
    pub(crate) credentials: C,
    pub(crate) ts_request_version: u32,
    pub(crate) least_version: u32,
    pub(crate) server_mode: ServerMode,
    pub(crate) state: CredSspState,
    pub(crate) context: Option<SspiContext<N, K>>,
    pub(crate) credentials_handle: Option<CredentialsBuffers>,
    pub(crate) peer_version: Option<u32>,
    pub(crate) acts: Acts,
    pub(crate) output: Bytes,
}

impl<N, K, C> Model for CredSspServer<N, K, C> {
    ghost use Rattle.sspi_credssp.specs.declared.context.SspiContext.{SspiContext};
    ghost use Rattle.sspi_credssp.specs.Ends.{ServerView, IsOrderlyServer};

    ghost Value = { ServerView (SspiContext N K) C };

    ghost view = { λ a. record {
      settings = record {
        public_key = a.public_key;
        version = a.ts_request_version;
        least = a.least_version;
        mode = a.server_mode;
      };
      proxy = a.credentials;
      state = a.state;
      context = a.context;
      handle = a.credentials_handle;
      noted = a.peer_version;
      acts = a.acts;
      output = a.output;
    } };

    ghost invariant = { λ a. IsOrderlyServer a.context a.credentials_handle a.peer_version a.state };
}

impl<N, K, C> CredSspServer<N, K, C> {
    ghost use Rattle.sspi_credssp.specs.Ends.{IsFreshServer, new_server};

    /// A server of version 6; otherwise like `new_with_version`.
    pub fn new(
        alloc: Global,
        public_key: Vec<u8>,
        credentials: C,
        server_mode: ServerMode,
    ) -> CredSspServer<N, K, C>
        ensures fresh { IsFreshServer result }
        ensures settings { result.settings ≡ new_server public_key.items 6 server_mode }
        ensures proxy { result.proxy ≡ credentials }
    {
        CredSspServer::new_with_version(
            alloc,
            public_key,
            credentials,
            DEFAULT_VERSION,
            server_mode,
        )
    }

    /// A server of this version of CredSSP, with nothing delivered to it yet. Allocates nothing.
    ///
    /// `public_key` is the SubjectPublicKey of the channel's certificate, and `credentials` is
    /// where the server looks up its peers.
    pub fn new_with_version(
        alloc: Global,
        public_key: Vec<u8>,
        credentials: C,
        ts_request_version: u32,
        server_mode: ServerMode,
    ) -> CredSspServer<N, K, C>
        ensures fresh { IsFreshServer result }
        ensures settings { result.settings ≡ new_server public_key.items ts_request_version
            server_mode }
        ensures proxy { result.proxy ≡ credentials }
    {
        CredSspServer {
            alloc,
            public_key: Bytes::from_vec(public_key),
            credentials,
            ts_request_version,
            least_version: DEFAULT_LEAST_VERSION,
            server_mode,
            state: CredSspState::NegoToken,
            context: None,
            credentials_handle: None,
            peer_version: None,
            acts: Acts::none(),
            output: Bytes::new(alloc),
        }
    }

    /// The same server, refusing a client whose first version is below this; 0 accepts every
    /// version. Without this call the least is 5: below it the proofs are the key itself and the
    /// key plus one (MS-CSSP 3.1.5), which a relay of the exchange can choose. Allocates nothing.
    pub fn with_least_version(self, least: u32) -> CredSspServer<N, K, C>
        ensures { result ≡ record self { settings = record self.settings { least = least } } }
    {
        let mut server = self;
        server.least_version = least;
        server
    }

    /// Takes the token that the context's step returned in the last call; empty if no step
    /// answered, and once it has been taken.
    pub fn take_output(&mut self) -> Bytes
        ensures output { result ≡ self.old.output }
        ensures rest { self.new ≡ record self.old { output = [] } }
    {
        std::mem::replace(&mut self.output, Bytes::new(self.alloc))
    }

    /// What the last call did on the security context, even if it was refused.
    pub fn last_acts(&self) -> Acts
        ensures { result ≡ self.now.acts }
    {
        self.acts
    }

    /// What the server waits for.
    pub fn state(&self) -> CredSspState
        ensures { result ≡ self.now.state }
    {
        self.state
    }
}

impl<N: Mechanism, K: Mechanism, C: CredentialsProxy> CredSspServer<N, K, C> {
    ghost use Rattle.sspi_credssp.specs.Ends.{ServerView};
    ghost use Rattle.sspi_credssp.specs.Proxy.{look_ups_at};
    ghost use Rattle.sspi_credssp.specs.ServerCall.{ServerCall};
    ghost use Rattle.sspi_credssp.specs.ServerCause.{MakeCause, StateCause, StateExact};
    ghost use Rattle.sspi_credssp.specs.ServerStage.{HasDone, IsAtStep, LooksAt, MakesContext};
    ghost use Rattle.sspi_credssp.specs.ServerStage.{BeginRefused, IsReady};
    ghost use Rattle.sspi_credssp.specs.ServerTurn.{HasAcceptedTurn, server_setting, ServerGoes};

    /// Takes the client's message and makes the server's next one, or reads the credentials that
    /// end the exchange.
    ///
    /// If there is no context yet, it is made first; a negotiation is made with the proxy's list,
    /// which is requested at no other time. At the end of the authentication the proxy is asked for
    /// the peer, once.
    ///
    /// Refusals come in this order: `InternalError` if the proxy's list failed; the kinds of a new
    /// context; `DowngradeDetected` if no version of the client is pinned yet and this one is below
    /// the least, and then not pinned; `MessageAltered` if the client changes its version; then by
    /// the state. In the authentication: the kinds of the context's step; `InternalError` at a
    /// status that neither continues nor ends it; the kinds of naming its peer; `LogonDenied` if
    /// the look-up failed, `NoCredentials` if it found nobody; the kinds of setting the identities
    /// that were found, such as `LogonDenied` for a wrong password, and of completing;
    /// `InvalidToken` if it ended with neither a token nor a proof. With a proof: `InvalidToken` if
    /// it is absent, if it has no nonce from version 5 on, or if it has under 16 bytes; the kinds
    /// of opening it; `MessageAltered` if it is not the right one; the kinds of sealing the
    /// server's own. With the credentials: `InvalidToken` if they are absent or have under 16
    /// bytes; the kinds of opening and of reading them. `UnsupportedFunction` once they have been
    /// read. Out of memory may replace any of these, except the two of the version once there is a
    /// context. Past the authentication it never replaces the refusal of a proof that is absent,
    /// short, not opened or wrong; of an absent nonce; of absent, short or altered credentials; or
    /// that last one.
    ///
    /// A refusal returns the request with its code. The state, the mode and what was acquired
    /// before are unchanged, and a context that this call made is kept with its credentials.
    pub fn process(&mut self, ts_request: TsRequest) -> Result<ServerState, ServerError>
        ensures { ServerCall (either N.REQUESTS N.meaning K.meaning) C.meaning self.old ts_request
            result self.new }
    {
        self.forget_last_call();
        match self.begin(ts_request.version) {
            Ok(()) => self.take(at_version(ts_request, self.ts_request_version)),
            Err(error) => Err(refusal(self.state, ts_request, error)),
        }
    }

    fn forget_last_call(&mut self)
        ensures { self.new ≡ record self.old { acts = no_acts; output = [] } }
    {
        forget(self.alloc, &mut self.acts, &mut self.output);
    }

    fn begin(&mut self, version: u32) -> Result<(), Refusal>
        // What `Ok` holds, and all that may change.
        ensures frame { self.new ≡ record self.old {
          proxy = self.new.proxy;
          context = self.new.context;
          handle = self.new.handle;
          noted = self.new.noted;
        } }
        ensures ready { let c = either N.REQUESTS N.meaning K.meaning in
            OnOk result ((start : ServerView (SspiContext N K) C) (d : TsRequest) →
            d.version ≡ version → self.old ≡ record start { acts = no_acts; output = [] } →
            IsReady c start d self.new) }
        ensures made { MakesContext (either N.REQUESTS N.meaning K.meaning) C.meaning self.old
            self.new }
        ensures passed { OnOk result (IsSome self.new.context ×
            (differs self.old.noted version ≡ false)
            × (is_old self.old.settings.least self.old.noted version ≡ false) ×
            IsSome self.new.noted) }
        // What a refusal says, and what it leaves.
        ensures refused { OnErr result (BeginRefused (either N.REQUESTS N.meaning K.meaning)
            self.old version self.new
            × (self.new ≡ record self.old {
              proxy = self.new.proxy;
              context = self.new.context;
              handle = self.new.handle;
            })) }
        ensures looked { LooksAt version self.old (answered result) self.new }
        ensures cause { let c = either N.REQUESTS N.meaning K.meaning in IfErr result
            (λ error. let kind = error.error_type in
            MadeOr self.old.context self.new.context
            (OrMemory kind (MakeCause c C.meaning self.old.settings.mode self.old.proxy
            self.new.proxy kind))
            (VersionStops self.old.settings.least self.old.noted version kind ⊥)) }
        // What the proxy was asked.
        ensures proxy { Asks C.meaning (lists_in self.old.context self.old.settings.mode) result
            self.old.proxy self.new.proxy }
    {
        match &self.context {
            Some(_) => note_version(&mut self.peer_version, self.least_version, version),
            None => {
                self.make_context()?;
                note_version(&mut self.peer_version, self.least_version, version)
            }
        }
    }

    // The context and the credentials that it acquires are kept together or not at all. A
    // negotiation is made with the proxy's list.
    fn make_context(&mut self) -> Result<(), Refusal>
        // What must hold before.
        requires { self.old.context ≡ None }
        // What `Ok` holds, and all that may change.
        ensures frame { self.new ≡ record self.old {
          proxy = self.new.proxy;
          context = self.new.context;
          handle = self.new.handle;
        } }
        ensures begun { let c = either N.REQUESTS N.meaning K.meaning in OnOk result
            (IfContext self.new.context
            (Begun c self.old.context self.old.handle (server_setting C.meaning self.old)
            purposes.Inbound None self.new.handle)) }
        ensures made { OnOk result (IsSome self.new.context ×
            IsUnusedIn (either N.REQUESTS N.meaning K.meaning) self.new.context) }
        // What a refusal says, and what it leaves.
        ensures err { OnErr result (self.new ≡ record self.old { proxy = self.new.proxy }) }
        ensures fresh { (self.old.noted ≡ None) × (self.old.state ≡ CredSspState.NegoToken) }
        ensures cause { let c = either N.REQUESTS N.meaning K.meaning in
            IsRefusedFor result (MakeCause c C.meaning self.old.settings.mode self.old.proxy
            self.new.proxy) }
        // What the proxy was asked.
        ensures proxy { Asks C.meaning (list_calls self.old.settings.mode) result self.old.proxy
            self.new.proxy }
    {
        let known = list_peers(self.alloc, &self.server_mode, &mut self.credentials)?;
        let context = SspiContext::new_server(self.alloc, &self.server_mode, known)?;
        adopt(
            context,
            CredentialUse::Inbound,
            None,
            &mut self.context,
            &mut self.credentials_handle,
        )
    }

    // The turn, once the request's version has been checked.
    fn take(&mut self, request: TsRequest) -> Result<ServerState, ServerError>
        // What must hold before.
        requires { HasDone no_acts self.old }
        // The turn, and the step in it.
        ensures turn { let c = either N.REQUESTS N.meaning K.meaning
            in (start : ServerView (SspiContext N K) C) (d : TsRequest) →
            request ≡ record d { version = self.old.settings.version } →
            IsReady c start d self.old → self.old.output ≡ [] →
            ServerGoes c start d result self.new }
        ensures step { let c = either N.REQUESTS N.meaning K.meaning
            in (start : ServerView (SspiContext N K) C) (d : TsRequest) →
            d.nego_tokens ≡ request.nego_tokens → IsAtStep c C.meaning start self.old →
            HasAcceptedTurn c C.meaning start d result self.new }
        // What a refusal says.
        ensures cause { let c = either N.REQUESTS N.meaning K.meaning
            in (start : ServerView (SspiContext N K) C) (d : TsRequest) →
            request ≡ record d { version = self.old.settings.version } →
            IsAtStep c C.meaning start self.old →
            IfErr result (λ refusal. refusal.error.error_type ≢ ErrorKind.InsufficientMemory →
            StateCause c C.meaning self.old.state start d self.new refusal.error.error_type) }
        ensures exact { IfErr result (λ refusal.
            StateExact (either N.REQUESTS N.meaning K.meaning) self.old.state request self.new
            refusal.error.error_type) }
        ensures codeless { IfErr result (λ refusal. refusal.error.nstatus ≡ None) }
        // What holds afterwards, and what the proxy was asked.
        ensures begun { IsSome self.new.context ×
            (self.old.state ≡ CredSspState.NegoToken → self.new.acts.negotiated ≡ true) }
        ensures proxy { Asks C.meaning (look_ups_at self.new.acts.status) result self.old.proxy
            self.new.proxy }
    {
        match self.state {
            CredSspState::NegoToken => self.negotiate(request),
            CredSspState::PubKeyInfo => self.prove(request),
            CredSspState::AuthInfo => self.finish(request),
            CredSspState::Final => Err(refusal(
                self.state,
                request,
                Refusal::new(ErrorKind::UnsupportedFunction, Reason::Sequence),
            )),
        }
    }
}
