//! InitializeSecurityContext of a negotiation, and `resume`.

ghost use Rattle.std.specs.Prelude.{◌≡◌, ◌≢◌, ◌&&◌, false, true, None, Some, IfErr, OnErr};
ghost use Rattle.sspi_names.specs.Identity.{identity_of, buffers_of};
ghost use Rattle.sspi_names.specs.declared.credentials.CredentialsBuffers.TheVariants as buffered;
ghost use Rattle.sspi_mech.specs.Answers.{answer_of};
ghost use Rattle.sspi_mech.specs.Calls.{step_args};
ghost use Rattle.sspi_mech.specs.Answered.{answered};
ghost use Rattle.sspi_negotiate.specs.declared.protocol.Protocol.TheVariants as protocols;
ghost use Rattle.sspi_negotiate.specs.Beginning.{FallsBy, Falls, MayBegin, OnlyNtlm};
ghost use Rattle.sspi_negotiate.specs.Choices.{chosen_at, excuses_guest};
ghost use Rattle.sspi_negotiate.specs.Client.{is_closed, spnego_client, by_target, with_handle};
ghost use Rattle.sspi_negotiate.specs.Client.{keeps, ruled, client_at};
ghost use Rattle.sspi_negotiate.specs.Does.{Does, Stays, StaysNeeded};
ghost use Rattle.sspi_negotiate.specs.Exact.{TellsKind, client_refusal};
ghost use Rattle.sspi_negotiate.specs.Hand.{hand, hand_of};
ghost use Rattle.sspi_negotiate.specs.Holding.{MayHave, MayKeep, MayNeed, user_of, user_url};
ghost use Rattle.sspi_negotiate.specs.Negotiate.{negotiate};
ghost use Rattle.sspi_negotiate.specs.Rows.{in_ntlm};
ghost use Rattle.sspi_negotiate.specs.Rule.{rule_url};
ghost use Rattle.sspi_negotiate.specs.Values.{values_of};
ghost use Rattle.sspi_negotiate.specs.declared.state.NegotiateState.TheVariants as states;

use crate::negotiate::Negotiate;
use crate::state::{NegotiateState, Role};
use crate::target::is_named_by_ip;
use sspi_mech::{InitializeSecurityContext, Mechanism, Progressing, Refusal};
use sspi_names::{AuthIdentity, AuthIdentityBuffers, CredentialsBuffers, Username};
use sspi_types::Error;

impl<N, K> Negotiate<N, K> {
    /// Whether no client's step can begin.
    fn is_closed(&self) -> bool
        ensures { result ≡ is_closed self.now.role self.now.state self.now.branch }
    {
        match self.role {
            Role::Server => true,
            Role::Client => match self.state {
                NegotiateState::Initial => self.branch.is_waiting(),
                NegotiateState::InProgress => self.branch.is_waiting(),
                NegotiateState::VerifyMic => self.branch.is_waiting(),
                NegotiateState::Ok => true,
            },
        }
    }
}

impl<N: Mechanism, K: Mechanism> Negotiate<N, K> {
    /// A client's step (InitializeSecurityContext). If it is suspended, `resume` continues it.
    ///
    /// `OutOfSequence` while a step waits for a KDC, on a server, and after the end.
    /// `InvalidParameter` if the handle's user and domain mix the forms of a name. `InvalidToken`
    /// for a token of the wrong form for the state, and for a choice of an unknown or disabled
    /// mechanism; in the last state, also for a token without accept-completed. `InternalError` if
    /// the mechanism's first step ends with a status other than `Ok` and `ContinueNeeded`, and for
    /// a token longer than `sspi_ber::MAX_CONTENT`, 1048576 octets. Else the refusals of the
    /// selected mechanism, which may have changed by then; the state stays.
    pub fn initialize_security_context(
        &mut self,
        args: &InitializeSecurityContext<'_>,
    ) -> Result<Progressing, Error>
        ensures step { (negotiate N.REQUESTS N.meaning K.meaning).steps self.old
            (step_args args.now) (answer_of result) self.new }
        ensures codeless { IfErr result (λ error. error.nstatus ≡ None) }
    {
        let ip = is_named_by_ip(args.target_name);
        Ok(self.step(ip, args)?)
    }

    fn step(
        &mut self,
        ip: bool,
        args: &InitializeSecurityContext<'_>,
    ) -> Result<Progressing, Refusal>
        // The step, and what a refused one leaves.
        ensures step { Does N.meaning K.meaning
            (spnego_client ip (values_of self.old) (step_args args.now))
            self.old (answer_of (answered result)) self.new }
        ensures stays { OnErr result (Stays (values_of self.old) (values_of self.new)) }
        ensures begun { self.old.state ≡ states.Initial →
            OnErr result (MayBegin (hand N.meaning K.meaning)
            (ip && self.old.packages.ntlm ≡ true)
            (user_url (values_of self.old) (user_of (step_args args.now).handle))
            (step_args args.now) self.old self.new) }
        ensures exact { TellsKind (client_refusal self.old.role self.old.state self.old.branch)
            (answer_of (answered result)) }
        // What every answer keeps.
        ensures asked { self.old.state ≡ states.Initial →
            MayNeed (step_args args.now).requirements self.old.need self.new.need }
        ensures later { let v = values_of self.old in self.old.state ≢ states.Initial →
            StaysNeeded (excuses_guest (chosen_at self.old.state args.now.input.now) v
            (step_args args.now)) v (values_of self.new)
            × MayHave (ip && v.packages.ntlm ≡ true)
            (user_url v (user_of (step_args args.now).handle))
            (chosen_at v.state args.now.input.now) v (values_of self.new) }
        ensures kept { MayKeep (user_of (step_args args.now).handle) self.old.kept self.new.kept }
    {
        if self.is_closed() {
            Err(Refusal::out_of_sequence())
        } else {
            self.step_to(ip, args)
        }
    }

    fn step_to(
        &mut self,
        ip: bool,
        args: &InitializeSecurityContext<'_>,
    ) -> Result<Progressing, Refusal>
        // The step, and what a refused one leaves.
        ensures step { Does N.meaning K.meaning
            (by_target ip (values_of self.old) (step_args args.now))
            self.old (answer_of (answered result)) self.new }
        ensures stays { OnErr result (Stays (values_of self.old) (values_of self.new)) }
        ensures begun { self.old.state ≡ states.Initial →
            OnErr result (MayBegin (hand N.meaning K.meaning)
            (ip && self.old.packages.ntlm ≡ true)
            (user_url (values_of self.old) (user_of (step_args args.now).handle))
            (step_args args.now) self.old self.new) }
        // What every answer keeps.
        ensures asked { self.old.state ≡ states.Initial →
            MayNeed (step_args args.now).requirements self.old.need self.new.need }
        ensures need { let v = values_of self.old in self.old.state ≢ states.Initial →
            StaysNeeded (excuses_guest (chosen_at self.old.state args.now.input.now) v
            (step_args args.now)) v (values_of self.new) }
        ensures held { let v = values_of self.old in self.old.state ≢ states.Initial →
            MayHave (ip && v.packages.ntlm ≡ true)
            (user_url v (user_of (step_args args.now).handle))
            (chosen_at v.state args.now.input.now) v (values_of self.new) }
        ensures kept { MayKeep (user_of (step_args args.now).handle) self.old.kept self.new.kept }
    {
        if ip && self.packages.ntlm {
            self.leave_kerberos(args)
        } else {
            self.with_handle(args)
        }
    }

    fn leave_kerberos(
        &mut self,
        args: &InitializeSecurityContext<'_>,
    ) -> Result<Progressing, Refusal>
        // The step, and what a refused one leaves.
        ensures step { Does N.meaning K.meaning
            (in_ntlm (hand_of self.old.mech) self.old.computer
            (with_handle (record (values_of self.old) {
              hand = protocols.Ntlm;
              packages = record self.old.packages { kerberos = false };
            }) (step_args args.now)))
            self.old (answer_of (answered result)) self.new }
        ensures stays { self.old.packages.ntlm ≡ true →
            OnErr result (Stays (values_of self.old) (values_of self.new)) }
        ensures begun { self.old.state ≡ states.Initial →
            OnErr result (FallsBy (Unit {0}) (values_of self.old) (values_of self.new)) }
        // What every answer keeps.
        ensures asked { self.old.state ≡ states.Initial →
            MayNeed (step_args args.now).requirements self.old.need self.new.need }
        ensures need { let v = values_of self.old in self.old.state ≢ states.Initial →
            StaysNeeded (excuses_guest (chosen_at self.old.state args.now.input.now) v
            (step_args args.now)) v (values_of self.new) }
        ensures held { let v = values_of self.old in self.old.state ≢ states.Initial →
            MayHave (Unit {0}) None (chosen_at v.state args.now.input.now) v (values_of self.new) }
        ensures kept { MayKeep (user_of (step_args args.now).handle) self.old.kept self.new.kept }
    {
        self.take_ntlm()?;
        self.disable_kerberos(args)
    }

    fn disable_kerberos(
        &mut self,
        args: &InitializeSecurityContext<'_>,
    ) -> Result<Progressing, Refusal>
        // The step, and what a refused one leaves.
        ensures step { Does N.meaning K.meaning
            (with_handle
            (record (values_of self.old) {
              packages =
                  record self.old.packages { kerberos = false };
            }) (step_args args.now))
            self.old (answer_of (answered result)) self.new }
        ensures stays { hand_of self.old.mech ≡ protocols.Ntlm →
            OnErr result (Stays (values_of self.old) (values_of self.new)) }
        ensures begun { self.old.state ≡ states.Initial → hand_of self.old.mech ≡ protocols.Ntlm →
            OnErr result (OnlyNtlm (values_of self.old) (values_of self.new)) }
        // What every answer keeps.
        ensures asked { self.old.state ≡ states.Initial →
            MayNeed (step_args args.now).requirements self.old.need self.new.need }
        ensures need { let v = values_of self.old in self.old.state ≢ states.Initial →
            StaysNeeded (excuses_guest (chosen_at self.old.state args.now.input.now) v
            (step_args args.now)) v (values_of self.new) }
        ensures held { let v = record
            (values_of self.old) { packages = record self.old.packages { kerberos = false } } in
            self.old.state ≢ states.Initial → MayHave ⊥
            (user_url v (user_of (step_args args.now).handle))
            (chosen_at v.state args.now.input.now) v (values_of self.new) }
        ensures kept { MayKeep (user_of (step_args args.now).handle) self.old.kept self.new.kept }
    {
        self.packages.kerberos = false;
        self.with_handle(args)
    }

    #[tactic(auto, unfolding(crate::specs::Client::with_handle))]
    fn with_handle(&mut self, args: &InitializeSecurityContext<'_>) -> Result<Progressing, Refusal>
        // The step, and what a refused one leaves.
        ensures step { Does N.meaning K.meaning
            (with_handle (values_of self.old) (step_args args.now))
            self.old (answer_of (answered result)) self.new }
        ensures stays { OnErr result (Stays (values_of self.old) (values_of self.new)) }
        ensures begun { self.old.state ≡ states.Initial →
            OnErr result (MayBegin (hand N.meaning K.meaning)
            ⊥ (user_url (values_of self.old) (user_of (step_args args.now).handle))
            (step_args args.now) self.old self.new) }
        // What every answer keeps.
        ensures asked { self.old.state ≡ states.Initial →
            MayNeed (step_args args.now).requirements self.old.need self.new.need }
        ensures need { let v = values_of self.old in self.old.state ≢ states.Initial →
            StaysNeeded (excuses_guest (chosen_at self.old.state args.now.input.now) v
            (step_args args.now)) v (values_of self.new) }
        ensures held { let v = values_of self.old in self.old.state ≢ states.Initial →
            MayHave ⊥ (user_url v (user_of (step_args args.now).handle))
            (chosen_at v.state args.now.input.now) v (values_of self.new) }
        ensures kept { MayKeep (user_of (step_args args.now).handle) self.old.kept self.new.kept }
    {
        match args.credentials_handle {
            None => self.step_at(args),
            Some(CredentialsBuffers::Keytab(_)) => self.step_at(args),
            Some(CredentialsBuffers::AuthIdentity(buffers)) => self.convert(buffers, args),
        }
    }

    #[tactic(auto, unfolding(crate::specs::Client::keeps))]
    fn convert(
        &mut self,
        buffers: &AuthIdentityBuffers,
        args: &InitializeSecurityContext<'_>,
    ) -> Result<Progressing, Refusal>
        // The step, and what a refused one leaves.
        ensures step { Does N.meaning K.meaning
            (keeps (identity_of buffers.now) (values_of self.old) (step_args args.now))
            self.old (answer_of (answered result)) self.new }
        ensures stays { OnErr result (Stays (values_of self.old) (values_of self.new)) }
        ensures begun { self.old.state ≡ states.Initial →
            OnErr result (MayBegin (hand N.meaning K.meaning)
            ⊥ (user_url (values_of self.old) (identity_of buffers.now)) (step_args args.now)
            self.old self.new) }
        // What every answer keeps.
        ensures asked { self.old.state ≡ states.Initial →
            MayNeed (step_args args.now).requirements self.old.need self.new.need }
        ensures need { let v = values_of self.old in self.old.state ≢ states.Initial →
            StaysNeeded (excuses_guest (chosen_at self.old.state args.now.input.now) v
            (step_args args.now)) v (values_of self.new) }
        ensures held { let v = values_of self.old in self.old.state ≢ states.Initial →
            MayHave ⊥ (user_url v (identity_of buffers.now))
            (chosen_at v.state args.now.input.now) v (values_of self.new) }
        ensures kept { MayKeep (identity_of buffers.now) self.old.kept self.new.kept }
    {
        let identity = AuthIdentity::from_buffers(self.alloc, buffers)?;
        self.keep(&identity, args)
    }

    fn keep(
        &mut self,
        identity: &AuthIdentity,
        args: &InitializeSecurityContext<'_>,
    ) -> Result<Progressing, Refusal>
        // The step, and what a refused one leaves.
        ensures step { Does N.meaning K.meaning
            (ruled (rule_url (values_of self.old) identity.now.username)
            (record (values_of self.old) {
              kept = Some
                  (buffered.AuthIdentity (buffers_of identity.now));
            }) (step_args args.now))
            self.old (answer_of (answered result)) self.new }
        ensures stays { OnErr result (Stays (values_of self.old) (values_of self.new)) }
        ensures begun { self.old.state ≡ states.Initial →
            OnErr result (MayBegin (hand N.meaning K.meaning)
            ⊥ (rule_url (values_of self.old) identity.now.username) (step_args args.now) self.old
            self.new) }
        // What every answer keeps.
        ensures asked { self.old.state ≡ states.Initial →
            MayNeed (step_args args.now).requirements self.old.need self.new.need }
        ensures need { let v = values_of self.old in self.old.state ≢ states.Initial →
            StaysNeeded (excuses_guest (chosen_at self.old.state args.now.input.now) v
            (step_args args.now)) v (values_of self.new) }
        ensures held { let v = values_of self.old in self.old.state ≢ states.Initial →
            MayHave ⊥ (rule_url v identity.now.username) (chosen_at v.state args.now.input.now) v
            (values_of self.new) }
        ensures kept { MayKeep (Some identity.now) self.old.kept self.new.kept }
    {
        let kept = identity.to_buffers(self.alloc)?;
        self.auth_identity = Some(CredentialsBuffers::AuthIdentity(kept));
        self.rule(&identity.username, args)
    }

    fn rule(
        &mut self,
        name: &Username,
        args: &InitializeSecurityContext<'_>,
    ) -> Result<Progressing, Refusal>
        // The step, and what a refused one leaves.
        ensures step { Does N.meaning K.meaning
            (ruled (rule_url (values_of self.old) name.now) (values_of self.old)
            (step_args args.now))
            self.old (answer_of (answered result)) self.new }
        ensures stays { OnErr result (Stays (values_of self.old) (values_of self.new)) }
        ensures begun { self.old.state ≡ states.Initial →
            OnErr result (MayBegin (hand N.meaning K.meaning)
            ⊥ (rule_url (values_of self.old) name.now) (step_args args.now) self.old self.new) }
        // What every answer keeps.
        ensures asked { self.old.state ≡ states.Initial →
            MayNeed (step_args args.now).requirements self.old.need self.new.need }
        ensures need { let v = values_of self.old in self.old.state ≢ states.Initial →
            StaysNeeded (excuses_guest (chosen_at self.old.state args.now.input.now) v
            (step_args args.now)) v (values_of self.new) }
        ensures held { let v = values_of self.old in self.old.state ≢ states.Initial →
            MayHave ⊥ (rule_url v name.now) (chosen_at v.state args.now.input.now) v
            (values_of self.new) }
        ensures kept { self.new.kept ≡ self.old.kept }
    {
        self.take_by_rule(name)?;
        self.step_at(args)
    }

    #[tactic(auto, unfolding(crate::specs::Client::client_at))]
    fn step_at(&mut self, args: &InitializeSecurityContext<'_>) -> Result<Progressing, Refusal>
        // The step, and what a refused one leaves.
        ensures step { Does N.meaning K.meaning
            (client_at self.old.state (values_of self.old) (step_args args.now))
            self.old (answer_of (answered result)) self.new }
        ensures stays { OnErr result (Stays (values_of self.old) (values_of self.new)) }
        ensures begun { self.old.state ≡ states.Initial →
            OnErr result (FallsBy (Falls (hand N.meaning K.meaning) self.old.mech
            (step_args args.now))
            (values_of self.old) (values_of self.new)) }
        // What every answer keeps.
        ensures asked { self.old.state ≡ states.Initial →
            MayNeed (step_args args.now).requirements self.old.need self.new.need }
        ensures need { let v = values_of self.old in self.old.state ≢ states.Initial →
            StaysNeeded (excuses_guest (chosen_at self.old.state args.now.input.now) v
            (step_args args.now)) v (values_of self.new) }
        ensures held { let v = values_of self.old in self.old.state ≢ states.Initial →
            MayHave ⊥ None (chosen_at v.state args.now.input.now) v (values_of self.new) }
        ensures kept { self.new.kept ≡ self.old.kept }
    {
        match self.state {
            NegotiateState::Initial => self.first_step(args),
            NegotiateState::InProgress => self.read_answer(args),
            NegotiateState::VerifyMic => self.confirm(args),
            NegotiateState::Ok => Err(Refusal::out_of_sequence()),
        }
    }
}
