//! AcceptSecurityContext of a negotiation.

ghost use Rattle.std.specs.Prelude.{◌≡◌, ◌≢◌, [], true, None, Some, IfOk, IfErr, OnErr};
ghost use Rattle.sspi_mech.specs.Calls.{accept_args};
ghost use Rattle.sspi_mech.specs.Answered.{answered};
ghost use Rattle.sspi_tokens.specs.Reading.{init_of};
ghost use Rattle.sspi_negotiate.specs.Does.{Does, Stays, StaysPicked, StaysConfigured};
ghost use Rattle.sspi_negotiate.specs.Does.{told};
ghost use Rattle.sspi_negotiate.specs.declared.protocol.Protocol.TheVariants as protocols;
ghost use Rattle.sspi_negotiate.specs.Exact.{TellsKind, unread_refusal, server_refusal};
ghost use Rattle.sspi_negotiate.specs.Hand.{hand, hand_of};
ghost use Rattle.sspi_negotiate.specs.Negotiate.{negotiate};
ghost use Rattle.sspi_negotiate.specs.Pick.{pick, oid_of};
ghost use Rattle.sspi_negotiate.specs.Plan.{Accepts, Pairs};
ghost use Rattle.sspi_negotiate.specs.Rows.{targ, or_empty, in_ntlm};
ghost use Rattle.sspi_negotiate.specs.Server.{drops, goes_on_with, waits_for_token, goes_on};
ghost use Rattle.sspi_negotiate.specs.Server.{awaits_mic, ends_at_once, opens, needs_mic};
ghost use Rattle.sspi_negotiate.specs.Server.{first_token, placed, takes_pick, picks, reads_list};
ghost use Rattle.sspi_negotiate.specs.Server.{at_initial, spnego_server};
ghost use Rattle.sspi_negotiate.specs.Usable.{OnNtlm, IsUsable};
ghost use Rattle.sspi_negotiate.specs.Values.{values_of};
ghost use Rattle.sspi_negotiate.specs.declared.state.NegotiateState.TheVariants as states;
ghost use Rattle.sspi_negotiate.specs.declared.state.Role.TheVariants as roles;

use crate::negotiate::Negotiate;
use crate::pick::{Choice, Picked, pick};
use crate::protocol::NegotiatedProtocol;
use crate::refusal::invalid_token;
use crate::rows::{is_over, server_wants_mic};
use crate::state::{NegotiateState, Role};
use sspi_mech::{AcceptSecurityContext, Mechanism, Refusal, Step};
use sspi_tokens::{MechTypeList, NegResult, NegTokenInit, NegTokenTarg};
use sspi_types::{Bytes, Error, Reason, SecurityStatus};
use std::alloc::{AllocError, Global};

/// The mechanism's step on this token, or on none.
pub(crate) fn accept_with<N: Mechanism, K: Mechanism>(
    protocol: &mut NegotiatedProtocol<N, K>,
    args: &AcceptSecurityContext<'_>,
    token: &Option<Bytes>,
) -> Result<Step, Refusal>
    // The step.
    ensures step { (hand N.meaning K.meaning).accepts protocol.old
        (record (accept_args args.now) { input = or_empty token.now }) (answered result)
        protocol.new }
    // What every answer keeps.
    ensures named { hand_of protocol.new ≡ hand_of protocol.old }
{
    let input = match token {
        None => &[],
        Some(token) => token.as_slice(),
    };
    protocol.accept(&AcceptSecurityContext {
        credentials_handle: args.credentials_handle,
        context_requirements: args.context_requirements,
        target_data_representation: args.target_data_representation,
        input,
    })
}

/// A token that names the pick.
fn picked_targ(
    alloc: Global,
    result_field: NegResult,
    choice: Choice,
    token: Option<Bytes>,
) -> Result<NegTokenTarg, AllocError>
    ensures { IfOk result (λ made. made ≡ targ result_field (Some (oid_of choice)) token None) }
{
    let oid = choice.oid(alloc)?;
    Ok(NegTokenTarg {
        neg_result: Some(result_field),
        supported_mech: Some(oid),
        response_token: token,
        mech_list_mic: None,
    })
}

impl<N: Mechanism, K: Mechanism> Negotiate<N, K> {
    /// A server's step (AcceptSecurityContext).
    ///
    /// `OutOfSequence` on a client, and once the negotiation has ended. `InvalidToken` for a token
    /// of the wrong form for the state, and for a needed MIC that is missing; also for a list that
    /// is absent or has nothing to pick. `NoCredentials` if no known identity has the peer's name.
    /// `InternalError` for a token longer than `sspi_ber::MAX_CONTENT`, 1048576 octets. Else the
    /// refusals of the selected mechanism, which may have changed by then; the state stays.
    pub fn accept_security_context(
        &mut self,
        args: &AcceptSecurityContext<'_>,
    ) -> Result<Step, Error>
        ensures step { (negotiate N.REQUESTS N.meaning K.meaning).accepts self.old
            (accept_args args.now) result self.new }
        ensures codeless { IfErr result (λ error. error.nstatus ≡ None) }
    {
        Ok(self.accept_at(args)?)
    }

    fn accept_at(&mut self, args: &AcceptSecurityContext<'_>) -> Result<Step, Refusal>
        // The step, and what a refused one leaves.
        ensures step { Does N.meaning K.meaning
            (spnego_server (values_of self.old) (accept_args args.now))
            self.old (told (answered result)) self.new }
        ensures stays { OnErr result (Stays (values_of self.old) (values_of self.new)) }
        ensures need { OnErr result (self.new.need ≡ self.old.need) }
        ensures exact { TellsKind (server_refusal self.old.role self.old.state args.now.input.now)
            (told (answered result)) }
        // What every answer keeps.
        ensures picked { self.old.state ≢ states.Initial →
            StaysPicked (values_of self.old) (values_of self.new) }
        ensures configured { StaysConfigured (values_of self.old) (values_of self.new) }
    {
        match self.role {
            Role::Client => Err(Refusal::out_of_sequence()),
            Role::Server => match self.state {
                NegotiateState::Initial => self.read_init(args),
                NegotiateState::InProgress => self.read_response(args),
                NegotiateState::VerifyMic => self.read_last(args),
                NegotiateState::Ok => Err(Refusal::out_of_sequence()),
            },
        }
    }

    fn read_init(&mut self, args: &AcceptSecurityContext<'_>) -> Result<Step, Refusal>
        // What must hold before.
        requires server { self.now.role ≡ roles.Server }
        // The step, and what a refused one leaves.
        ensures step { Does N.meaning K.meaning
            (at_initial (init_of args.now.input.now) (values_of self.old) (accept_args args.now))
            self.old (told (answered result)) self.new }
        ensures stays { OnErr result (Stays (values_of self.old) (values_of self.new)) }
        ensures need { OnErr result (self.new.need ≡ self.old.need) }
        ensures exact { TellsKind (unread_refusal (init_of args.now.input.now))
            (told (answered result)) }
        // What every answer keeps.
        ensures configured { StaysConfigured (values_of self.old) (values_of self.new) }
    {
        let token = NegTokenInit::decode(self.alloc, args.input)?;
        self.read_list(token.mech_types, token.mech_token, args)
    }

    #[tactic(auto, unfolding(crate::specs::Server::reads_list))]
    fn read_list(
        &mut self,
        list: Option<MechTypeList>,
        token: Option<Bytes>,
        args: &AcceptSecurityContext<'_>,
    ) -> Result<Step, Refusal>
        // What must hold before.
        requires server { self.now.role ≡ roles.Server }
        // The step, and what a refused one leaves.
        ensures step { Does N.meaning K.meaning
            (reads_list list token (values_of self.old) (accept_args args.now))
            self.old (told (answered result)) self.new }
        ensures stays { OnErr result (Stays (values_of self.old) (values_of self.new)) }
        ensures need { OnErr result (self.new.need ≡ self.old.need) }
        ensures exact { TellsKind (unread_refusal list) (told (answered result)) }
        // What every answer keeps.
        ensures configured { StaysConfigured (values_of self.old) (values_of self.new) }
    {
        match list {
            None => Err(invalid_token(Reason::NoMechTypes)),
            Some(list) => {
                let picked = pick(list.as_slice(), self.packages, self.protocol.protocol());
                self.keep_list(picked, list, token, args)
            }
        }
    }

    #[tactic(auto, unfolding(crate::specs::Server::picks))]
    fn keep_list(
        &mut self,
        picked: Option<Picked>,
        list: MechTypeList,
        token: Option<Bytes>,
        args: &AcceptSecurityContext<'_>,
    ) -> Result<Step, Refusal>
        // What must hold before.
        requires server { self.now.role ≡ roles.Server }
        // The step, and what a refused one leaves.
        ensures step { Does N.meaning K.meaning
            (picks picked list token (values_of self.old) (accept_args args.now))
            self.old (told (answered result)) self.new }
        ensures stays { IsUsable self.old.packages picked →
            OnErr result (Stays (values_of self.old) (values_of self.new)) }
        ensures need { OnErr result (self.new.need ≡ self.old.need) }
        ensures exact { TellsKind (unread_refusal picked) (told (answered result)) }
        // What every answer keeps.
        ensures configured { StaysConfigured (values_of self.old) (values_of self.new) }
    {
        match picked {
            None => Err(invalid_token(Reason::NoSharedMech)),
            Some(picked) => {
                self.mech_types = list;
                self.take_pick(picked, token, args)
            }
        }
    }

    fn take_pick(
        &mut self,
        picked: Picked,
        token: Option<Bytes>,
        args: &AcceptSecurityContext<'_>,
    ) -> Result<Step, Refusal>
        // The step, and what a refused one leaves.
        ensures step { Does N.meaning K.meaning
            (takes_pick picked.choice token picked (values_of self.old) (accept_args args.now))
            self.old (told (answered result)) self.new }
        ensures stays { OnNtlm picked.choice (self.old.packages.ntlm ≡ true) →
            OnErr result (Stays (values_of self.old) (values_of self.new)) }
        ensures need { OnErr result (self.new.need ≡ self.old.need) }
        // What every answer keeps.
        ensures configured { StaysConfigured (values_of self.old) (values_of self.new) }
    {
        match picked.choice {
            Choice::MsKerberos => self.place(picked, token, args),
            Choice::Kerberos => self.place(picked, token, args),
            Choice::Ntlm => self.place_ntlm(picked, token, args),
        }
    }

    fn place_ntlm(
        &mut self,
        picked: Picked,
        token: Option<Bytes>,
        args: &AcceptSecurityContext<'_>,
    ) -> Result<Step, Refusal>
        // The step, and what a refused one leaves.
        ensures step { Does N.meaning K.meaning (in_ntlm (hand_of self.old.mech) self.old.computer
            (placed token picked (record (values_of self.old) { hand = protocols.Ntlm })
            (accept_args args.now)))
            self.old (told (answered result)) self.new }
        ensures stays { self.old.packages.ntlm ≡ true →
            OnErr result (Stays (values_of self.old) (values_of self.new)) }
        ensures need { OnErr result (self.new.need ≡ self.old.need) }
        // What every answer keeps.
        ensures configured { StaysConfigured (values_of self.old) (values_of self.new) }
    {
        self.take_ntlm()?;
        self.place(picked, token, args)
    }

    #[tactic(auto, unfolding(crate::specs::Server::placed))]
    fn place(
        &mut self,
        picked: Picked,
        token: Option<Bytes>,
        args: &AcceptSecurityContext<'_>,
    ) -> Result<Step, Refusal>
        // The step, and what a refused one leaves.
        ensures step { Does N.meaning K.meaning
            (placed token picked (values_of self.old) (accept_args args.now))
            self.old (told (answered result)) self.new }
        ensures stays { OnErr result (Stays (values_of self.old) (values_of self.new)) }
        ensures need { OnErr result (self.new.need ≡ self.old.need) }
        // What every answer keeps.
        ensures configured { StaysConfigured (values_of self.old) (values_of self.new) }
    {
        if picked.index == 0 {
            self.take_first(picked, token, args)
        } else {
            self.drop_token(picked)
        }
    }

    /// Reports the pick with this token, and continues the negotiation.
    fn go_on_with(
        &mut self,
        picked: Picked,
        token: Option<Bytes>,
        need: bool,
        state: NegotiateState,
    ) -> Result<Step, Refusal>
        // The step, and what a refused one leaves.
        ensures step { Does N.meaning K.meaning
            (goes_on_with picked token need state (values_of self.old))
            self.old (told (answered result)) self.new }
        ensures stays { OnErr result (Stays (values_of self.old) (values_of self.new)) }
        ensures need { OnErr result (self.new.need ≡ self.old.need) }
        // What every answer keeps.
        ensures configured { StaysConfigured (values_of self.old) (values_of self.new) }
    {
        let incomplete = NegResult::AcceptIncomplete;
        let token = picked_targ(self.alloc, incomplete, picked.choice, token)?;
        self.write(&token, need, state, SecurityStatus::ContinueNeeded)
    }

    #[tactic(auto, unfolding(crate::specs::Server::drops))]
    fn drop_token(&mut self, picked: Picked) -> Result<Step, Refusal>
        // The step, and what a refused one leaves.
        ensures step { Does N.meaning K.meaning (drops picked (values_of self.old)) self.old
            (told (answered result)) self.new }
        ensures stays { OnErr result (Stays (values_of self.old) (values_of self.new)) }
        ensures need { OnErr result (self.new.need ≡ self.old.need) }
        // What every answer keeps.
        ensures configured { StaysConfigured (values_of self.old) (values_of self.new) }
    {
        self.go_on_with(picked, None, true, NegotiateState::InProgress)
    }

    #[tactic(auto, unfolding(crate::specs::Server::first_token))]
    fn take_first(
        &mut self,
        picked: Picked,
        token: Option<Bytes>,
        args: &AcceptSecurityContext<'_>,
    ) -> Result<Step, Refusal>
        // The step, and what a refused one leaves.
        ensures step { Does N.meaning K.meaning
            (first_token token picked (values_of self.old) (accept_args args.now))
            self.old (told (answered result)) self.new }
        ensures stays { OnErr result (Stays (values_of self.old) (values_of self.new)) }
        ensures need { OnErr result (self.new.need ≡ self.old.need) }
        // What every answer keeps.
        ensures configured { StaysConfigured (values_of self.old) (values_of self.new) }
    {
        match token {
            None => self.await_token(picked, args),
            Some(token) => self.accept_first(picked, Some(token), args),
        }
    }

    fn needs_mic(&self, args: &AcceptSecurityContext<'_>) -> bool
        ensures { result ≡ needs_mic (values_of self.now) (accept_args args.now)
            ((hand N.meaning K.meaning).pairs self.now.mech) }
    {
        self.protocol.is_ntlm()
            || self.protocol.user_to_user()
            || server_wants_mic(args.context_requirements)
    }

    #[tactic(auto, unfolding(crate::specs::Server::waits_for_token))]
    fn await_token(
        &mut self,
        picked: Picked,
        args: &AcceptSecurityContext<'_>,
    ) -> Result<Step, Refusal>
        // The step, and what a refused one leaves.
        ensures step { let v = values_of self.old in Does N.meaning K.meaning
            (Pairs (λ pairs. waits_for_token picked v (needs_mic v (accept_args args.now) pairs)))
            self.old
            (told (answered result)) self.new }
        ensures stays { OnErr result (Stays (values_of self.old) (values_of self.new)) }
        ensures need { OnErr result (self.new.need ≡ self.old.need) }
        // What every answer keeps.
        ensures configured { StaysConfigured (values_of self.old) (values_of self.new) }
    {
        let need = self.needs_mic(args);
        self.go_on_with(picked, None, need, NegotiateState::InProgress)
    }

    fn accept_first(
        &mut self,
        picked: Picked,
        token: Option<Bytes>,
        args: &AcceptSecurityContext<'_>,
    ) -> Result<Step, Refusal>
        // The step, and what a refused one leaves.
        ensures step { let v = values_of self.old in Does N.meaning K.meaning
            (Accepts (record (accept_args args.now) { input = or_empty token }) v
            (λ step. Pairs (λ pairs. opens picked v step
            (needs_mic v (accept_args args.now) pairs))))
            self.old (told (answered result)) self.new }
        ensures stays { OnErr result (Stays (values_of self.old) (values_of self.new)) }
        ensures need { OnErr result (self.new.need ≡ self.old.need) }
        // What every answer keeps.
        ensures configured { StaysConfigured (values_of self.old) (values_of self.new) }
    {
        let step = accept_with(&mut self.protocol, args, &token)?;
        self.decide_need(picked, step, args)
    }

    fn decide_need(
        &mut self,
        picked: Picked,
        step: Step,
        args: &AcceptSecurityContext<'_>,
    ) -> Result<Step, Refusal>
        // The step, and what a refused one leaves.
        ensures step { let v = values_of self.old in Does N.meaning K.meaning
            (Pairs (λ pairs. opens picked v step (needs_mic v (accept_args args.now) pairs)))
            self.old (told (answered result)) self.new }
        ensures stays { OnErr result (Stays (values_of self.old) (values_of self.new)) }
        ensures need { OnErr result (self.new.need ≡ self.old.need) }
        // What every answer keeps.
        ensures configured { StaysConfigured (values_of self.old) (values_of self.new) }
    {
        let need = self.needs_mic(args);
        self.open_by_need(picked, step, need)
    }

    fn open_by_need(&mut self, picked: Picked, step: Step, need: bool) -> Result<Step, Refusal>
        // The step, and what a refused one leaves.
        ensures step { Does N.meaning K.meaning (opens picked (values_of self.old) step need)
            self.old (told (answered result)) self.new }
        ensures stays { OnErr result (Stays (values_of self.old) (values_of self.new)) }
        ensures need { OnErr result (self.new.need ≡ self.old.need) }
        // What every answer keeps.
        ensures configured { StaysConfigured (values_of self.old) (values_of self.new) }
    {
        if is_over(step.status) {
            if need {
                self.await_mic(picked, step)
            } else {
                self.end_at_once(picked, step)
            }
        } else {
            self.go_on(picked, step, need)
        }
    }

    #[tactic(auto, unfolding(crate::specs::Server::goes_on))]
    fn go_on(&mut self, picked: Picked, step: Step, need: bool) -> Result<Step, Refusal>
        // The step, and what a refused one leaves.
        ensures step { Does N.meaning K.meaning (goes_on picked (values_of self.old) need step)
            self.old (told (answered result)) self.new }
        ensures stays { OnErr result (Stays (values_of self.old) (values_of self.new)) }
        ensures need { OnErr result (self.new.need ≡ self.old.need) }
        // What every answer keeps.
        ensures configured { StaysConfigured (values_of self.old) (values_of self.new) }
    {
        self.go_on_with(picked, Some(step.output), need, NegotiateState::InProgress)
    }

    #[tactic(auto, unfolding(crate::specs::Server::awaits_mic))]
    fn await_mic(&mut self, picked: Picked, step: Step) -> Result<Step, Refusal>
        // The step, and what a refused one leaves.
        ensures step { Does N.meaning K.meaning (awaits_mic picked (values_of self.old) step)
            self.old (told (answered result)) self.new }
        ensures stays { OnErr result (Stays (values_of self.old) (values_of self.new)) }
        ensures need { OnErr result (self.new.need ≡ self.old.need) }
        // What every answer keeps.
        ensures configured { StaysConfigured (values_of self.old) (values_of self.new) }
    {
        self.go_on_with(picked, Some(step.output), true, NegotiateState::VerifyMic)
    }

    #[tactic(auto, unfolding(crate::specs::Server::ends_at_once))]
    fn end_at_once(&mut self, picked: Picked, step: Step) -> Result<Step, Refusal>
        // The step, and what a refused one leaves.
        ensures step { Does N.meaning K.meaning (ends_at_once picked (values_of self.old) step)
            self.old (told (answered result)) self.new }
        ensures stays { OnErr result (Stays (values_of self.old) (values_of self.new)) }
        ensures need { OnErr result (self.new.need ≡ self.old.need) }
        // What every answer keeps.
        ensures configured { StaysConfigured (values_of self.old) (values_of self.new) }
    {
        let output = Some(step.output);
        let token = picked_targ(self.alloc, NegResult::AcceptComplete, picked.choice, output)?;
        self.write(&token, false, NegotiateState::Ok, SecurityStatus::Ok)
    }
}
