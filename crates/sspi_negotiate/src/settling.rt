//! How a server ends a step: the identities, the MICs and the last token.

ghost use Rattle.std.specs.Prelude.{◌≡◌, [], not, None, Some, OnErr};
ghost use Rattle.sspi_names.specs.Name.{inner_of};
ghost use Rattle.sspi_mech.specs.Calls.{accept_args};
ghost use Rattle.sspi_mech.specs.Answered.{answered};
ghost use Rattle.sspi_tokens.specs.Reading.{targ_of};
ghost use Rattle.sspi_negotiate.specs.Does.{Does, Stays, StaysPicked, told};
ghost use Rattle.sspi_negotiate.specs.Exact.{TellsKind, kind_if, unread_refusal};
ghost use Rattle.sspi_negotiate.specs.Plan.{Accepts, Names, Goes};
ghost use Rattle.sspi_negotiate.specs.Rows.{or_empty, is_guest_text, checks, completes_signed};
ghost use Rattle.sspi_negotiate.specs.Server.{excuses, without_mic, settles, accepted, at_progress};
ghost use Rattle.sspi_negotiate.specs.Server.{last_mic, at_verify_mic};
ghost use Rattle.sspi_negotiate.specs.Values.{values_of};
ghost use Rattle.sspi_negotiate.specs.declared.state.NegotiateState.TheVariants as states;
ghost use Rattle.sspi_types.specs.declared.security_status.SecurityStatus.TheVariants as statuses;

use crate::negotiate::Negotiate;
use crate::refusal::invalid_token;
use crate::rows::{is_complete, is_guest_text, is_over};
use crate::server::accept_with;
use sspi_mech::{AcceptSecurityContext, Mechanism, Refusal, Step};
use sspi_names::Username;
use sspi_tokens::NegTokenTarg;
use sspi_types::{Bytes, ErrorKind, Reason};

impl<N: Mechanism, K: Mechanism> Negotiate<N, K> {
    pub(crate) fn read_response(
        &mut self,
        args: &AcceptSecurityContext<'_>,
    ) -> Result<Step, Refusal>
        // The step, and what a refused one leaves.
        ensures step { Does N.meaning K.meaning
            (at_progress (targ_of args.now.input.now) (values_of self.old) (accept_args args.now))
            self.old (told (answered result)) self.new }
        ensures stays { OnErr result (Stays (values_of self.old) (values_of self.new)) }
        ensures need { OnErr result (self.new.need ≡ self.old.need) }
        ensures exact { TellsKind (unread_refusal (targ_of args.now.input.now))
            (told (answered result)) }
        // What every answer keeps.
        ensures picked { StaysPicked (values_of self.old) (values_of self.new) }
    {
        let token = NegTokenTarg::decode(self.alloc, args.input)?;
        self.take_response(token, args)
    }

    fn take_response(
        &mut self,
        token: NegTokenTarg,
        args: &AcceptSecurityContext<'_>,
    ) -> Result<Step, Refusal>
        // The step, and what a refused one leaves.
        ensures step { Does N.meaning K.meaning
            (Accepts (record (accept_args args.now) { input = or_empty token.response_token })
            (values_of self.old)
            (λ step. accepted token (values_of self.old) step))
            self.old (told (answered result)) self.new }
        ensures stays { OnErr result (Stays (values_of self.old) (values_of self.new)) }
        ensures need { OnErr result (self.new.need ≡ self.old.need) }
        // What every answer keeps.
        ensures picked { StaysPicked (values_of self.old) (values_of self.new) }
    {
        let step = accept_with(&mut self.protocol, args, &token.response_token)?;
        self.respond(token, step)
    }

    fn respond(&mut self, token: NegTokenTarg, step: Step) -> Result<Step, Refusal>
        // The step, and what a refused one leaves.
        ensures step { Does N.meaning K.meaning (accepted token (values_of self.old) step) self.old
            (told (answered result)) self.new }
        ensures stays { OnErr result (Stays (values_of self.old) (values_of self.new)) }
        ensures need { OnErr result (self.new.need ≡ self.old.need) }
        // What every answer keeps.
        ensures picked { StaysPicked (values_of self.old) (values_of self.new) }
    {
        if is_over(step.status) {
            let complete = is_complete(token.neg_result);
            self.settle(self.mic_needed, token.mech_list_mic, complete, step.output)
        } else {
            self.carry_on(step.output, step.status)
        }
    }

    fn settle(
        &mut self,
        need: bool,
        mic: Option<Bytes>,
        complete: bool,
        token: Bytes,
    ) -> Result<Step, Refusal>
        // The step, and what a refused one leaves.
        ensures step { Does N.meaning K.meaning
            (settles need mic complete (values_of self.old) token) self.old
            (told (answered result)) self.new }
        ensures stays { OnErr result (Stays (values_of self.old) (values_of self.new)) }
        ensures need { OnErr result (self.new.need ≡ self.old.need) }
        // What every answer keeps.
        ensures picked { StaysPicked (values_of self.old) (values_of self.new) }
    {
        if need {
            match mic {
                Some(mic) => self.check_and_sign(&mic, token),
                None => self.go_without_mic(complete, token),
            }
        } else {
            self.complete(token, self.mic_needed)
        }
    }

    fn check_and_sign(&mut self, mic: &Bytes, token: Bytes) -> Result<Step, Refusal>
        // The step, and what a refused one leaves.
        ensures step { Does N.meaning K.meaning
            (checks mic.now (values_of self.old) (completes_signed (values_of self.old) token))
            self.old (told (answered result)) self.new }
        ensures stays { OnErr result (Stays (values_of self.old) (values_of self.new)) }
        ensures need { OnErr result (self.new.need ≡ self.old.need) }
        // What every answer keeps.
        ensures picked { StaysPicked (values_of self.old) (values_of self.new) }
    {
        self.check(mic)?;
        self.complete_signed(token)
    }

    #[tactic(auto, unfolding(crate::specs::Server::without_mic))]
    fn go_without_mic(&mut self, complete: bool, token: Bytes) -> Result<Step, Refusal>
        // The step, and what a refused one leaves.
        ensures step { Does N.meaning K.meaning (without_mic complete (values_of self.old) token)
            self.old
            (told (answered result)) self.new }
        ensures stays { OnErr result (Stays (values_of self.old) (values_of self.new)) }
        ensures need { OnErr result (self.new.need ≡ self.old.need) }
        // What every answer keeps.
        ensures picked { StaysPicked (values_of self.old) (values_of self.new) }
    {
        if complete {
            self.excuse(token)
        } else {
            self.hand_mic(token)
        }
    }

    fn excuse(&mut self, token: Bytes) -> Result<Step, Refusal>
        // The step, and what a refused one leaves.
        ensures step { Does N.meaning K.meaning
            (Names (values_of self.old) (λ name. excuses (values_of self.old) token name))
            self.old (told (answered result)) self.new }
        ensures stays { OnErr result (Stays (values_of self.old) (values_of self.new)) }
        ensures need { OnErr result (self.new.need ≡ self.old.need) }
        // What every answer keeps.
        ensures picked { StaysPicked (values_of self.old) (values_of self.new) }
    {
        let name = self.protocol.names()?;
        self.excuse_name(token, &name)
    }

    fn excuse_name(&mut self, token: Bytes, name: &Username) -> Result<Step, Refusal>
        // The step, and what a refused one leaves.
        ensures step { Does N.meaning K.meaning (excuses (values_of self.old) token name.now)
            self.old (told (answered result)) self.new }
        ensures stays { OnErr result (Stays (values_of self.old) (values_of self.new)) }
        ensures need { OnErr result (self.new.need ≡ self.old.need) }
        ensures exact { TellsKind
            (kind_if (not (is_guest_text (inner_of name.now))) ErrorKind.InvalidToken)
            (told (answered result)) }
        // What every answer keeps.
        ensures picked { StaysPicked (values_of self.old) (values_of self.new) }
    {
        if is_guest_text(name.inner()) {
            self.complete(token, false)
        } else {
            Err(invalid_token(Reason::NoMic))
        }
    }

    pub(crate) fn read_last(&mut self, args: &AcceptSecurityContext<'_>) -> Result<Step, Refusal>
        // The step, and what a refused one leaves.
        ensures step { Does N.meaning K.meaning
            (at_verify_mic (targ_of args.now.input.now) (values_of self.old))
            self.old (told (answered result)) self.new }
        ensures stays { OnErr result (Stays (values_of self.old) (values_of self.new)) }
        ensures need { OnErr result (self.new.need ≡ self.old.need) }
        ensures exact { TellsKind (unread_refusal (targ_of args.now.input.now))
            (told (answered result)) }
        // What every answer keeps.
        ensures picked { StaysPicked (values_of self.old) (values_of self.new) }
    {
        let token = NegTokenTarg::decode(self.alloc, args.input)?;
        self.take_last(token.mech_list_mic)
    }

    fn take_last(&mut self, mic: Option<Bytes>) -> Result<Step, Refusal>
        // The step, and what a refused one leaves.
        ensures step { Does N.meaning K.meaning (last_mic mic (values_of self.old)) self.old
            (told (answered result)) self.new }
        ensures stays { OnErr result (Stays (values_of self.old) (values_of self.new)) }
        ensures need { OnErr result (self.new.need ≡ self.old.need) }
        ensures exact { TellsKind (unread_refusal mic) (told (answered result)) }
        // What every answer keeps.
        ensures picked { StaysPicked (values_of self.old) (values_of self.new) }
    {
        match mic {
            None => Err(invalid_token(Reason::NoMic)),
            Some(mic) => self.check_last(&mic),
        }
    }

    fn check_last(&mut self, mic: &Bytes) -> Result<Step, Refusal>
        // The step, and what a refused one leaves.
        ensures step { Does N.meaning K.meaning
            (checks mic.now (values_of self.old)
            (Goes (record (values_of self.old) { state = states.Ok })
            (record { status = statuses.Ok; output = [] })))
            self.old (told (answered result)) self.new }
        ensures stays { OnErr result (Stays (values_of self.old) (values_of self.new)) }
        ensures need { OnErr result (self.new.need ≡ self.old.need) }
        // What every answer keeps.
        ensures picked { StaysPicked (values_of self.old) (values_of self.new) }
    {
        self.check(mic)?;
        self.end()
    }
}
