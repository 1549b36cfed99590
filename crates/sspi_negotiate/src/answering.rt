//! A client's later steps: it reads the server's token and answers it.

ghost use Rattle.std.specs.Prelude.{◌≡◌, ◌<◌, [], false, true, not, None, Some, IfErr, OnErr};
ghost use Rattle.std.specs.Prelude.{option_and_then, option_map, option_copied};
ghost use Rattle.sspi_mech.specs.Answers.{answer_of, IfRefused, OnAsk};
ghost use Rattle.sspi_mech.specs.Calls.{step_args};
ghost use Rattle.sspi_mech.specs.Answered.{answered};
ghost use Rattle.sspi_tokens.specs.Oids.{kind_of};
ghost use Rattle.sspi_tokens.specs.declared.oid.MechKind.TheVariants as kinds;
ghost use Rattle.sspi_tokens.specs.Reading.{targ_of};
ghost use Rattle.sspi_negotiate.specs.declared.branch.Branch.TheVariants as branches;
ghost use Rattle.sspi_negotiate.specs.declared.protocol.Protocol.TheVariants as protocols;
ghost use Rattle.sspi_negotiate.specs.Beginning.{FallsBy, FallsResumed};
ghost use Rattle.sspi_negotiate.specs.Choices.{protocol_of, chosen_in, excuses_guest};
ghost use Rattle.sspi_negotiate.specs.Client.{at_progress, chosen, chooses_kerberos, chooses_ntlm};
ghost use Rattle.sspi_negotiate.specs.Client.{in_kerberos, answers, without_ntlm};
ghost use Rattle.sspi_negotiate.specs.Client.{stepped, settles, verified, handle_for};
ghost use Rattle.sspi_negotiate.specs.Client.{resumes_answering, spnego_resumed};
ghost use Rattle.sspi_negotiate.specs.Does.{Does, Stays, StaysNeeded, StaysPicked, StaysResumed};
ghost use Rattle.sspi_negotiate.specs.Does.{WaitsOn, told};
ghost use Rattle.sspi_negotiate.specs.Exact.{TellsKind, unread_refusal, choice_refusal};
ghost use Rattle.sspi_negotiate.specs.Exact.{resumed_refusal};
ghost use Rattle.sspi_negotiate.specs.Hand.{hand, hand_of};
ghost use Rattle.sspi_negotiate.specs.Holding.{MayHave};
ghost use Rattle.sspi_negotiate.specs.Keeps.{is_opening};
ghost use Rattle.sspi_negotiate.specs.Negotiate.{negotiate};
ghost use Rattle.sspi_negotiate.specs.Rows.{or_empty, in_ntlm, verifies};
ghost use Rattle.sspi_negotiate.specs.Values.{values_of};

use crate::branch::Branch;
use crate::negotiate::Negotiate;
use crate::opening::{done, step_with};
use crate::protocol::{NegotiatedProtocol, Protocol};
use crate::refusal::invalid_token;
use crate::rows::{is_complete, is_guest, is_ok};
use sspi_mech::{Answer, InitializeSecurityContext, Mechanism, Progressing, Refusal, Reply, Step};
use sspi_names::CredentialsBuffers;
use sspi_tokens::{MechKind, NegTokenTarg};
use sspi_types::{Bytes, Error, Reason};
use std::mem;

/// The mechanism that a server's token chooses.
fn choice_of(token: &NegTokenTarg) -> Option<MechKind>
    ensures { result ≡ option_map kind_of token.now.supported_mech }
{
    match &token.supported_mech {
        None => None,
        Some(oid) => Some(oid.kind()),
    }
}

/// The step of the selected mechanism on this token, or on none.
fn answer_with<N: Mechanism, K: Mechanism>(
    protocol: &mut NegotiatedProtocol<N, K>,
    kept: &Option<CredentialsBuffers>,
    args: &InitializeSecurityContext<'_>,
    token: &Option<Bytes>,
) -> Answer
    ensures step { (hand N.meaning K.meaning).steps protocol.old (record (step_args args.now) {
      handle = handle_for (hand_of protocol.old) kept.now
          (option_copied args.now.credentials_handle);
      input = or_empty token.now;
    }) result protocol.new }
    ensures named { hand_of protocol.new ≡ hand_of protocol.old }
    ensures codeless { IfRefused result (λ error. error.nstatus ≡ None) }
{
    let input = match token {
        None => &[],
        Some(token) => token.as_slice(),
    };
    step_with(
        protocol,
        kept,
        &InitializeSecurityContext {
            credentials_handle: args.credentials_handle,
            context_requirements: args.context_requirements,
            target_data_representation: args.target_data_representation,
            target_name: args.target_name,
            input,
        },
    )
}

impl<N: Mechanism, K: Mechanism> Negotiate<N, K> {
    pub(crate) fn read_answer(
        &mut self,
        args: &InitializeSecurityContext<'_>,
    ) -> Result<Progressing, Refusal>
        ensures step { Does N.meaning K.meaning
            (at_progress (targ_of args.now.input.now) (values_of self.old) (step_args args.now))
            self.old (answer_of (answered result)) self.new }
        ensures stays { OnErr result (Stays (values_of self.old) (values_of self.new)) }
        ensures exact { TellsKind (unread_refusal (targ_of args.now.input.now))
            (answer_of (answered result)) }
        ensures need { let v = values_of self.old in
            StaysNeeded (excuses_guest (chosen_in args.now.input.now) v (step_args args.now)) v
            (values_of self.new) }
        ensures held { MayHave ⊥ None (chosen_in args.now.input.now) (values_of self.old)
            (values_of self.new) }
        ensures kept { self.new.kept ≡ self.old.kept }
    {
        let token = NegTokenTarg::decode(self.alloc, args.input)?;
        self.choose(token, args)
    }

    fn choose(
        &mut self,
        token: NegTokenTarg,
        args: &InitializeSecurityContext<'_>,
    ) -> Result<Progressing, Refusal>
        ensures step { Does N.meaning K.meaning
            (chosen (option_map kind_of token.supported_mech) token (values_of self.old)
            (step_args args.now))
            self.old (answer_of (answered result)) self.new }
        ensures stays { OnErr result (Stays (values_of self.old) (values_of self.new)) }
        ensures exact { TellsKind
            (choice_refusal (option_map kind_of token.supported_mech) self.old.packages)
            (answer_of (answered result)) }
        ensures need { let v = values_of self.old in StaysNeeded
            (excuses_guest (option_and_then protocol_of (option_map kind_of token.supported_mech)) v
            (step_args args.now))
            v (values_of self.new) }
        ensures held { MayHave ⊥ None
            (option_and_then protocol_of (option_map kind_of token.supported_mech))
            (values_of self.old) (values_of self.new) }
        ensures kept { self.new.kept ≡ self.old.kept }
    {
        match choice_of(&token) {
            None => self.answer(token, args),
            Some(MechKind::MsKerberos) => self.choose_kerberos(token, args),
            Some(MechKind::Kerberos) => self.choose_kerberos(token, args),
            Some(MechKind::Ntlm) => self.choose_ntlm(token, args),
            Some(MechKind::Other) => Err(invalid_token(Reason::MechUnknown)),
        }
    }

    #[tactic(auto, unfolding(crate::specs::Client::chooses_kerberos))]
    fn choose_kerberos(
        &mut self,
        token: NegTokenTarg,
        args: &InitializeSecurityContext<'_>,
    ) -> Result<Progressing, Refusal>
        ensures step { Does N.meaning K.meaning
            (chooses_kerberos token (values_of self.old) (step_args args.now))
            self.old (answer_of (answered result)) self.new }
        ensures stays { OnErr result (Stays (values_of self.old) (values_of self.new)) }
        ensures exact { TellsKind (choice_refusal (Some kinds.Kerberos) self.old.packages)
            (answer_of (answered result)) }
        ensures need { StaysNeeded false (values_of self.old) (values_of self.new) }
        ensures held { MayHave ⊥ None (Some protocols.Kerberos) (values_of self.old)
            (values_of self.new) }
        ensures kept { self.new.kept ≡ self.old.kept }
    {
        if self.packages.kerberos {
            self.go_to_kerberos(token, args)
        } else {
            Err(invalid_token(Reason::Disabled))
        }
    }

    fn go_to_kerberos(
        &mut self,
        token: NegTokenTarg,
        args: &InitializeSecurityContext<'_>,
    ) -> Result<Progressing, Refusal>
        ensures step { Does N.meaning K.meaning
            (in_kerberos (hand_of self.old.mech) token (without_ntlm (values_of self.old))
            (step_args args.now))
            self.old (answer_of (answered result)) self.new }
        ensures stays { self.old.packages.kerberos ≡ true →
            OnErr result (Stays (values_of self.old) (values_of self.new)) }
        ensures need { StaysNeeded false (values_of self.old) (values_of self.new) }
        ensures held { self.old.packages.kerberos ≡ true → MayHave ⊥ None (Some protocols.Kerberos)
            (values_of self.old) (values_of self.new) }
        ensures kept { self.new.kept ≡ self.old.kept }
    {
        match self.protocol.protocol() {
            Protocol::Kerberos => self.answer_in_kerberos(token, args),
            Protocol::Ntlm => self.replace_ntlm(token, args),
        }
    }

    /// Disables NTLM only once Kerberos is selected, so that running out of memory leaves no
    /// disabled mechanism selected.
    fn replace_ntlm(
        &mut self,
        token: NegTokenTarg,
        args: &InitializeSecurityContext<'_>,
    ) -> Result<Progressing, Refusal>
        ensures step { Does N.meaning K.meaning
            (in_kerberos protocols.Ntlm token (without_ntlm (values_of self.old))
            (step_args args.now))
            self.old (answer_of (answered result)) self.new }
        ensures stays { self.old.packages.kerberos ≡ true →
            OnErr result (Stays (values_of self.old) (values_of self.new)) }
        ensures need { StaysNeeded false (values_of self.old) (values_of self.new) }
        ensures held { self.old.packages.kerberos ≡ true → MayHave ⊥ None (Some protocols.Kerberos)
            (values_of self.old) (values_of self.new) }
        ensures kept { self.new.kept ≡ self.old.kept }
    {
        self.protocol = NegotiatedProtocol::new_kerberos(
            self.alloc,
            None,
            &self.kdcs,
            &self.client_computer_name,
        )?;
        self.mic_needed = true;
        self.answer_in_kerberos(token, args)
    }

    fn answer_in_kerberos(
        &mut self,
        token: NegTokenTarg,
        args: &InitializeSecurityContext<'_>,
    ) -> Result<Progressing, Refusal>
        ensures step { Does N.meaning K.meaning
            (answers token (without_ntlm (values_of self.old)) (step_args args.now))
            self.old (answer_of (answered result)) self.new }
        ensures stays { hand_of self.old.mech ≡ protocols.Kerberos →
            OnErr result (Stays (values_of self.old) (values_of self.new)) }
        ensures need { StaysNeeded false (values_of self.old) (values_of self.new) }
        ensures picked { StaysPicked (without_ntlm (values_of self.old)) (values_of self.new) }
    {
        self.packages.ntlm = false;
        self.answer(token, args)
    }

    #[tactic(auto, unfolding(crate::specs::Client::chooses_ntlm))]
    fn choose_ntlm(
        &mut self,
        token: NegTokenTarg,
        args: &InitializeSecurityContext<'_>,
    ) -> Result<Progressing, Refusal>
        ensures step { Does N.meaning K.meaning
            (chooses_ntlm token (values_of self.old) (step_args args.now))
            self.old (answer_of (answered result)) self.new }
        ensures stays { OnErr result (Stays (values_of self.old) (values_of self.new)) }
        ensures exact { TellsKind (choice_refusal (Some kinds.Ntlm) self.old.packages)
            (answer_of (answered result)) }
        ensures need { let v = values_of self.old in
            StaysNeeded (excuses_guest (Some protocols.Ntlm) v (step_args args.now)) v
            (values_of self.new) }
        ensures held { MayHave ⊥ None (Some protocols.Ntlm) (values_of self.old)
            (values_of self.new) }
        ensures kept { self.new.kept ≡ self.old.kept }
    {
        if self.packages.ntlm {
            let guest = is_guest(self.alloc, args.credentials_handle)?;
            self.go_to_ntlm(token, args, guest)
        } else {
            Err(invalid_token(Reason::Disabled))
        }
    }

    fn go_to_ntlm(
        &mut self,
        token: NegTokenTarg,
        args: &InitializeSecurityContext<'_>,
        guest: bool,
    ) -> Result<Progressing, Refusal>
        ensures step { Does N.meaning K.meaning
            (in_ntlm (hand_of self.old.mech) self.old.computer
            (answers token (record (values_of self.old) {
              hand = protocols.Ntlm;
              packages = record self.old.packages { kerberos = false };
              need = not guest;
            }) (step_args args.now)))
            self.old (answer_of (answered result)) self.new }
        ensures stays { self.old.packages.ntlm ≡ true →
            OnErr result (Stays (values_of self.old) (values_of self.new)) }
        ensures need { StaysNeeded guest (values_of self.old) (values_of self.new) }
        ensures held { self.old.packages.ntlm ≡ true → MayHave ⊥ None (Some protocols.Ntlm)
            (values_of self.old) (values_of self.new) }
        ensures kept { self.new.kept ≡ self.old.kept }
    {
        self.take_ntlm()?;
        self.answer_in_ntlm(token, args, guest)
    }

    fn answer_in_ntlm(
        &mut self,
        token: NegTokenTarg,
        args: &InitializeSecurityContext<'_>,
        guest: bool,
    ) -> Result<Progressing, Refusal>
        ensures step { Does N.meaning K.meaning
            (answers token (record (values_of self.old) {
              packages = record self.old.packages { kerberos = false };
              need = not guest;
            }) (step_args args.now))
            self.old (answer_of (answered result)) self.new }
        ensures stays { hand_of self.old.mech ≡ protocols.Ntlm →
            OnErr result (Stays (values_of self.old) (values_of self.new)) }
        ensures need { StaysNeeded guest (values_of self.old) (values_of self.new) }
        ensures picked { StaysPicked
            (record (values_of self.old) {
              packages = record self.old.packages { kerberos = false };
            })
            (values_of self.new) }
    {
        self.packages.kerberos = false;
        self.mic_needed = !guest;
        self.answer(token, args)
    }

    #[tactic(auto, unfolding(crate::specs::Client::answers))]
    fn answer(
        &mut self,
        token: NegTokenTarg,
        args: &InitializeSecurityContext<'_>,
    ) -> Result<Progressing, Refusal>
        ensures step { Does N.meaning K.meaning
            (answers token (values_of self.old) (step_args args.now))
            self.old (answer_of (answered result)) self.new }
        ensures stays { OnErr result (Stays (values_of self.old) (values_of self.new)) }
        ensures need { self.new.need ≡ self.old.need }
        ensures picked { StaysPicked (values_of self.old) (values_of self.new) }
    {
        let response = &token.response_token;
        match answer_with(&mut self.protocol, &self.auth_identity, args, response) {
            Answer::Done(step) => done(self.conclude(token, step)),
            Answer::Ask(request) => {
                self.branch = Branch::Answering(token);
                Ok(Progressing::Suspended(request))
            }
            Answer::Refused(error) => Err(error.into()),
        }
    }

    fn conclude(&mut self, token: NegTokenTarg, step: Step) -> Result<Step, Refusal>
        ensures step { Does N.meaning K.meaning (stepped token (values_of self.old) step) self.old
            (told (answered result)) self.new }
        ensures stays { OnErr result (Stays (values_of self.old) (values_of self.new)) }
        ensures need { self.new.need ≡ self.old.need }
        ensures picked { StaysPicked (values_of self.old) (values_of self.new) }
    {
        if is_ok(step.status) {
            let complete = is_complete(token.neg_result);
            self.settle_client(self.mic_needed, token.mech_list_mic, complete, step.output)
        } else {
            self.carry_on(step.output, step.status)
        }
    }

    fn settle_client(
        &mut self,
        need: bool,
        mic: Option<Bytes>,
        complete: bool,
        token: Bytes,
    ) -> Result<Step, Refusal>
        ensures step { Does N.meaning K.meaning
            (settles need mic complete (values_of self.old) token) self.old
            (told (answered result)) self.new }
        ensures stays { OnErr result (Stays (values_of self.old) (values_of self.new)) }
        ensures need { self.new.need ≡ self.old.need }
        ensures picked { StaysPicked (values_of self.old) (values_of self.new) }
    {
        if need {
            match mic {
                Some(mic) => self.verify_and_end(&mic, complete, token),
                None => self.hand_mic(token),
            }
        } else if complete {
            self.end()
        } else {
            self.complete(token, self.mic_needed)
        }
    }

    fn verify_and_end(&mut self, mic: &Bytes, complete: bool, token: Bytes) -> Result<Step, Refusal>
        ensures step { Does N.meaning K.meaning
            (verifies mic.now (values_of self.old) (verified complete (values_of self.old) token))
            self.old (told (answered result)) self.new }
        ensures stays { OnErr result (Stays (values_of self.old) (values_of self.new)) }
        ensures need { self.new.need ≡ self.old.need }
        ensures picked { StaysPicked (values_of self.old) (values_of self.new) }
    {
        self.verify(mic)?;
        self.end_verified(complete, token)
    }

    fn end_verified(&mut self, complete: bool, token: Bytes) -> Result<Step, Refusal>
        ensures step { Does N.meaning K.meaning (verified complete (values_of self.old) token)
            self.old (told (answered result)) self.new }
        ensures stays { OnErr result (Stays (values_of self.old) (values_of self.new)) }
        ensures need { self.new.need ≡ self.old.need }
        ensures picked { StaysPicked (values_of self.old) (values_of self.new) }
    {
        if complete {
            self.end()
        } else {
            self.complete_signed(token)
        }
    }

    /// Continues the suspended step, once the outcome of its request is known.
    ///
    /// `OutOfSequence` if no step is suspended. Else as the suspended step. If the mechanism
    /// refuses it, it stays suspended, unless NTLM has replaced Kerberos. If what follows the
    /// mechanism's step is refused, it does not.
    pub fn resume(&mut self, reply: &Reply) -> Result<Progressing, Error>
        ensures step { (negotiate N.REQUESTS N.meaning K.meaning).resumes self.old reply.now
            (answer_of result) self.new }
        ensures falls { let c = negotiate N.REQUESTS N.meaning K.meaning in OnAsk (answer_of result)
            (c.left self.new < c.left self.old) }
        ensures codeless { IfErr result (λ error. error.nstatus ≡ None) }
    {
        Ok(self.resume_at(reply)?)
    }

    fn resume_at(&mut self, reply: &Reply) -> Result<Progressing, Refusal>
        // The step, and what a refused one leaves.
        ensures step { Does N.meaning K.meaning (spnego_resumed (values_of self.old) reply.now)
            self.old
            (answer_of (answered result)) self.new }
        ensures stays { OnErr result (WaitsOn self.old (record self.old { branch = branches.Idle })
            self.new) }
        ensures held { is_opening self.old.branch ≡ true →
            OnErr result (FallsBy (FallsResumed (hand N.meaning K.meaning) self.old.mech reply.now)
            (values_of self.old) (values_of self.new)) }
        ensures exact { TellsKind (resumed_refusal self.old.branch) (answer_of (answered result)) }
        // What every answer keeps.
        ensures resumed { StaysResumed (values_of self.old) (values_of self.new) }
    {
        match mem::replace(&mut self.branch, Branch::Idle) {
            Branch::Idle => Err(Refusal::out_of_sequence()),
            Branch::Opening(first) => self.resume_opening(first, reply),
            Branch::Answering(token) => self.resume_answering(token, reply),
        }
    }

    #[tactic(auto, unfolding(crate::specs::Client::resumes_answering))]
    fn resume_answering(
        &mut self,
        token: NegTokenTarg,
        reply: &Reply,
    ) -> Result<Progressing, Refusal>
        ensures step { Does N.meaning K.meaning
            (resumes_answering token (values_of self.old) reply.now)
            self.old (answer_of (answered result)) self.new }
        ensures stays { OnErr result
            (WaitsOn (record self.old { branch = branches.Answering token }) self.old self.new) }
        ensures need { self.new.need ≡ self.old.need }
        ensures picked { StaysPicked (values_of self.old) (values_of self.new) }
    {
        match self.protocol.resume(reply) {
            Answer::Done(step) => done(self.conclude(token, step)),
            Answer::Ask(request) => {
                self.branch = Branch::Answering(token);
                Ok(Progressing::Suspended(request))
            }
            Answer::Refused(error) => {
                self.branch = Branch::Answering(token);
                Err(error.into())
            }
        }
    }
}
