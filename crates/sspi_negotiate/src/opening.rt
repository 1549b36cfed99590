//! A client's first step: it chooses a mechanism, steps it and makes NegTokenInit.

ghost use Rattle.std.specs.Prelude.{◌≡◌, ◌≢◌, ◌&&◌, false, true, not, None, Some, OnErr};
ghost use Rattle.std.specs.Prelude.{option_copied};
ghost use Rattle.sspi_mech.specs.Answers.{answer_of, IfRefused};
ghost use Rattle.sspi_mech.specs.Calls.{step_args};
ghost use Rattle.sspi_mech.specs.Answered.{answered};
ghost use Rattle.sspi_negotiate.specs.Beginning.{SameHand, FallsBy, Falls, FallsResumed};
ghost use Rattle.sspi_negotiate.specs.Client.{at_initial, first_step, has_begun, begun, offers};
ghost use Rattle.sspi_negotiate.specs.Client.{falls, falls_back};
ghost use Rattle.sspi_negotiate.specs.Client.{steps_again, handle_for, passwords, resumes_opening};
ghost use Rattle.sspi_negotiate.specs.Does.{Does, Stays, UnlessMemory};
ghost use Rattle.sspi_negotiate.specs.Does.{WaitsOn, told};
ghost use Rattle.sspi_negotiate.specs.Exact.{TellsKind, kind_if};
ghost use Rattle.sspi_negotiate.specs.Hand.{hand, hand_of, is_kerberos_hand};
ghost use Rattle.sspi_negotiate.specs.Holding.{MayNeed};
ghost use Rattle.sspi_negotiate.specs.Fallback.{is_fallback};
ghost use Rattle.sspi_negotiate.specs.declared.branch.Branch.TheVariants as branches;
ghost use Rattle.sspi_negotiate.specs.Values.{values_of};

use crate::branch::{Branch, Opening};
use crate::fallback::is_fallback;
use crate::negotiate::Negotiate;
use crate::pick::offered;
use crate::protocol::NegotiatedProtocol;
use crate::rows::{client_wants_mic, handle_for, has_begun, passwords};
use crate::spelled::spelled_init;
use crate::state::NegotiateState;
use sspi_mech::{Answer, InitializeSecurityContext, Mechanism, Progressing, Refusal, Reply, Step};
use sspi_names::CredentialsBuffers;
use sspi_tokens::NegTokenInit;
use sspi_types::{Bytes, ErrorKind, Reason, SecurityStatus};

/// A step that asks no KDC.
pub(crate) fn done(ended: Result<Step, Refusal>) -> Result<Progressing, Refusal>
    ensures { answer_of (answered result) ≡ told (answered ended) }
{
    Ok(Progressing::Done(ended?))
}

/// The step of the selected mechanism.
pub(crate) fn step_with<N: Mechanism, K: Mechanism>(
    protocol: &mut NegotiatedProtocol<N, K>,
    kept: &Option<CredentialsBuffers>,
    args: &InitializeSecurityContext<'_>,
) -> Answer
    // The step.
    ensures step { (hand N.meaning K.meaning).steps protocol.old
        (record (step_args args.now) {
          handle = handle_for (hand_of protocol.old) kept.now
              (option_copied args.now.credentials_handle);
        })
        result protocol.new }
    // What every answer keeps, and that a refusal has no code.
    ensures named { hand_of protocol.new ≡ hand_of protocol.old }
    ensures codeless { IfRefused result (λ error. error.nstatus ≡ None) }
{
    let handle = handle_for(protocol.protocol(), kept.as_ref(), args.credentials_handle);
    protocol.initialize(&InitializeSecurityContext {
        credentials_handle: handle,
        context_requirements: args.context_requirements,
        target_data_representation: args.target_data_representation,
        target_name: args.target_name,
        input: args.input,
    })
}

/// The step that NTLM makes in the place of Kerberos.
fn step_again<N: Mechanism, K: Mechanism>(
    protocol: &mut NegotiatedProtocol<N, K>,
    kept: &Option<CredentialsBuffers>,
    first: &Opening,
) -> Answer
    // The step.
    ensures step { (hand N.meaning K.meaning).steps protocol.old (record {
      handle = passwords kept.now;
      requirements = first.now.context_requirements;
      representation = first.now.data_representation;
      target = first.now.target_name;
      input = first.now.input;
    }) result protocol.new }
    // What every answer keeps, and that a refusal has no code.
    ensures named { hand_of protocol.new ≡ hand_of protocol.old }
    ensures codeless { IfRefused result (λ error. error.nstatus ≡ None) }
{
    let target_name = match &first.target_name {
        None => None,
        Some(target) => Some(target.as_str()),
    };
    protocol.initialize(&InitializeSecurityContext {
        credentials_handle: passwords(kept.as_ref()),
        context_requirements: first.context_requirements,
        target_data_representation: first.data_representation,
        target_name,
        input: first.input.as_slice(),
    })
}

impl<N: Mechanism, K: Mechanism> Negotiate<N, K> {
    #[tactic(auto, unfolding(crate::specs::Client::at_initial))]
    pub(crate) fn first_step(
        &mut self,
        args: &InitializeSecurityContext<'_>,
    ) -> Result<Progressing, Refusal>
        // The step, and what a refused one leaves.
        ensures step { Does N.meaning K.meaning
            (at_initial (values_of self.old) (step_args args.now))
            self.old (answer_of (answered result)) self.new }
        ensures stays { OnErr result (Stays (values_of self.old) (values_of self.new)) }
        ensures held { OnErr result
            (FallsBy (Falls (hand N.meaning K.meaning) self.old.mech (step_args args.now))
            (values_of self.old) (values_of self.new)) }
        // What every answer keeps.
        ensures kept { self.new.kept ≡ self.old.kept }
        ensures need { MayNeed args.now.context_requirements self.old.need self.new.need }
    {
        let first = Opening::of(self.alloc, args)?;
        self.mic_needed = client_wants_mic(args.context_requirements);
        self.open(first, args)
    }

    #[tactic(auto, unfolding(crate::specs::Client::first_step))]
    fn open(
        &mut self,
        first: Opening,
        args: &InitializeSecurityContext<'_>,
    ) -> Result<Progressing, Refusal>
        // The step, and what a refused one leaves.
        ensures step { Does N.meaning K.meaning
            (first_step first (values_of self.old) (step_args args.now))
            self.old (answer_of (answered result)) self.new }
        ensures stays { OnErr result (Stays (values_of self.old) (values_of self.new)) }
        ensures held { OnErr result
            (FallsBy (Falls (hand N.meaning K.meaning) self.old.mech (step_args args.now))
            (values_of self.old) (values_of self.new)) }
        // What every answer keeps.
        ensures kept { self.new.kept ≡ self.old.kept }
        ensures need { self.new.need ≡ self.old.need }
    {
        match step_with(&mut self.protocol, &self.auth_identity, args) {
            Answer::Done(step) => done(self.begin(step)),
            Answer::Ask(request) => {
                self.branch = Branch::Opening(first);
                Ok(Progressing::Suspended(request))
            }
            Answer::Refused(error) => self.fall(error.into(), first),
        }
    }

    fn begin(&mut self, step: Step) -> Result<Step, Refusal>
        // The step, and what a refused one leaves.
        ensures step { Does N.meaning K.meaning (begun (values_of self.old) step) self.old
            (told (answered result)) self.new }
        ensures stays { OnErr result (Stays (values_of self.old) (values_of self.new)) }
        ensures exact { TellsKind (kind_if (not (has_begun step.status)) ErrorKind.InternalError)
            (told (answered result)) }
        // What every answer keeps.
        ensures kept { self.new.kept ≡ self.old.kept }
        ensures need { self.new.need ≡ self.old.need }
        ensures held { SameHand (values_of self.old) (values_of self.new) }
    {
        if has_begun(step.status) {
            self.offer(step.output)
        } else {
            Err(Refusal::new(ErrorKind::InternalError, Reason::Status))
        }
    }

    #[tactic(auto, unfolding(crate::specs::Client::offers))]
    fn offer(&mut self, token: Bytes) -> Result<Step, Refusal>
        // The step, and what a refused one leaves.
        ensures step { Does N.meaning K.meaning (offers (values_of self.old) token) self.old
            (told (answered result)) self.new }
        ensures stays { OnErr result (Stays (values_of self.old) (values_of self.new)) }
        // What every answer keeps.
        ensures kept { self.new.kept ≡ self.old.kept }
        ensures need { self.new.need ≡ self.old.need }
        ensures held { SameHand (values_of self.old) (values_of self.new) }
    {
        let list = offered(self.alloc, self.protocol.protocol(), self.packages)?;
        let token = NegTokenInit {
            mech_types: Some(list.clone(self.alloc)?),
            mech_token: Some(token),
        };
        let output = spelled_init(self.alloc, &token)?;
        self.mech_types = list;
        self.state = NegotiateState::InProgress;
        Ok(Step {
            status: SecurityStatus::ContinueNeeded,
            output,
        })
    }

    /// Whether NTLM replaces Kerberos after this refusal.
    fn falls_back(&self, refusal: &Refusal) -> bool
        ensures { result ≡ (is_fallback refusal.now.error_type &&
            is_kerberos_hand (hand_of self.now.mech) && self.now.packages.ntlm) }
    {
        is_fallback(refusal.error_type) && self.protocol.is_kerberos() && self.packages.ntlm
    }

    #[tactic(auto, using(crate::proofs::Tokens::fallback_is_other))]
    fn fall(&mut self, refusal: Refusal, first: Opening) -> Result<Progressing, Refusal>
        // The step, and what a refused one leaves.
        ensures step { Does N.meaning K.meaning
            (falls (values_of self.old) (values_of self.old) first refusal.error_type)
            self.old (answer_of (answered result)) self.new }
        ensures stays { OnErr result (Stays (values_of self.old) (values_of self.new)) }
        ensures held { OnErr result (FallsBy ((is_fallback refusal.error_type ≡ true) ×
            (is_kerberos_hand (hand_of self.old.mech) ≡ true))
            (values_of self.old) (values_of self.new)) }
        // What every answer keeps.
        ensures kept { self.new.kept ≡ self.old.kept }
        ensures need { self.new.need ≡ self.old.need }
        ensures other { UnlessMemory (answer_of (answered result))
            (refusal.error_type ≢ ErrorKind.InsufficientMemory) }
    {
        if self.falls_back(&refusal) {
            self.fall_back(first, false)
        } else {
            Err(refusal)
        }
    }

    #[tactic(auto, using(crate::proofs::Tokens::fallback_is_other))]
    fn fall_waiting(&mut self, refusal: Refusal, first: Opening) -> Result<Progressing, Refusal>
        // The step, and what a refused one leaves.
        ensures step { Does N.meaning K.meaning
            (falls (record (values_of self.old) { branch = branches.Opening first })
            (values_of self.old) first refusal.error_type)
            self.old (answer_of (answered result)) self.new }
        ensures stays { OnErr result (WaitsOn (record self.old { branch = branches.Opening first })
            self.old self.new) }
        ensures held { OnErr result (FallsBy ((is_fallback refusal.error_type ≡ true) ×
            (is_kerberos_hand (hand_of self.old.mech) ≡ true))
            (values_of self.old) (values_of self.new)) }
        // What every answer keeps.
        ensures kept { self.new.kept ≡ self.old.kept }
        ensures need { self.new.need ≡ self.old.need }
        ensures other { UnlessMemory (answer_of (answered result))
            (refusal.error_type ≢ ErrorKind.InsufficientMemory) }
    {
        if self.falls_back(&refusal) {
            self.fall_back(first, true)
        } else {
            self.branch = Branch::Opening(first);
            Err(refusal)
        }
    }

    /// A new NTLM makes the step. If there is no memory for it, a step that waited for a KDC still
    /// waits.
    #[tactic(auto, unfolding(crate::specs::Client::falls_back))]
    fn fall_back(&mut self, first: Opening, waited: bool) -> Result<Progressing, Refusal>
        // The step, and what a refused one leaves.
        ensures step { Does N.meaning K.meaning (falls_back (values_of self.old) first) self.old
            (answer_of (answered result)) self.new }
        ensures stays { self.old.packages.ntlm ≡ true → waited ≡ false →
            OnErr result (Stays (values_of self.old) (values_of self.new)) }
        ensures waits { self.old.packages.ntlm ≡ true → waited ≡ true →
            OnErr result (WaitsOn (record self.old { branch = branches.Opening first }) self.old
            self.new) }
        ensures held { OnErr result (FallsBy (Unit {0}) (values_of self.old) (values_of self.new)) }
        // What every answer keeps.
        ensures kept { self.new.kept ≡ self.old.kept }
        ensures need { self.new.need ≡ self.old.need }
    {
        match NegotiatedProtocol::new_ntlm(self.alloc, &self.client_computer_name) {
            Err(refusal) => {
                if waited {
                    self.branch = Branch::Opening(first);
                }
                Err(refusal)
            }
            Ok(protocol) => {
                self.protocol = protocol;
                self.packages.kerberos = false;
                self.open_again(first)
            }
        }
    }

    #[tactic(auto, unfolding(crate::specs::Client::steps_again))]
    fn open_again(&mut self, first: Opening) -> Result<Progressing, Refusal>
        // The step, and what a refused one leaves.
        ensures step { Does N.meaning K.meaning (steps_again (values_of self.old) first) self.old
            (answer_of (answered result)) self.new }
        ensures stays { OnErr result (Stays (values_of self.old) (values_of self.new)) }
        // What every answer keeps.
        ensures kept { self.new.kept ≡ self.old.kept }
        ensures need { self.new.need ≡ self.old.need }
        ensures held { SameHand (values_of self.old) (values_of self.new) }
    {
        match step_again(&mut self.protocol, &self.auth_identity, &first) {
            Answer::Done(step) => done(self.begin(step)),
            Answer::Ask(request) => {
                self.branch = Branch::Opening(first);
                Ok(Progressing::Suspended(request))
            }
            Answer::Refused(error) => Err(error.into()),
        }
    }

    #[tactic(auto, unfolding(crate::specs::Client::resumes_opening))]
    pub(crate) fn resume_opening(
        &mut self,
        first: Opening,
        reply: &Reply,
    ) -> Result<Progressing, Refusal>
        // The step, and what a refused one leaves.
        ensures step { Does N.meaning K.meaning
            (resumes_opening first (values_of self.old) reply.now)
            self.old (answer_of (answered result)) self.new }
        ensures stays { OnErr result (WaitsOn (record self.old { branch = branches.Opening first })
            self.old self.new) }
        ensures held { OnErr result
            (FallsBy (FallsResumed (hand N.meaning K.meaning) self.old.mech reply.now)
            (values_of self.old) (values_of self.new)) }
        // What every answer keeps.
        ensures kept { self.new.kept ≡ self.old.kept }
        ensures need { self.new.need ≡ self.old.need }
    {
        match self.protocol.resume(reply) {
            Answer::Done(step) => done(self.begin(step)),
            Answer::Ask(request) => {
                self.branch = Branch::Opening(first);
                Ok(Progressing::Suspended(request))
            }
            Answer::Refused(error) => self.fall_waiting(error.into(), first),
        }
    }
}
