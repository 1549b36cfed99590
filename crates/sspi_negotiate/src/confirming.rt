//! A client's last step: it reads the token that ends the negotiation, and verifies its MIC.

ghost use Rattle.std.specs.Prelude.{◌≡◌, [], not, None, Some, OnErr};
ghost use Rattle.sspi_mech.specs.Answers.{answer_of};
ghost use Rattle.sspi_mech.specs.Answered.{answered};
ghost use Rattle.sspi_tokens.specs.Reading.{targ_of};
ghost use Rattle.sspi_negotiate.specs.declared.state.NegotiateState.TheVariants as states;
ghost use Rattle.sspi_types.specs.declared.security_status.SecurityStatus.TheVariants as statuses;
ghost use Rattle.sspi_negotiate.specs.Client.{at_verify_mic, confirmed, last_mic};
ghost use Rattle.sspi_negotiate.specs.Does.{Does, Stays, StaysPicked, told};
ghost use Rattle.sspi_negotiate.specs.Exact.{TellsKind, kind_if, unread_refusal};
ghost use Rattle.sspi_negotiate.specs.Plan.{Goes};
ghost use Rattle.sspi_negotiate.specs.Rows.{is_complete, verifies};
ghost use Rattle.sspi_negotiate.specs.Values.{values_of};

use crate::negotiate::Negotiate;
use crate::opening::done;
use crate::refusal::invalid_token;
use crate::rows::is_complete;
use sspi_mech::{InitializeSecurityContext, Mechanism, Progressing, Refusal, Step};
use sspi_tokens::NegTokenTarg;
use sspi_types::{Bytes, ErrorKind, Reason, SecurityStatus};

impl<N: Mechanism, K: Mechanism> Negotiate<N, K> {
    pub(crate) fn confirm(
        &mut self,
        args: &InitializeSecurityContext<'_>,
    ) -> Result<Progressing, Refusal>
        ensures step { Does N.meaning K.meaning
            (at_verify_mic (targ_of args.now.input.now) (values_of self.old))
            self.old (answer_of (answered result)) self.new }
        ensures stays { OnErr result (Stays (values_of self.old) (values_of self.new)) }
        ensures exact { TellsKind (unread_refusal (targ_of args.now.input.now))
            (answer_of (answered result)) }
        ensures need { self.new.need ≡ self.old.need }
        ensures picked { StaysPicked (values_of self.old) (values_of self.new) }
    {
        let token = NegTokenTarg::decode(self.alloc, args.input)?;
        done(self.confirm_by(token))
    }

    fn confirm_by(&mut self, token: NegTokenTarg) -> Result<Step, Refusal>
        ensures step { Does N.meaning K.meaning (confirmed token (values_of self.old)) self.old
            (told (answered result)) self.new }
        ensures stays { OnErr result (Stays (values_of self.old) (values_of self.new)) }
        ensures exact { TellsKind
            (kind_if (not (is_complete token.neg_result)) ErrorKind.InvalidToken)
            (told (answered result)) }
        ensures need { self.new.need ≡ self.old.need }
        ensures picked { StaysPicked (values_of self.old) (values_of self.new) }
    {
        if is_complete(token.neg_result) {
            self.confirm_mic(token.mech_list_mic)
        } else {
            Err(invalid_token(Reason::NegResult))
        }
    }

    fn confirm_mic(&mut self, mic: Option<Bytes>) -> Result<Step, Refusal>
        ensures step { Does N.meaning K.meaning (last_mic mic (values_of self.old)) self.old
            (told (answered result)) self.new }
        ensures stays { OnErr result (Stays (values_of self.old) (values_of self.new)) }
        ensures need { self.new.need ≡ self.old.need }
        ensures picked { StaysPicked (values_of self.old) (values_of self.new) }
    {
        match mic {
            None => Ok(Step {
                status: SecurityStatus::ContinueNeeded,
                output: Bytes::new(self.alloc),
            }),
            Some(mic) => self.verify_last(&mic),
        }
    }

    fn verify_last(&mut self, mic: &Bytes) -> Result<Step, Refusal>
        ensures step { Does N.meaning K.meaning
            (verifies mic.now (values_of self.old)
            (Goes (record (values_of self.old) { state = states.Ok })
            (record { status = statuses.Ok; output = [] })))
            self.old (told (answered result)) self.new }
        ensures stays { OnErr result (Stays (values_of self.old) (values_of self.new)) }
        ensures need { self.new.need ≡ self.old.need }
        ensures picked { StaysPicked (values_of self.old) (values_of self.new) }
    {
        self.verify(mic)?;
        self.end()
    }
}
