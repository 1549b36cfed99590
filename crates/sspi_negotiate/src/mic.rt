//! Makes and verifies MICs over the mechanism list (RFC 4178, section 5).

ghost use Rattle.std.specs.Prelude.{◌≡◌, ◌≢◌, false, None, Some, IfOk, IfErr, OnOk, OnErr, map};
ghost use Rattle.std.specs.List.{list_any};
ghost use Rattle.sspi_mech.specs.Calls.{one_signing, one_verification, ToSign, ToVerify};
ghost use Rattle.sspi_mech.specs.Answered.{answered};
ghost use Rattle.sspi_negotiate.specs.Hand.{hand, hand_of};
ghost use Rattle.sspi_names.specs.declared.credentials.Credentials.TheVariants as credentials;
ghost use Rattle.sspi_negotiate.specs.Does.{Does, Stays, StaysPicked, told};
ghost use Rattle.sspi_negotiate.specs.Passes.{Passes};
ghost use Rattle.sspi_negotiate.specs.Rows.{identifies_among, identifies, verifies, checks};
ghost use Rattle.sspi_negotiate.specs.Rows.{writes, targ, if_some, answers_signed};
ghost use Rattle.sspi_negotiate.specs.Rows.{completes_signed, hands_mic};
ghost use Rattle.sspi_negotiate.specs.Known.{is_named, named};
ghost use Rattle.sspi_negotiate.specs.Plan.{Identifies, Verifies, Signs};
ghost use Rattle.sspi_negotiate.specs.Values.{values_of};

use crate::known::{is_known, named};
use crate::negotiate::Negotiate;
use crate::protocol::NegotiatedProtocol;
use crate::rows::if_some;
use crate::spelled::spelled_list;
use crate::state::NegotiateState;
use sspi_mech::{Mechanism, Refusal, Step};
use sspi_names::{Credentials, Username};
use sspi_tokens::{NegResult, NegTokenTarg};
use sspi_types::{Bytes, ErrorKind, Reason, SecurityStatus};

fn sign_with<N: Mechanism, K: Mechanism>(
    protocol: &mut NegotiatedProtocol<N, K>,
    text: &Bytes,
) -> Result<Bytes, Refusal>
    // What `Ok` holds, and that the mechanism is the same.
    ensures mic { let c = hand N.meaning K.meaning in
        IfOk result (λ mic. c.signs protocol.new (c.counts protocol.old).signings text.now mic) }
    ensures ok { let c = hand N.meaning K.meaning in
        OnOk result (protocol.new ≡ c.counted protocol.old (one_signing (c.counts protocol.old))) }
    ensures count { let c = hand N.meaning K.meaning in OnOk result
        (c.counts protocol.new ≡ one_signing (c.counts protocol.old)) }
    ensures named { hand_of protocol.new ≡ hand_of protocol.old }
    ensures permitted { OnOk result ((hand N.meaning K.meaning).permits protocol.old
        (ToSign text.now)) }
    // What a refusal says, and what it leaves.
    ensures err { OnErr result (protocol.new ≡ protocol.old) }
    ensures cause { IfErr result (λ error. error.error_type ≢ ErrorKind.InsufficientMemory →
        (hand N.meaning K.meaning).refuses protocol.old (ToSign text.now) error.error_type) }
{
    let mic = protocol.generate_mic_token(text.as_slice())?;
    Ok(Bytes::from_vec(mic))
}

/// A refusal has the mechanism's kind, and is never reported as out of memory instead.
fn verify_with<N: Mechanism, K: Mechanism>(
    protocol: &mut NegotiatedProtocol<N, K>,
    mic: &Bytes,
    text: &Bytes,
) -> Result<(), Refusal>
    // What `Ok` holds, and that the mechanism is the same.
    ensures mic { let c = hand N.meaning K.meaning in
        OnOk result (c.verifies protocol.new
        (c.counts protocol.old).verifications mic.now text.now) }
    ensures ok { let c = hand N.meaning K.meaning in
        OnOk result (protocol.new ≡ c.counted protocol.old
        (one_verification (c.counts protocol.old))) }
    ensures count { let c = hand N.meaning K.meaning in OnOk result
        (c.counts protocol.new ≡ one_verification (c.counts protocol.old)) }
    ensures named { hand_of protocol.new ≡ hand_of protocol.old }
    ensures permitted { OnOk result
        ((hand N.meaning K.meaning).permits protocol.old (ToVerify mic.now text.now)) }
    // What a refusal says, and what it leaves.
    ensures err { OnErr result (protocol.new ≡ protocol.old) }
    ensures exact { IfErr result (λ error.
        (hand N.meaning K.meaning).refuses protocol.old
        (ToVerify mic.now text.now) error.error_type) }
{
    Ok(protocol.verify_mic_token(mic.as_slice(), text.as_slice())?)
}

impl<N: Mechanism, K: Mechanism> Negotiate<N, K> {
    /// Verifies the client's MIC; the server must first know the client's identity.
    pub(crate) fn check(&mut self, mic: &Bytes) -> Result<(), Refusal>
        // The step.
        ensures step { Passes N.meaning K.meaning (checks mic.now (values_of self.old))
            (values_of self.old) self.old
            (answered result) self.new }
        // What every answer keeps.
        ensures stays { Stays (values_of self.old) (values_of self.new) }
        ensures picked { StaysPicked (values_of self.old) (values_of self.new) }
        ensures need { self.new.need ≡ self.old.need }
    {
        self.identify()?;
        self.verify(mic)
    }

    fn identify(&mut self) -> Result<(), Refusal>
        // The step.
        ensures step { Passes N.meaning K.meaning (identifies (values_of self.old))
            (values_of self.old) self.old
            (answered result) self.new }
        // What every answer keeps.
        ensures stays { Stays (values_of self.old) (values_of self.new) }
        ensures picked { StaysPicked (values_of self.old) (values_of self.new) }
        ensures need { self.new.need ≡ self.old.need }
    {
        let name = self.protocol.names()?;
        self.identify_as(&name)
    }

    fn identify_as(&mut self, name: &Username) -> Result<(), Refusal>
        // The step.
        ensures step { Passes N.meaning K.meaning
            (λ rest. identifies_among (map credentials.AuthIdentity (named name.now self.old.known))
            (values_of self.old) rest)
            (values_of self.old) self.old (answered result) self.new }
        ensures exact { list_any (is_named name.now) self.old.known ≡ false →
            IfErr result (λ error. error.error_type ≡ ErrorKind.NoCredentials) }
        // What every answer keeps.
        ensures stays { Stays (values_of self.old) (values_of self.new) }
        ensures picked { StaysPicked (values_of self.old) (values_of self.new) }
        ensures need { self.new.need ≡ self.old.need }
    {
        if is_known(name, &self.known) {
            let found = named(self.alloc, name, &self.known)?;
            self.identify_by(found)
        } else {
            Err(Refusal::new(ErrorKind::NoCredentials, Reason::NoIdentity))
        }
    }

    fn identify_by(&mut self, found: Vec<Credentials>) -> Result<(), Refusal>
        // The step.
        ensures step { Passes N.meaning K.meaning (Identifies found.items (values_of self.old))
            (values_of self.old) self.old (answered result) self.new }
        // What every answer keeps.
        ensures stays { Stays (values_of self.old) (values_of self.new) }
        ensures picked { StaysPicked (values_of self.old) (values_of self.new) }
        ensures need { self.new.need ≡ self.old.need }
    {
        self.protocol.set_identities(found)
    }

    /// Verifies the peer's MIC, which must be over the list as it is kept.
    pub(crate) fn verify(&mut self, mic: &Bytes) -> Result<(), Refusal>
        // The step.
        ensures step { Passes N.meaning K.meaning (verifies mic.now (values_of self.old))
            (values_of self.old) self.old
            (answered result) self.new }
        // What every answer keeps.
        ensures stays { Stays (values_of self.old) (values_of self.new) }
        ensures picked { StaysPicked (values_of self.old) (values_of self.new) }
        ensures need { self.new.need ≡ self.old.need }
    {
        let text = spelled_list(self.alloc, &self.mech_types)?;
        self.verify_over(mic, &text)
    }

    fn verify_over(&mut self, mic: &Bytes, text: &Bytes) -> Result<(), Refusal>
        // The step.
        ensures step { Passes N.meaning K.meaning (Verifies mic.now text.now (values_of self.old))
            (values_of self.old) self.old (answered result) self.new }
        ensures exact { IfErr result (λ error.
            (hand N.meaning K.meaning).refuses self.old.mech
            (ToVerify mic.now text.now) error.error_type) }
        // What every answer keeps.
        ensures stays { Stays (values_of self.old) (values_of self.new) }
        ensures picked { StaysPicked (values_of self.old) (values_of self.new) }
        ensures need { self.new.need ≡ self.old.need }
    {
        verify_with(&mut self.protocol, mic, text)
    }

    /// Ends a step with a token that has this end's MIC over the list.
    #[tactic(auto, unfolding(crate::specs::Rows::answers_signed))]
    pub(crate) fn answer_signed(
        &mut self,
        result_field: NegResult,
        state: NegotiateState,
        status: SecurityStatus,
        token: Bytes,
    ) -> Result<Step, Refusal>
        // The step, and what a refused one leaves.
        ensures step { Does N.meaning K.meaning
            (answers_signed result_field state status (values_of self.old) token) self.old
            (told (answered result)) self.new }
        ensures stays { OnErr result (Stays (values_of self.old) (values_of self.new)) }
        // What every answer keeps.
        ensures picked { StaysPicked (values_of self.old) (values_of self.new) }
        ensures need { self.new.need ≡ self.old.need }
    {
        let text = spelled_list(self.alloc, &self.mech_types)?;
        self.answer_over(result_field, state, status, token, &text)
    }

    fn answer_over(
        &mut self,
        result_field: NegResult,
        state: NegotiateState,
        status: SecurityStatus,
        token: Bytes,
        text: &Bytes,
    ) -> Result<Step, Refusal>
        // The step, and what a refused one leaves.
        ensures step { let v = values_of self.old in Does N.meaning K.meaning
            (Signs text.now v (λ mic. writes (targ result_field None (if_some token) (Some mic)) v
            (record v { state = state }) status))
            self.old (told (answered result)) self.new }
        ensures stays { OnErr result (Stays (values_of self.old) (values_of self.new)) }
        // What every answer keeps.
        ensures picked { StaysPicked (values_of self.old) (values_of self.new) }
        ensures need { self.new.need ≡ self.old.need }
    {
        let mic = sign_with(&mut self.protocol, text)?;
        let token = NegTokenTarg {
            neg_result: Some(result_field),
            supported_mech: None,
            response_token: if_some(token),
            mech_list_mic: Some(mic),
        };
        self.write(&token, self.mic_needed, state, status)
    }

    /// Ends the negotiation with this end's MIC, once the peer's was verified.
    pub(crate) fn complete_signed(&mut self, token: Bytes) -> Result<Step, Refusal>
        // The step, and what a refused one leaves.
        ensures step { Does N.meaning K.meaning (completes_signed (values_of self.old) token)
            self.old (told (answered result)) self.new }
        ensures stays { OnErr result (Stays (values_of self.old) (values_of self.new)) }
        // What every answer keeps.
        ensures picked { StaysPicked (values_of self.old) (values_of self.new) }
        ensures need { self.new.need ≡ self.old.need }
    {
        self.answer_signed(
            NegResult::AcceptComplete,
            NegotiateState::Ok,
            SecurityStatus::Ok,
            token,
        )
    }

    /// Sends this end's MIC first; the peer's is still expected.
    pub(crate) fn hand_mic(&mut self, token: Bytes) -> Result<Step, Refusal>
        // The step, and what a refused one leaves.
        ensures step { Does N.meaning K.meaning (hands_mic (values_of self.old) token) self.old
            (told (answered result)) self.new }
        ensures stays { OnErr result (Stays (values_of self.old) (values_of self.new)) }
        // What every answer keeps.
        ensures picked { StaysPicked (values_of self.old) (values_of self.new) }
        ensures need { self.new.need ≡ self.old.need }
    {
        self.answer_signed(
            NegResult::AcceptIncomplete,
            NegotiateState::VerifyMic,
            SecurityStatus::ContinueNeeded,
            token,
        )
    }
}
