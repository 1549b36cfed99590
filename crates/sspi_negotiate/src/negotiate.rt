//! One end of a SPNEGO negotiation (RFC 4178, MS-SPNG).

ghost use Rattle.std.specs.Prelude.{◌≡◌, [], true, None, OnErr};
ghost use Rattle.sspi_mech.specs.Answered.{answered};
ghost use Rattle.sspi_negotiate.specs.Does.{Does, Stays, StaysPicked, StaysConfigured};
ghost use Rattle.sspi_negotiate.specs.Does.{told};
ghost use Rattle.sspi_negotiate.specs.Passes.{Passes};
ghost use Rattle.sspi_negotiate.specs.declared.protocol.Protocol.TheVariants as protocols;
ghost use Rattle.sspi_negotiate.specs.Hand.{hand_of, asks_left};
ghost use Rattle.sspi_negotiate.specs.Rows.{in_ntlm, writes, if_some, completes, carries_on};
ghost use Rattle.sspi_negotiate.specs.Plan.{Goes};
ghost use Rattle.sspi_negotiate.specs.Values.{values_of, is_waiting};
ghost use Rattle.sspi_tokens.specs.Spelling.{spelled_targ};
ghost use Rattle.sspi_negotiate.specs.declared.state.NegotiateState.TheVariants as states;
ghost use Rattle.sspi_types.specs.declared.security_status.SecurityStatus.TheVariants as statuses;

use crate::branch::Branch;
use crate::package_list::PackageListConfig;
use crate::protocol::{NegotiatedProtocol, Protocol};
use crate::rows::if_some;
use crate::spelled::spelled_targ;
use crate::state::{NegotiateState, Role};
use sspi_mech::{Mechanism, Refusal, Step};
use sspi_names::{AuthIdentity, CredentialsBuffers, KdcTable};
use sspi_tokens::{MechTypeList, NegResult, NegTokenTarg};
use sspi_types::{Bytes, SecurityStatus, Text};
use std::alloc::Global;
use std::marker::Model;

/// One end of a negotiation (RFC 4178, section 5; MS-SPNG), over any two mechanisms in the roles of
/// NTLM and Kerberos.
///
/// A client offers mechanisms, with a first token of the one it prefers. A server picks one, which
/// then authenticates inside the tokens of the negotiation. Where the pick could have been forged,
/// each end sends a MIC over the list that was offered. No end that needs the other's MIC ends
/// without it.
#[derive(Drop)]
pub struct Negotiate<N, K> {
    pub(crate) alloc: Global,
    pub(crate) role: Role,
    pub(crate) state: NegotiateState,
    pub(crate) protocol: NegotiatedProtocol<N, K>,
    pub(crate) packages: PackageListConfig,
    pub(crate) mech_types: MechTypeList,
    pub(crate) mic_needed: bool,
    pub(crate) auth_identity: Option<CredentialsBuffers>,
    pub(crate) known: Vec<AuthIdentity>,
    pub(crate) client_computer_name: Text,
    pub(crate) kdcs: KdcTable,
    pub(crate) branch: Branch,
}

impl<N, K> Model for Negotiate<N, K> {
    ghost use Rattle.sspi_negotiate.specs.declared.protocol.NegotiatedProtocol.{NegotiatedProtocol};
    ghost use Rattle.sspi_negotiate.specs.Values.{Negotiation};

    ghost Value = { Negotiation (NegotiatedProtocol N K) };

    ghost view = { λ a. record {
      role = a.role;
      state = a.state;
      packages = a.packages;
      list = a.mech_types;
      need = a.mic_needed;
      kept = a.auth_identity;
      known = a.known.items;
      computer = a.client_computer_name;
      kdcs = a.kdcs;
      branch = a.branch;
      mech = a.protocol;
    } };
}

impl<N, K> Negotiate<N, K> {
    /// Whether MICs over the mechanism list are needed, as far as is known; true in a new object.
    pub fn mic_needed(&self) -> bool
        ensures { result ≡ self.now.need }
    {
        self.mic_needed
    }

    /// The selected mechanism.
    pub fn negotiated_protocol(&self) -> &NegotiatedProtocol<N, K>
        ensures { result.now ≡ self.now.mech }
    {
        &self.protocol
    }

    /// Whether a client's step waits for a KDC.
    pub fn waiting(&self) -> bool
        ensures { result ≡ is_waiting self.now.branch }
    {
        self.branch.is_waiting()
    }
}

impl<N: Mechanism, K: Mechanism> Negotiate<N, K> {
    /// An upper bound on the number of requests to a KDC that can still follow.
    pub fn requests_left(&self) -> u64
        ensures { result ≡ asks_left N.REQUESTS N.meaning K.meaning self.now.mech }
    {
        self.protocol.requests_left()
    }

    /// Selects a new NTLM, if Kerberos is selected.
    pub(crate) fn take_ntlm(&mut self) -> Result<(), Refusal>
        // The step.
        ensures step { Passes N.meaning K.meaning
            (in_ntlm (hand_of self.old.mech) self.old.computer)
            (record (values_of self.old) { hand = protocols.Ntlm }) self.old (answered result)
            self.new }
        // What every answer keeps.
        ensures stays { self.old.packages.ntlm ≡ true →
            Stays (values_of self.old) (values_of self.new) }
        ensures configured { StaysConfigured (values_of self.old) (values_of self.new) }
        ensures need { self.new.need ≡ self.old.need }
        // What a refusal leaves.
        ensures err { OnErr result (self.new ≡ self.old) }
    {
        match self.protocol.protocol() {
            Protocol::Ntlm => Ok(()),
            Protocol::Kerberos => self.replace_kerberos(),
        }
    }

    fn replace_kerberos(&mut self) -> Result<(), Refusal>
        // The step.
        ensures step { Passes N.meaning K.meaning (in_ntlm protocols.Kerberos self.old.computer)
            (record (values_of self.old) { hand = protocols.Ntlm }) self.old (answered result)
            self.new }
        // What every answer keeps.
        ensures stays { self.old.packages.ntlm ≡ true →
            Stays (values_of self.old) (values_of self.new) }
        ensures configured { StaysConfigured (values_of self.old) (values_of self.new) }
        ensures need { self.new.need ≡ self.old.need }
        // What a refusal leaves.
        ensures err { OnErr result (self.new ≡ self.old) }
    {
        self.protocol = NegotiatedProtocol::new_ntlm(self.alloc, &self.client_computer_name)?;
        Ok(())
    }

    /// Ends a step with this token.
    pub(crate) fn write(
        &mut self,
        token: &NegTokenTarg,
        need: bool,
        state: NegotiateState,
        status: SecurityStatus,
    ) -> Result<Step, Refusal>
        // The step, and what a refused one leaves.
        ensures step { Does N.meaning K.meaning
            (writes token.now (values_of self.old)
            (record (values_of self.old) { need = need; state = state }) status)
            self.old (told (answered result)) self.new }
        ensures stays { OnErr result (Stays (values_of self.old) (values_of self.new)) }
        ensures need { OnErr result (self.new.need ≡ self.old.need) }
        ensures same { need ≡ self.old.need → self.new.need ≡ self.old.need }
        // What every answer keeps.
        ensures picked { StaysPicked (values_of self.old) (values_of self.new) }
    {
        let output = spelled_targ(self.alloc, token)?;
        self.mic_needed = need;
        self.state = state;
        Ok(Step { status, output })
    }

    /// Ends the negotiation without a MIC, and sets whether MICs are needed.
    #[tactic(auto, unfolding(crate::specs::Rows::completes))]
    pub(crate) fn complete(&mut self, token: Bytes, need: bool) -> Result<Step, Refusal>
        // The step, and what a refused one leaves.
        ensures step { Does N.meaning K.meaning (completes (values_of self.old) token need) self.old
            (told (answered result)) self.new }
        ensures stays { OnErr result (Stays (values_of self.old) (values_of self.new)) }
        ensures need { OnErr result (self.new.need ≡ self.old.need) }
        ensures same { need ≡ self.old.need → self.new.need ≡ self.old.need }
        // What every answer keeps.
        ensures picked { StaysPicked (values_of self.old) (values_of self.new) }
    {
        let token = NegTokenTarg {
            neg_result: Some(NegResult::AcceptComplete),
            supported_mech: None,
            response_token: if_some(token),
            mech_list_mic: None,
        };
        self.write(&token, need, NegotiateState::Ok, SecurityStatus::Ok)
    }

    /// Ends the negotiation with nothing more to send.
    pub(crate) fn end(&mut self) -> Result<Step, Refusal>
        // The step, and what a refused one leaves.
        ensures step { Does N.meaning K.meaning
            (Goes (record (values_of self.old) { state = states.Ok })
            (record { status = statuses.Ok; output = [] }))
            self.old (told (answered result)) self.new }
        ensures stays { OnErr result (Stays (values_of self.old) (values_of self.new)) }
        // What every answer keeps.
        ensures picked { StaysPicked (values_of self.old) (values_of self.new) }
        ensures need { self.new.need ≡ self.old.need }
    {
        self.state = NegotiateState::Ok;
        Ok(Step {
            status: SecurityStatus::Ok,
            output: Bytes::new(self.alloc),
        })
    }

    /// Continues the authentication with this status.
    #[tactic(auto, unfolding(crate::specs::Rows::carries_on))]
    pub(crate) fn carry_on(&mut self, token: Bytes, status: SecurityStatus) -> Result<Step, Refusal>
        // The step, and what a refused one leaves.
        ensures step { Does N.meaning K.meaning (carries_on (values_of self.old) token status)
            self.old (told (answered result)) self.new }
        ensures stays { OnErr result (Stays (values_of self.old) (values_of self.new)) }
        // What every answer keeps.
        ensures picked { StaysPicked (values_of self.old) (values_of self.new) }
        ensures need { self.new.need ≡ self.old.need }
    {
        let token = NegTokenTarg {
            neg_result: Some(NegResult::AcceptIncomplete),
            supported_mech: None,
            response_token: Some(token),
            mech_list_mic: None,
        };
        self.write(&token, self.mic_needed, self.state, status)
    }
}
