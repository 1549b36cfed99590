//! What a host does before each step of a negotiation over its mechanisms (RFC 4178, MS-SPNG).
ghost use Rattle.std.specs.Prelude.{◌≡◌, OnOk, OnErr, option_map};
ghost use Rattle.sspi_negotiate.specs.Client.{is_ok};
ghost use Rattle.sspi_negotiate.specs.Rows.{or_empty};
ghost use Rattle.sspi_tokens.specs.declared.oid.MechKind.TheVariants as kinds;
ghost use Rattle.sspi_outside.specs.Course.{first_hand, next, taken};

use crate::picking::{offered, pick};
use sspi_negotiate::package_list::PackageListConfig;
use sspi_negotiate::pick::{Choice, Picked};
use sspi_negotiate::protocol::Protocol;
use sspi_negotiate::state::NegotiateState;
use sspi_tokens::{MechKind, MechTypeList, NegTokenInit, NegTokenTarg};
use sspi_types::{Bytes, SecurityStatus};
use std::alloc::{AllocError, Global};

/// A step that the host's context of a mechanism makes before the end is called.
#[derive(Clone, Copy)]
pub struct Due<'a> {
    /// Which of the host's contexts steps.
    pub mechanism: Protocol,
    /// The token that it steps with, which is the mechanism's own.
    pub token: &'a [u8],
}

/// What the host of an end knows about its negotiation.
///
/// The host keeps one next to the end, and asks it before each call which of its contexts steps.
/// The context of `hand` verifies a received MIC, and signs one that is made, over `list`. After a
/// refused call none of this is valid, and no further call is made.
#[derive(Drop)]
pub struct Course {
    /// The state of the negotiation.
    pub state: NegotiateState,
    /// The selected mechanism.
    pub hand: Protocol,
    /// The mechanisms that may be used.
    pub packages: PackageListConfig,
    /// The mechanisms that the client offered; empty before that.
    pub list: MechTypeList,
    /// Whether a client's target is named by its IP address, for which Kerberos has no name.
    pub by_address: bool,
}

fn first_hand(packages: PackageListConfig) -> Protocol
    ensures { result ≡ first_hand packages }
{
    if packages.kerberos {
        Protocol::Kerberos
    } else {
        Protocol::Ntlm
    }
}

fn bytes_of(token: &Option<Bytes>) -> &[u8]
    ensures { result.now ≡ or_empty token.now }
{
    match token {
        None => &[],
        Some(token) => token.as_slice(),
    }
}

fn is_ok(status: SecurityStatus) -> bool
    ensures { result ≡ is_ok status }
{
    matches!(status, SecurityStatus::Ok)
}

fn next(ended: bool, status: SecurityStatus) -> NegotiateState
    ensures { result ≡ next ended status }
{
    if is_ok(status) {
        NegotiateState::Ok
    } else if ended {
        NegotiateState::VerifyMic
    } else {
        NegotiateState::InProgress
    }
}

fn taken(choice: Choice, held: Protocol) -> Protocol
    ensures { result ≡ taken choice held }
{
    match choice {
        Choice::MsKerberos => held,
        Choice::Kerberos => held,
        Choice::Ntlm => Protocol::Ntlm,
    }
}

impl Course {
    ghost use Rattle.std.specs.Prelude.{Some};
    ghost use Rattle.sspi_negotiate.specs.Pick.{pick};
    ghost use Rattle.sspi_outside.specs.Course.{OfChoice, addressed, chooses, continuation_due};
    ghost use Rattle.sspi_outside.specs.Course.{go_on, make_offer, new_course, offer_due};
    ghost use Rattle.sspi_outside.specs.Course.{picks, take_choice, take_offer};

    /// The course of an end that has made no step. It begins with Kerberos if that may be used.
    pub fn new(alloc: Global, packages: PackageListConfig, by_address: bool) -> Course
        ensures { result ≡ new_course packages by_address }
    {
        Course {
            state: NegotiateState::Initial,
            hand: first_hand(packages),
            packages,
            list: MechTypeList::from_vec(Vec::new(alloc)),
            by_address,
        }
    }

    fn picked(&self, list: &MechTypeList) -> Option<Picked>
        ensures { result ≡ pick list.now self.now.packages self.now.hand }
    {
        pick(list.as_slice(), self.packages, self.hand)
    }

    /// Before a server's first call, with the client's offer: the mechanism that the server picks
    /// steps with the offer's token. None steps if it is not the client's first choice, if the
    /// offer has no token, or if nothing is picked.
    pub fn offer_due<'a>(&self, offer: &'a NegTokenInit) -> Option<Due<'a>>
        ensures { option_map (λ d. record { mechanism = d.mechanism; token = d.token.now })
            result ≡ offer_due self.now offer.now }
    {
        let list = offer.mech_types.as_ref()?;
        let picked = self.picked(list)?;
        let token = offer.mech_token.as_ref()?;
        if picked.index == 0 {
            Some(Due {
                mechanism: taken(picked.choice, self.hand),
                token: token.as_slice(),
            })
        } else {
            None
        }
    }

    /// Keeps the offer's list and selects the server's pick; without a pick nothing changes.
    pub fn take_offer(&mut self, alloc: Global, offer: &NegTokenInit) -> Result<(), AllocError>
        ensures ok { OnOk result (self.new ≡ take_offer offer.now self.old) }
        ensures err { OnErr result (self.new ≡ self.old) }
    {
        match &offer.mech_types {
            None => Ok(()),
            Some(list) => self.take_list(alloc, list),
        }
    }

    fn take_list(&mut self, alloc: Global, list: &MechTypeList) -> Result<(), AllocError>
        ensures ok { OnOk result (self.new ≡ picks (pick list.now self.old.packages self.old.hand)
            list.now self.old) }
        ensures err { OnErr result (self.new ≡ self.old) }
    {
        match self.picked(list) {
            None => Ok(()),
            Some(picked) => {
                self.list = list.clone(alloc)?;
                self.hand = taken(picked.choice, self.hand);
                Ok(())
            }
        }
    }

    /// Before a client's first call, in which `hand` then steps without a token: a target that is
    /// named by its IP address selects NTLM, if that may be used.
    pub fn address(&mut self)
        ensures { self.new ≡ addressed self.old }
    {
        if self.by_address && self.packages.ntlm {
            self.hand = Protocol::Ntlm;
            self.packages.kerberos = false;
        }
    }

    /// After a client's first call: its list is what it may use.
    pub fn make_offer(&mut self, alloc: Global) -> Result<(), AllocError>
        ensures ok { OnOk result (self.new ≡ make_offer self.old) }
        ensures err { OnErr result (self.new ≡ self.old) }
    {
        self.list = offered(alloc, self.hand, self.packages)?;
        self.state = NegotiateState::InProgress;
        Ok(())
    }

    /// Before a client's later call, with the server's token: selects the choice in it, and answers
    /// whether that may be used. The negotiation refuses any other.
    pub fn take_choice(&mut self, token: &NegTokenTarg) -> bool
        ensures { OfChoice (take_choice token.now.supported_mech self.old) result self.new }
    {
        self.address();
        match &token.supported_mech {
            None => true,
            Some(mech) => self.choose(mech.kind()),
        }
    }

    fn choose(&mut self, kind: MechKind) -> bool
        ensures { OfChoice (chooses (Some kind) self.old) result self.new }
    {
        match kind {
            MechKind::MsKerberos => self.choose_kerberos(),
            MechKind::Kerberos => self.choose_kerberos(),
            MechKind::Ntlm => self.choose_ntlm(),
            MechKind::Other => false,
        }
    }

    fn choose_kerberos(&mut self) -> bool
        ensures { OfChoice (chooses (Some kinds.Kerberos) self.old) result self.new }
    {
        if !self.packages.kerberos {
            return false;
        }
        self.hand = Protocol::Kerberos;
        self.packages.ntlm = false;
        true
    }

    fn choose_ntlm(&mut self) -> bool
        ensures { OfChoice (chooses (Some kinds.Ntlm) self.old) result self.new }
    {
        if !self.packages.ntlm {
            return false;
        }
        self.hand = Protocol::Ntlm;
        self.packages.kerberos = false;
        true
    }

    /// Before a later call of an end, for a client after `take_choice`: while it authenticates, the
    /// selected mechanism steps with the received token, or with none.
    pub fn continuation_due<'a>(&self, token: &'a NegTokenTarg) -> Option<Due<'a>>
        ensures { option_map (λ d. record { mechanism = d.mechanism; token = d.token.now })
            result ≡ continuation_due self.now token.now }
    {
        match self.state {
            NegotiateState::InProgress => Some(Due {
                mechanism: self.hand,
                token: bytes_of(&token.response_token),
            }),
            NegotiateState::Initial => None,
            NegotiateState::VerifyMic => None,
            NegotiateState::Ok => None,
        }
    }

    /// After every call but a client's first: `ended` is whether the context of `hand` has ended,
    /// and `status` what the negotiation answered.
    pub fn go_on(&mut self, ended: bool, status: SecurityStatus)
        ensures { self.new ≡ go_on ended status self.old }
    {
        self.state = next(ended, status);
    }
}
