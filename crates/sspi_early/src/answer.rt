//! The answer of a delegation with an early user authorization result.

use sspi_ber::WireKind;
use sspi_delegate::{DelegateError, Delegation};
use sspi_tsreq::EarlyUserAuthResult;

/// A delegation, and what the server told its client after it.
#[derive(Drop)]
pub struct Early {
    /// The result of the delegation.
    pub delegation: Delegation,
    /// What the server told, as its policy decided.
    pub told: EarlyUserAuthResult,
    /// What the client heard.
    pub heard: EarlyUserAuthResult,
}

/// What a server told after a delegation, and what its client heard.
#[derive(Clone, Copy, Debug, PartialEq, Eq)]
pub struct Authorized {
    /// What the server told, as its policy decided.
    pub told: EarlyUserAuthResult,
    /// What the client heard.
    pub heard: EarlyUserAuthResult,
}

/// Why a client did not hear whether its user may log on.
#[derive(Clone, Copy, Debug, PartialEq, Eq)]
pub enum EarlyError {
    /// The delegation failed.
    Delegate(DelegateError),
    /// The policy failed.
    Policy,
    /// The link failed, to carry the result or to deliver it.
    LinkFault,
    /// What was delivered is not a result: `UnexpectedEof` if it ends before its fourth byte, else
    /// `InvalidData`.
    Read(WireKind),
    /// There was no memory, be it for the delegation, the policy or the link.
    InsufficientMemory,
}
