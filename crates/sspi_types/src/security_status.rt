//! The outcome of a successful step of a security context.

ghost use Rattle.std.specs.Prelude.{◌≡◌};
ghost use Rattle.sspi_types.specs.SecurityStatuses.{security_status_number};
ghost use Rattle.sspi_types.specs.Numbers.{ReadsNumber};

/// The outcome of a successful step of a security context: the SECURITY_STATUS codes of winerror.h
/// that are not errors.
#[derive(Clone, Copy, Debug, PartialEq, Eq)]
pub enum SecurityStatus {
    /// The step was the last one (SEC_E_OK).
    Ok = 0x00000,
    /// The token must go to the peer, and its answer into another step (SEC_I_CONTINUE_NEEDED).
    ContinueNeeded = 0x90312,
    /// The token must be completed before it is sent (SEC_I_COMPLETE_NEEDED).
    CompleteNeeded = 0x90313,
    /// Both of these (SEC_I_COMPLETE_AND_CONTINUE).
    CompleteAndContinue = 0x90314,
    /// No server was available, so the logon was local (SEC_I_LOCAL_LOGON).
    LocalLogon = 0x90315,
    /// The peer ended the connection (SEC_I_CONTEXT_EXPIRED).
    ContextExpired = 0x90317,
    /// The peer asks for credentials that were not given (SEC_I_INCOMPLETE_CREDENTIALS).
    IncompleteCredentials = 0x90320,
    /// The peer asks for a new handshake (SEC_I_RENEGOTIATE).
    Renegotiate = 0x90321,
    /// The context is not known to the local authority (SEC_I_NO_LSA_CONTEXT).
    NoLsaContext = 0x90323,
}

impl SecurityStatus {
    /// The value with this number, or `None` if the table has no such number.
    #[tactic(auto, using(crate::proofs::Numbers::same_security_status))]
    pub fn from_u32(number: u32) -> Option<Self>
        ensures { ReadsNumber security_status_number number result }
    {
        Some(match number {
            0x00000 => SecurityStatus::Ok,
            0x90312 => SecurityStatus::ContinueNeeded,
            0x90313 => SecurityStatus::CompleteNeeded,
            0x90314 => SecurityStatus::CompleteAndContinue,
            0x90315 => SecurityStatus::LocalLogon,
            0x90317 => SecurityStatus::ContextExpired,
            0x90320 => SecurityStatus::IncompleteCredentials,
            0x90321 => SecurityStatus::Renegotiate,
            0x90323 => SecurityStatus::NoLsaContext,
            _ => return None,
        })
    }

    /// The number of this value.
    pub fn to_u32(self) -> u32
        ensures { result ≡ security_status_number self }
    {
        self as u32
    }
}
