//! How far a negotiation has come, and which end of it this is.

/// How far a negotiation has come.
#[derive(Clone, Copy, Debug, PartialEq, Eq)]
pub enum NegotiateState {
    /// No token has been made or taken.
    Initial,
    /// The selected mechanism authenticates.
    InProgress,
    /// The authentication is over; a MIC over the mechanism list is still expected.
    VerifyMic,
    /// The negotiation is over.
    Ok,
}

/// Which end this is.
#[derive(Clone, Copy, Debug, PartialEq, Eq)]
pub(crate) enum Role {
    Client,
    Server,
}
