//! The trait that decides whether a user may log on.

use sspi_names::AuthIdentity;

/// Why a policy made no decision.
#[derive(Clone, Copy, Debug, PartialEq, Eq)]
pub enum PolicyError {
    /// The decision could not be made.
    Failed,
    /// There was no memory for it.
    InsufficientMemory,
}

/// Which users may log on, by the names in the credentials that a client delegated.
///
/// Neither the password in them, nor that their name is the authenticated one, has been checked: a
/// client may delegate any credentials. Whoever lets a user in by them must log that user on with
/// them.
///
/// The count of faults never falls. A call that answers `Failed` has raised it, unless it was at
/// its maximum. A policy may expose the names of those who may log on: then it decides by them, and
/// no call changes them.
pub trait Policy: Drop {
    ghost use Rattle.sspi_early.specs.Policy.{PolicyMeaning, HasDecided};

    // What the policy exposes about itself, and what its calls may answer.
    ghost meaning: { PolicyMeaning Self };

    /// Whether the user of this identity may log on. Names are compared by form, account and
    /// domain, ignoring the case of ASCII letters.
    fn admits(&mut self, identity: &AuthIdentity) -> Result<bool, PolicyError>
        ensures { HasDecided meaning self.old identity.now result self.new };
}
