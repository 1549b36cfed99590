//! What one call of an end did with its security context.

ghost use Rattle.std.specs.Prelude.{◌≡◌};
ghost use Rattle.sspi_credssp.specs.Acts.{no_acts};

use sspi_types::SecurityStatus;

/// What the last call of an end did on its security context, even if the call was refused.
#[derive(Clone, Copy, Debug, PartialEq, Eq)]
pub struct Acts {
    /// The status that the context's step answered, resumes included; `None` if no step answered.
    pub status: Option<SecurityStatus>,
    /// The context took a step.
    pub negotiated: bool,
    /// The end sealed its proof of the channel's key.
    pub proved: bool,
    /// The peer's proof was unsealed, whether or not it is the right one.
    pub checked: bool,
    /// The client sealed its credentials.
    pub sealed: bool,
    /// The server unsealed the client's credentials.
    pub opened: bool,
}

impl Acts {
    pub(crate) fn none() -> Acts
        ensures { result ≡ no_acts }
    {
        Acts {
            status: None,
            negotiated: false,
            proved: false,
            checked: false,
            sealed: false,
            opened: false,
        }
    }
}
