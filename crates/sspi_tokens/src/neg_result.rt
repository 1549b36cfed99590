//! The state of a negotiation in a token (negState, RFC 4178 4.2.2).

ghost use Rattle.std.specs.Prelude.{◌≡◌};
ghost use Rattle.sspi_tokens.specs.Grammar.{result_of};
ghost use Rattle.sspi_tokens.specs.Spelling.{result_code};

/// What a token says about the negotiation (negState, RFC 4178, section 4.2.2).
#[derive(Clone, Copy, Debug, PartialEq, Eq)]
pub enum NegResult {
    /// The sender is satisfied, and expects no further token: content 0.
    AcceptComplete,
    /// A further token is needed: content 1.
    AcceptIncomplete,
    /// Any other content of the ENUMERATED; it is written as `reject` (2).
    Other,
}

impl NegResult {
    pub(crate) fn from_content(content: &[u8]) -> NegResult
        ensures { result ≡ result_of content.now }
    {
        match content {
            [0] => NegResult::AcceptComplete,
            [1] => NegResult::AcceptIncomplete,
            _ => NegResult::Other,
        }
    }

    pub(crate) fn code(self) -> u8
        ensures { result ≡ result_code self }
    {
        match self {
            NegResult::AcceptComplete => 0,
            NegResult::AcceptIncomplete => 1,
            NegResult::Other => 2,
        }
    }
}
