//! The refusals of `decode` and `encode`.

ghost use Rattle.std.specs.Prelude.{◌≡◌};
ghost use Rattle.sspi_tokens.specs.Answers.{malformed, too_long};

use sspi_types::{Error, ErrorKind, Reason};

/// What `decode` answers if the bytes do not begin with a token.
pub(crate) fn malformed() -> Error
    ensures { result ≡ malformed }
{
    Error::new(ErrorKind::InvalidToken, Reason::TokenForm)
}

/// What `encode` answers if a length passes the limit.
pub(crate) fn too_long() -> Error
    ensures { result ≡ too_long }
{
    Error::new(ErrorKind::InternalError, Reason::TooLong)
}
