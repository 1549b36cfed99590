//! The answer to queries that a package does not have.

ghost use Rattle.std.specs.Prelude.{◌≡◌};
ghost use Rattle.sspi_messages.specs.Unsupported.{unsupported};

use sspi_types::{Error, ErrorKind, Reason};

/// The answer to a query that a package does not have: `UnsupportedFunction`.
pub fn unsupported() -> Error
    ensures { result ≡ unsupported }
{
    Error::new(ErrorKind::UnsupportedFunction, Reason::Unsupported)
}
