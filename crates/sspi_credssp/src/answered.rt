//! Turns a refusal into an error, only where a caller gets the result.

ghost use Rattle.std.specs.Prelude.{◌≡◌};
ghost use Rattle.sspi_mech.specs.Answered.{answered};

use sspi_mech::Refusal;
use sspi_types::Error;

pub fn answered<T: Drop>(answer: Result<T, Refusal>) -> Result<T, Error>
    ensures { result ≡ answered answer }
{
    Ok(answer?)
}
