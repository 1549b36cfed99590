//! Distinguishes a channel that failed in a write from one that failed in a read.

ghost use Rattle.std.specs.Prelude.{◌≡◌};
ghost use Rattle.sspi_channel.specs.Delegating;
ghost use Rattle.sspi_channel.specs.Sides;
ghost use Rattle.sspi_channel.specs.Delegating.{error_by};

use crate::answer::ChannelError;
use sspi_delegate::DelegateError;
use sspi_scenario::ScenarioError;

/// What an end over a channel answered, given whether a write failed.
pub(crate) fn by_fault<X>(
    answer: Result<X, DelegateError>,
    write_failed: bool,
) -> Result<X, ChannelError>
    ensures { result ≡ Delegating.by_fault answer write_failed }
{
    match answer {
        Ok(value) => Ok(value),
        Err(error) => Err(error_by(error, write_failed)),
    }
}

fn error_by(error: DelegateError, write_failed: bool) -> ChannelError
    ensures { result ≡ error_by error write_failed }
{
    match error {
        DelegateError::LinkFault => {
            if write_failed {
                ChannelError::WriteFault
            } else {
                ChannelError::ReadFault
            }
        }
        DelegateError::InsufficientMemory => ChannelError::InsufficientMemory,
        _ => ChannelError::Delegate(error),
    }
}

/// Why a text gave no scenario.
pub(crate) fn text_error(error: ScenarioError) -> ChannelError
    ensures { result ≡ Sides.text_error error }
{
    match error {
        ScenarioError::Line(line) => ChannelError::Scenario(line),
        ScenarioError::InsufficientMemory => ChannelError::InsufficientMemory,
    }
}

/// A value, after what it was made with is dropped. Generic, since dropping a value of a type
/// parameter is one step.
pub(crate) fn without<G: Drop, X>(_gone: G, value: X) -> X
    ensures { result ≡ value }
{
    value
}
