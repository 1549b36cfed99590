//! Which answers of an end are refusals.

ghost use Rattle.sspi_live.specs.Steps.{AnswersTold, refusal_by};
ghost use Rattle.sspi_delegate.specs.Halves.{IsAnswerTo};

use sspi_credssp::End;
use sspi_delegate::DelegateError;
use sspi_types::{Error, ErrorKind};

/// The answer to a refusal of this end: out of memory is not a refusal.
pub(crate) fn refusal_of(end: End, error: Error) -> DelegateError
    ensures { IsAnswerTo error.error_type (refusal_by end error) result }
{
    if error.error_type == ErrorKind::InsufficientMemory {
        return DelegateError::InsufficientMemory;
    }
    match end {
        End::Client => DelegateError::Client(error),
        End::Server => DelegateError::Server(error),
    }
}

/// The answer of a server that refused, by the result of informing its client.
pub(crate) fn refusal_told(told: Result<(), DelegateError>, error: Error) -> DelegateError
    ensures { AnswersTold error told result }
{
    match told {
        Err(DelegateError::InsufficientMemory) => DelegateError::InsufficientMemory,
        Ok(()) | Err(_) => refusal_of(End::Server, error),
    }
}
