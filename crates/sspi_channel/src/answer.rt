//! What an end over a channel answers.

ghost use Rattle.std.specs.Prelude.{◌≡◌};
ghost use Rattle.sspi_channel.specs.Statuses;

use sspi_ber::WireKind;
use sspi_delegate::{DelegateError, Delegation};
use sspi_program::status;
use sspi_tsreq::EarlyUserAuthResult;

/// The server of a scenario has the credentials of its peer.
#[derive(Drop)]
pub struct Served {
    pub delegation: Delegation,
    /// What it told its client after them, if its scenario admits anybody.
    pub told: Option<EarlyUserAuthResult>,
}

/// The client of a scenario sent its last message, which has its credentials.
#[derive(Clone, Copy, Debug, PartialEq, Eq)]
pub struct Connected {
    /// How many messages it sent.
    pub rounds: u32,
    /// What it heard after them, if its scenario admits anybody.
    pub heard: Option<EarlyUserAuthResult>,
}

/// Why an end of a scenario failed.
#[derive(Clone, Copy, Debug, PartialEq, Eq)]
pub enum ChannelError {
    /// The text is no scenario for this end. The number is that of its first faulty line, as in
    /// `ScenarioError`.
    Scenario(usize),
    /// The delegation ended for this reason, which is neither a failed channel nor out of memory.
    Delegate(DelegateError),
    /// What came after the delegation is no early result: `UnexpectedEof` if the source ended
    /// before its fourth octet, otherwise `InvalidData`.
    Early(WireKind),
    /// The source failed.
    ReadFault,
    /// The sink failed.
    WriteFault,
    InsufficientMemory,
}

/// The exit status of a server.
pub fn serve_status(answer: &Result<Served, ChannelError>) -> u8
    ensures { result ≡ Statuses.serve_status answer.now }
{
    match answer {
        Ok(served) => early_status(served.told),
        Err(error) => error_status(*error),
    }
}

/// The exit status of a client.
pub fn connect_status(answer: &Result<Connected, ChannelError>) -> u8
    ensures { result ≡ Statuses.connect_status answer.now }
{
    match answer {
        Ok(connected) => early_status(connected.heard),
        Err(error) => error_status(*error),
    }
}

fn early_status(early: Option<EarlyUserAuthResult>) -> u8
    ensures { result ≡ Statuses.early_status early }
{
    match early {
        None | Some(EarlyUserAuthResult::Success) => status::DONE,
        Some(EarlyUserAuthResult::AccessDenied) => status::REFUSED,
    }
}

/// The exit status of this error.
pub fn error_status(error: ChannelError) -> u8
    ensures { result ≡ Statuses.error_status error }
{
    match error {
        ChannelError::Scenario(_) => status::NO_SCENARIO,
        ChannelError::Delegate(_) | ChannelError::Early(_) => status::REFUSED,
        ChannelError::ReadFault => status::READ_FAULT,
        ChannelError::WriteFault => status::WRITE_FAULT,
        ChannelError::InsufficientMemory => status::NO_MEMORY,
    }
}
