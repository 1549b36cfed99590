//! What an exchange answers: the delegation, or why there is none.

use sspi_ber::WireKind;
use sspi_credssp::End;
use sspi_names::AuthIdentity;
use sspi_types::Error;
use std::alloc::AllocError;
use std::fmt;

/// The result of an exchange: the credentials that the server opened.
#[derive(Drop)]
pub struct Delegation {
    /// The identity that the server opened.
    pub credentials: AuthIdentity,
    /// The number of the client's turns.
    pub rounds: u32,
}

/// Why an exchange did not complete.
#[derive(Clone, Copy, Debug, PartialEq, Eq)]
pub enum DelegateError {
    /// The client refused its last turn.
    Client(Error),
    /// The server refused its last turn.
    Server(Error),
    /// What was delivered to this end is not a request.
    Read(End, WireKind),
    /// The content of this end's reply is longer than `sspi_ber::MAX_CONTENT`, 1048576 octets.
    Write(End),
    /// A call on the link failed.
    LinkFault,
    /// The client has made all the turns that it may make, and each was answered.
    TurnsSpent,
    /// Memory ran out, also in an end's own turn or in the KDC.
    InsufficientMemory,
}

impl fmt::Display for DelegateError {
    fn fmt<W: fmt::Write>(&self, f: &mut fmt::Formatter<W>) -> fmt::Result {
        match self {
            DelegateError::Client(error) => write!(f, "the client refused: {error}"),
            DelegateError::Server(error) => write!(f, "the server refused: {error}"),
            DelegateError::Read(End::Client, kind) => {
                write!(f, "what came to the client is no request: {kind:?}")
            }
            DelegateError::Read(End::Server, kind) => {
                write!(f, "what came to the server is no request: {kind:?}")
            }
            DelegateError::Write(End::Client) => write!(f, "the client's reply is too long"),
            DelegateError::Write(End::Server) => write!(f, "the server's reply is too long"),
            DelegateError::LinkFault => write!(f, "the link failed"),
            DelegateError::TurnsSpent => write!(f, "the client may make no more turns"),
            DelegateError::InsufficientMemory => write!(f, "out of memory"),
        }
    }
}

impl std::error::Error for DelegateError {}

impl From<AllocError> for DelegateError {
    ghost use Rattle.std.specs.Prelude.{◌≡◌};
    ghost use Rattle.sspi_delegate.specs.declared.answer.DelegateError.TheVariants.{InsufficientMemory};

    ghost from_gives = { λ _ error. error ≡ InsufficientMemory };

    fn from(_error: AllocError) -> DelegateError {
        DelegateError::InsufficientMemory
    }
}
