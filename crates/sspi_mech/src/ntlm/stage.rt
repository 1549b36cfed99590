//! How far an NTLM context has come.

ghost use Rattle.std.specs.Prelude.{◌≡◌};
ghost use Rattle.sspi_mech.specs.NtlmStage.{own_direction, peer_direction};

use crate::protection::Direction;
use sspi_names::Username;
use sspi_types::Bytes;

/// How far an object has come, and thereby which end it is.
#[derive(Drop)]
pub enum Stage {
    /// No step was made.
    Unused,
    /// A client that sent its first message.
    NegotiateSent,
    /// A client that sent its proof, under this name.
    AuthenticateSent(Username),
    /// A server that sent its challenge.
    ChallengeSent,
    /// A server that has a client's name and proof.
    Claimed(Claim),
}

/// Who a client says it is, and what proves it.
#[derive(Drop)]
pub struct Claim {
    /// The name that the client gave.
    pub name: Username,
    /// The bytes of the name, as they were in the message.
    pub text: Bytes,
    /// What only someone who knows the password can make from the name and the challenge.
    pub proof: [u8; 32],
}

impl Stage {
    /// The direction of the messages that this end makes.
    pub fn own_direction(&self) -> Direction
        ensures { result ≡ own_direction self.now }
    {
        match self {
            Stage::Claimed(_) => Direction::FromServer,
            _ => Direction::FromClient,
        }
    }

    /// The direction of the messages that this end takes.
    pub fn peer_direction(&self) -> Direction
        ensures { result ≡ peer_direction self.now }
    {
        match self {
            Stage::Claimed(_) => Direction::FromClient,
            _ => Direction::FromServer,
        }
    }
}
