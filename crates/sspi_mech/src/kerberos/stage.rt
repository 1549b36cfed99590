//! How far a Kerberos context has come.

ghost use Rattle.std.specs.Prelude.{◌≡◌, option_copied};
ghost use Rattle.sspi_mech.specs.KerberosStage.{own_direction, peer_direction, name_at, waits_at};
ghost use Rattle.sspi_mech.specs.KerberosStage.{left_at, pairs_at};
ghost use Rattle.sspi_mech.specs.Advanced.{advanced};

use crate::kerberos::logon::ClientName;
use crate::protection::Direction;
use sspi_names::Username;

/// How far an object has come, and thereby which end it is.
#[derive(Drop)]
pub enum Stage {
    /// No step was made.
    Unused,
    /// A client that asked the KDC for its first key, and then asks the server for a ticket.
    PairingAsked,
    /// A client that asked the server for a ticket, with its first key.
    TicketAsked([u8; 32]),
    /// A client that asked the KDC for its first key, and then asks for the session key.
    LogonAsked(ClientName),
    /// A client that asked the KDC for the session key.
    SessionAsked(ClientName),
    /// A client that sent the session key.
    SessionSent(ClientName),
    /// A client whose server showed that it has the session key.
    Ended(ClientName),
    /// A server that sent its ticket.
    TicketSent,
    /// A server that took a client's session key.
    Accepted(Peer),
}

/// The client of a server.
#[derive(Drop)]
pub struct Peer {
    /// The name that it gave.
    pub name: Username,
    /// Whether it was sent the server's ticket before.
    pub user_to_user: bool,
}

impl Stage {
    /// The direction of the messages that this end makes.
    pub fn own_direction(&self) -> Direction
        ensures { result ≡ own_direction self.now }
    {
        match self {
            Stage::Accepted(_) => Direction::FromServer,
            _ => Direction::FromClient,
        }
    }

    /// The direction of the messages that this end takes.
    pub fn peer_direction(&self) -> Direction
        ensures { result ≡ peer_direction self.now }
    {
        match self {
            Stage::Accepted(_) => Direction::FromClient,
            _ => Direction::FromServer,
        }
    }

    /// The name of the client, once it was sent.
    pub fn name(&self) -> Option<&Username>
        ensures { option_copied result ≡ name_at self.now }
    {
        match self {
            Stage::SessionSent(name) | Stage::Ended(name) => Some(name.username()),
            Stage::Accepted(peer) => Some(&peer.name),
            Stage::Unused
            | Stage::PairingAsked
            | Stage::TicketAsked(_)
            | Stage::LogonAsked(_)
            | Stage::SessionAsked(_)
            | Stage::TicketSent => None,
        }
    }

    /// Whether a step waits for the KDC.
    pub fn waits(&self) -> bool
        ensures { result ≡ waits_at self.now }
    {
        matches!(
            self,
            Stage::PairingAsked | Stage::LogonAsked(_) | Stage::SessionAsked(_)
        )
    }

    /// How many requests to the KDC may still be made.
    pub fn requests_left(&self) -> u32
        ensures { result ≡ left_at self.now }
    {
        match self {
            Stage::Unused => 2,
            Stage::PairingAsked | Stage::TicketAsked(_) | Stage::LogonAsked(_) => 1,
            _ => 0,
        }
    }

    /// Whether it is a server that sent its ticket.
    pub fn user_to_user(&self) -> bool
        ensures { result ≡ pairs_at self.now }
    {
        match self {
            Stage::TicketSent => true,
            Stage::Accepted(peer) => peer.user_to_user,
            _ => false,
        }
    }

    /// Advances a client that has its name to its next stage; every other stage stays.
    pub fn advance(&mut self)
        ensures { self.new ≡ advanced self.old }
    {
        *self = match std::mem::replace(self, Stage::Unused) {
            Stage::LogonAsked(name) => Stage::SessionAsked(name),
            Stage::SessionAsked(name) => Stage::SessionSent(name),
            Stage::SessionSent(name) => Stage::Ended(name),
            other => other,
        };
    }
}
