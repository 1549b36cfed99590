//! A table: clients join it, and are served in rounds until all have ended.

ghost use Rattle.std.specs.Prelude.{◌≡◌, ◌==◌, ◌<◌, [], length, IfErr, IfOk, OnErr, OnOk};
ghost use Rattle.sspi_credssp.specs.Context.{either};
ghost use Rattle.sspi_delegate.specs.Chain.{kdc_calls};
ghost use Rattle.sspi_seats.specs.Seat.{place};
ghost use Rattle.sspi_seats.specs.Table.{AreSeats, IsRefusedFor, with_place};

use crate::guest::lost;
use crate::seat::Seat;
use crate::sessions::{Joined, Sessions};
use sspi_credssp::{CredSspClient, CredSspServer, CredentialsProxy};
use sspi_mech::{Kdc, Mechanism};
use sspi_types::Rows;
use std::alloc::{AllocError, Global};
use std::marker::Model;

/// Why a client did not join a table.
#[derive(Clone, Copy, Debug, PartialEq, Eq)]
pub enum JoinError {
    /// As many clients have joined as are allowed.
    Full,
    /// There was no memory for one more client.
    InsufficientMemory,
}

impl From<AllocError> for JoinError {
    ghost use Rattle.std.specs.Prelude.{◌≡◌};
    ghost use Rattle.sspi_seats.specs.declared.table.JoinError.TheVariants.{InsufficientMemory};

    ghost from_gives = { λ _ error. error ≡ InsufficientMemory };

    fn from(_error: AllocError) -> JoinError {
        JoinError::InsufficientMemory
    }
}

/// Clients that will each have a session at one desk, the first with session 0. Before `finish`, no
/// client moves, and none of their servers is sent anything.
#[derive(Drop)]
pub struct Table<N, K, C, D> {
    alloc: Global,
    limit: u32,
    joined: Rows<Joined<N, K, C, D>>,
}

impl<N, K, C, D> Model for Table<N, K, C, D> {
    ghost use Rattle.std.specs.Prelude.{◌≤◌, length, map};
    ghost use Rattle.sspi_credssp.specs.declared.context.SspiContext.{SspiContext};
    ghost use Rattle.sspi_seats.specs.Table.{TableView, place_of};

    ghost Value = { TableView (SspiContext N K) C D };

    ghost view = { λ table. record { limit = table.limit; places = map place_of table.joined } };

    ghost invariant = { λ table. length table.joined ≤ table.limit };
}

impl<N, K, C, D> Table<N, K, C, D> {
    /// A table that at most `limit` clients may join, with none yet. Allocates nothing.
    pub fn new(alloc: Global, limit: u32) -> Table<N, K, C, D>
        ensures { result ≡ record { limit = limit; places = [] } }
    {
        Table {
            alloc,
            limit,
            joined: Rows::new(alloc),
        }
    }

    /// Whether as many clients have joined as are allowed.
    pub fn is_full(&self) -> bool
        ensures { result ≡ (length self.now.places == self.now.limit) }
    {
        self.joined.as_slice().len() == self.limit as usize
    }
}

impl<N: Mechanism, K: Mechanism, C: CredentialsProxy, D: Kdc + Drop> Table<N, K, C, D> {
    /// Seats a client with its KDC and its server, after those that joined before.
    ///
    /// Fails with `Full` exactly if the table is full (see `is_full`). A refusal changes nothing,
    /// and drops the client, the KDC and the server.
    pub fn join(
        &mut self,
        client: CredSspClient<N, K>,
        kdc: D,
        server: CredSspServer<N, K, C>,
    ) -> Result<(), JoinError>
        ensures joined { OnOk result (self.new ≡ with_place self.old (place client kdc server)) }
        ensures room { OnOk result (length self.old.places < self.old.limit) }
        ensures refused { IfErr result (λ error. IsRefusedFor error self.old) }
        ensures unchanged { OnErr result (self.new ≡ self.old) }
    {
        if self.is_full() {
            return lost(client, (kdc, server), JoinError::Full);
        }
        self.joined.push(Joined {
            client,
            kdc,
            server,
        })?;
        Ok(())
    }

    /// Admits the servers to a desk, and holds at most `limit` rounds, until no client runs. In
    /// each round, one after the other, every client that still runs makes a turn, and its session
    /// is served. Then the sessions are closed, and the seats are returned in the order in which
    /// their clients joined.
    ///
    /// Fails only when out of memory, be it in a turn, in a call on the desk or in a KDC. The
    /// clients, the KDCs and the servers are then dropped, whatever they did before.
    pub fn finish(self, limit: u32) -> Result<Rows<Seat<N, K, C, D>>, AllocError>
        ensures { let c = either N.REQUESTS N.meaning K.meaning in let k =
            kdc_calls D.told D.asked D.faults in
            IfOk result (AreSeats c C.meaning k self.places limit) }
    {
        let Table {
            alloc,
            limit: most,
            joined,
        } = self;
        let mut sessions = Sessions::open(alloc, most, joined.into_inner())?;
        sessions.serve(limit)?;
        sessions.leave()
    }
}
