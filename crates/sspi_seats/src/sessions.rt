//! Clients that each have a session at one desk.

ghost use Rattle.std.specs.Prelude.{◌≡◌, ◌↔◌, ◌+◌, ◌++◌, ◌<◌, ◌≤◌, ◌^◌, ℕ, List, [], ◌∷◌, IfOk};
ghost use Rattle.std.specs.Prelude.{IsErrOf, OnOk, is_some, length, map};
ghost use Rattle.std.specs.List.{list_any};
ghost use Rattle.sspi_credssp.specs.Context.{either};
ghost use Rattle.sspi_credssp.specs.declared.context.SspiContext.{SspiContext};
ghost use Rattle.sspi_delegate.specs.Chain.{kdc_calls};
ghost use Rattle.sspi_desk.specs.Desk.{session};
ghost use Rattle.sspi_seats.specs.Keeping.{OthersStay, HasLeft};
ghost use Rattle.sspi_seats.specs.Seat.{Place};
ghost use Rattle.sspi_seats.specs.Sessions.{AreSeated, AreVisited, IsEmpty, IsKept};
ghost use Rattle.sspi_seats.specs.Table.{AreSeats, place_of};

use crate::guest::{Guest, lost};
use crate::seat::Seat;
use sspi_credssp::{CredSspClient, CredSspServer, CredentialsProxy};
use sspi_desk::{Desk, Turned, Why};
use sspi_mech::{Kdc, Mechanism};
use sspi_types::Rows;
use std::alloc::{AllocError, Global};

/// A client with its KDC and its server, as they joined a table.
#[derive(Drop)]
pub(crate) struct Joined<N, K, C, D> {
    pub(crate) client: CredSspClient<N, K>,
    pub(crate) kdc: D,
    pub(crate) server: CredSspServer<N, K, C>,
}

/// Clients that each have a session at one desk, the first with session 0.
#[derive(Drop)]
pub(crate) struct Sessions<N, K, C, D> {
    alloc: Global,
    desk: Desk<N, K, C>,
    guests: Vec<Guest<N, K, D>>,
}

impl<N, K, C, D> Sessions<N, K, C, D> {
    /// No clients yet, at a desk for `limit` sessions.
    fn new(alloc: Global, limit: u32) -> Sessions<N, K, C, D>
        ensures { IsEmpty limit result }
    {
        Sessions {
            alloc,
            desk: Desk::new(alloc, limit),
            guests: Vec::new(alloc),
        }
    }
}

impl<N: Mechanism, K: Mechanism, C: CredentialsProxy, D: Kdc + Drop> Sessions<N, K, C, D> {
    /// Admits the servers of these clients to a desk for `limit` sessions. Fails only when out of
    /// memory: the desk has room for all of them.
    pub(crate) fn open(
        alloc: Global,
        limit: u32,
        joined: Vec<Joined<N, K, C, D>>,
    ) -> Result<Sessions<N, K, C, D>, AllocError>
        requires { length joined.items ≤ limit }
        ensures { let c = either N.REQUESTS N.meaning K.meaning in let k =
            kdc_calls D.told D.asked D.faults in
            IfOk result (AreSeated c C.meaning k (map place_of joined.items) limit) }
    {
        let mut sessions = Sessions::new(alloc, limit);
        for one in joined {
            match sessions.admit(one) {
                Ok(()) => {}
                Err(Why::InsufficientMemory) => return Err(AllocError),
                Err(Why::Full) => unreachable!(),
            }
        }
        Ok(sessions)
    }

    /// Admits the server of one more client. Fails with `Full` exactly if the desk is full.
    fn admit(&mut self, joined: Joined<N, K, C, D>) -> Result<(), Why>
        requires { self.old.desk.admitted + 1 < 2 ^ 64 }
        ensures seated { let c = either N.REQUESTS N.meaning K.meaning in let k =
            kdc_calls D.told D.asked D.faults in
            (cames : List (Place (SspiContext N K) C D)) (limit : ℕ) →
            AreSeated c C.meaning k cames limit self.old →
            OnOk result (AreSeated c C.meaning k (cames ++ place_of joined ∷ []) limit self.new) }
        ensures full { IsErrOf result Why.Full ↔ (length self.old.desk.kept ≡
            self.old.desk.limit) }
    {
        let Joined {
            client,
            kdc,
            server,
        } = joined;
        if self.desk.is_full() {
            return lost(client, (kdc, server), Why::Full);
        }
        if self.guests.reserve(1).is_err() {
            return lost(client, (kdc, server), Why::InsufficientMemory);
        }
        match self.desk.admit(server) {
            Ok(number) => {
                let guest = Guest::new(self.alloc, number, client, kdc);
                self.guests.push_reserved(guest);
                Ok(())
            }
            Err(Turned { server, why }) => lost(client, (kdc, server), why),
        }
    }

    /// Holds at most `limit` rounds.
    pub(crate) fn serve(&mut self, limit: u32) -> Result<(), AllocError>
        ensures { let c = either N.REQUESTS N.meaning K.meaning in let k =
            kdc_calls D.told D.asked D.faults in
            (cames : List (Place (SspiContext N K) C D)) (most : ℕ) →
            AreSeated c C.meaning k cames most self.old →
            OnOk result (AreVisited c C.meaning k cames limit 0 self.new) }
    {
        for turn in 0..limit {
            if !self.runs() {
                return Ok(());
            }
            self.serve_round(turn + 1)?;
        }
        Ok(())
    }

    /// Whether a client still runs.
    fn runs(&self) -> bool
        ensures { result ≡ list_any (λ guest. is_some guest.next) self.now.guests.items }
    {
        self.guests.iter().any(|guest| guest.runs())
    }

    /// The round with this number, counted from 1.
    fn serve_round(&mut self, turn: u32) -> Result<(), AllocError>
        ensures { let c = either N.REQUESTS N.meaning K.meaning in let k =
            kdc_calls D.told D.asked D.faults in
            (cames : List (Place (SspiContext N K) C D)) (rounds : ℕ) → turn ≡ rounds + 1 →
            AreVisited c C.meaning k cames rounds 0 self.old →
            OnOk result (AreVisited c C.meaning k cames turn 0 self.new) }
    {
        for at in 0..self.guests.len() {
            self.serve_guest(at, turn)?;
        }
        Ok(())
    }

    /// The client at this seat has the round with this number.
    fn serve_guest(&mut self, at: usize, turn: u32) -> Result<(), AllocError>
        ensures { let c = either N.REQUESTS N.meaning K.meaning in let k =
            kdc_calls D.told D.asked D.faults in
            (cames : List (Place (SspiContext N K) C D)) (rounds : ℕ) → turn ≡ rounds + 1 →
            AreVisited c C.meaning k cames rounds at self.old →
            OnOk result (AreVisited c C.meaning k cames rounds (at + 1) self.new) }
    {
        match self.guests.get_mut(at) {
            Some(guest) => guest.visit(self.alloc, &mut self.desk, turn),
            None => Ok(()),
        }
    }

    /// Closes the sessions in order, and returns the seats.
    pub(crate) fn leave(self) -> Result<Rows<Seat<N, K, C, D>>, AllocError>
        ensures { let c = either N.REQUESTS N.meaning K.meaning in let k =
            kdc_calls D.told D.asked D.faults in
            (cames : List (Place (SspiContext N K) C D)) (limit : ℕ) →
            AreVisited c C.meaning k cames limit 0 self →
            IfOk result (AreSeats c C.meaning k cames limit) }
    {
        let Sessions {
            alloc,
            mut desk,
            guests,
        } = self;
        let mut seats = Rows::new(alloc);
        for guest in guests {
            leave_one(&mut desk, guest, &mut seats)?;
        }
        Ok(seats)
    }
}

/// Closes the session of a client, and adds its seat. Fails if out of memory, or if there is no
/// such session.
fn leave_one<N: Mechanism, K: Mechanism, C: CredentialsProxy, D: Kdc + Drop>(
    desk: &mut Desk<N, K, C>,
    guest: Guest<N, K, D>,
    seats: &mut Rows<Seat<N, K, C, D>>,
) -> Result<(), AllocError>
    ensures left { let c = either N.REQUESTS N.meaning K.meaning in let k =
        kdc_calls D.told D.asked D.faults in
        (came : Place (SspiContext N K) C D) (limit : ℕ) →
        IsKept c C.meaning k came limit guest (session guest.number desk.old) →
        OnOk result (HasLeft c C.meaning k came limit seats.old seats.new) }
    ensures others { OthersStay guest.number desk.old desk.new }
{
    match desk.close(guest.number()) {
        Some(server) => seats.push(guest.seat(server)),
        None => Err(AllocError),
    }
}
