//! A client that has a session, and its turns there.

ghost use Rattle.std.specs.Prelude.{◌≡◌, ◌+◌, ◌++◌, ℕ, [], ◌∷◌, None, Some, Err, OnOk, is_some};
ghost use Rattle.sspi_credssp.specs.Context.{either};
ghost use Rattle.sspi_credssp.specs.declared.context.SspiContext.{SspiContext};
ghost use Rattle.sspi_credssp.specs.Ends.{ServerView};
ghost use Rattle.sspi_delegate.specs.Chain.{kdc_calls};
ghost use Rattle.sspi_desk.specs.Alone.{Alone};
ghost use Rattle.sspi_desk.specs.Desk.{session, Serves};
ghost use Rattle.sspi_seats.specs.Keeping.{IsNew, KeepsCall, OthersStay};
ghost use Rattle.sspi_seats.specs.Hearing.{IsSeatOf, IsSpeaking};
ghost use Rattle.sspi_seats.specs.Seat.{Place};
ghost use Rattle.sspi_seats.specs.Sessions.{IsKept};

use crate::hearing::{Heard, hear, message, refusal};
use crate::seat::{Seat, SeatOutcome};
use sspi_credssp::{CredSspClient, CredSspServer, CredentialsProxy, End};
use sspi_delegate::{Round, Transcript, client_round};
use sspi_desk::{Desk, DeskError, Served};
use sspi_mech::{Kdc, Mechanism};
use sspi_tsreq::TsRequest;
use sspi_types::{Bytes, Rows};
use std::alloc::{AllocError, Global};

/// A client that has a session, and what it has done there so far.
#[derive(Drop)]
pub(crate) struct Guest<N, K, D> {
    /// The number of the session.
    number: u64,
    client: CredSspClient<N, K>,
    kdc: D,
    /// The client's turns.
    transcript: Transcript,
    calls: Rows<Bytes>,
    answers: Rows<Result<Served, DeskError>>,
    /// What the client takes next; `None` once it has come to its outcome.
    next: Option<TsRequest>,
    outcome: SeatOutcome,
}

impl<N, K, D> Guest<N, K, D> {
    /// A client that has made no turn at its seat.
    pub(crate) fn new(
        alloc: Global,
        number: u64,
        client: CredSspClient<N, K>,
        kdc: D,
    ) -> Guest<N, K, D>
        ensures { IsNew number client kdc result }
    {
        Guest {
            number,
            client,
            kdc,
            transcript: Transcript::new(alloc),
            calls: Rows::new(alloc),
            answers: Rows::new(alloc),
            next: Some(TsRequest::default()),
            outcome: SeatOutcome::TurnsSpent,
        }
    }

    /// The number of its session.
    pub(crate) fn number(&self) -> u64
        ensures { result ≡ self.now.number }
    {
        self.number
    }

    /// Whether the client has not come to its outcome.
    pub(crate) fn runs(&self) -> bool
        ensures { result ≡ is_some self.now.next }
    {
        self.next.is_some()
    }

    /// The seat, once the desk has returned the server.
    pub(crate) fn seat<C>(self, server: CredSspServer<N, K, C>) -> Seat<N, K, C, D>
        ensures { IsSeatOf self server result }
    {
        let Guest {
            number: _number,
            client,
            kdc,
            transcript,
            calls,
            answers,
            next: _next,
            outcome,
        } = self;
        Seat {
            client,
            kdc,
            server,
            turns: Rows::from_vec(transcript.into_turns()),
            calls,
            answers,
            outcome,
        }
    }
}

impl<N: Mechanism, K: Mechanism, D: Kdc> Guest<N, K, D> {
    /// A round of a client: if it still runs, it makes the turn with this number, and the desk
    /// serves its message.
    pub(crate) fn visit<C: CredentialsProxy>(
        &mut self,
        alloc: Global,
        desk: &mut Desk<N, K, C>,
        turn: u32,
    ) -> Result<(), AllocError>
        ensures visited { let c = either N.REQUESTS N.meaning K.meaning in let k =
            kdc_calls D.told D.asked D.faults in
            (came : Place (SspiContext N K) C D) (rounds : ℕ) → turn ≡ rounds + 1 →
            IsKept c C.meaning k came rounds self.old (session self.old.number desk.old) →
            OnOk result (IsKept c C.meaning k came turn self.new
            (session self.old.number desk.new)) }
        ensures number { self.new.number ≡ self.old.number }
        ensures others { OthersStay self.old.number desk.old desk.new }
    {
        let Some(request) = self.next.take() else {
            return Ok(());
        };
        match client_round(
            alloc,
            &mut self.client,
            &mut self.kdc,
            &mut self.transcript,
            request,
        ) {
            Round::Answered(()) => self.speak(alloc, desk, turn),
            Round::Refused(error) => {
                let outcome = refusal(error)?;
                put(&mut self.outcome, outcome);
                Ok(())
            }
            Round::Lost => Err(AllocError),
        }
    }

    /// The desk serves the message of the client's last turn, which has this number.
    fn speak<C: CredentialsProxy>(
        &mut self,
        alloc: Global,
        desk: &mut Desk<N, K, C>,
        turn: u32,
    ) -> Result<(), AllocError>
        ensures visited { let c = either N.REQUESTS N.meaning K.meaning in let k =
            kdc_calls D.told D.asked D.faults in
            (came : Place (SspiContext N K) C D) (server : ServerView (SspiContext N K) C) →
            self.old.next ≡ None →
            IsSpeaking c C.meaning k came turn self.old →
            Alone c C.meaning came.server self.old.calls self.old.answers server →
            session self.old.number desk.old ≡ Some server →
            OnOk result (IsKept c C.meaning k came turn self.new
            (session self.old.number desk.new)) }
        ensures number { self.new.number ≡ self.old.number }
        ensures others { OthersStay self.old.number desk.old desk.new }
    {
        match message(alloc, &self.transcript)? {
            Some(bytes) => {
                let answer = serve(desk, self.number, &bytes);
                let heard = hear(alloc, turn, &answer);
                self.keep(bytes, answer, heard)
            }
            None => {
                put(&mut self.outcome, SeatOutcome::Write(End::Client));
                Ok(())
            }
        }
    }
}

impl<N, K, D> Guest<N, K, D> {
    /// Keeps a call and its answer, and goes on as the answer says.
    fn keep(
        &mut self,
        bytes: Bytes,
        answer: Result<Served, DeskError>,
        heard: Result<Heard, AllocError>,
    ) -> Result<(), AllocError>
        ensures kept { OnOk result (KeepsCall bytes answer heard self.old self.new) }
        ensures number { self.new.number ≡ self.old.number }
    {
        match heard {
            Ok(Heard::Next(request)) => put(&mut self.next, Some(request)),
            Ok(Heard::Ends(outcome)) => put(&mut self.outcome, outcome),
            Err(error) => return lost(bytes, answer, error),
        }
        push_both(&mut self.calls, bytes, &mut self.answers, answer)
    }
}

/// The desk serves this session.
fn serve<N: Mechanism, K: Mechanism, C: CredentialsProxy>(
    desk: &mut Desk<N, K, C>,
    number: u64,
    bytes: &Bytes,
) -> Result<Served, DeskError>
    ensures serves { Serves (either N.REQUESTS N.meaning K.meaning) C.meaning number bytes.now
        result desk.old desk.new }
    ensures others { OthersStay number desk.old desk.new }
{
    desk.serve(number, bytes.as_slice())
}

/// Replaces a value. Generic, like the functions below, because dropping a value of a type
/// parameter is a single step.
fn put<T: Drop>(place: &mut T, value: T)
    ensures { place.new ≡ value }
{
    *place = value;
}

fn push_both<A: Drop, B: Drop>(
    firsts: &mut Rows<A>,
    first: A,
    seconds: &mut Rows<B>,
    second: B,
) -> Result<(), AllocError>
    ensures { OnOk result ((firsts.new ≡ firsts.old ++ first ∷ []) ×
        (seconds.new ≡ seconds.old ++ second ∷ [])) }
{
    firsts.push(first)?;
    seconds.push(second)
}

/// Drops what cannot be kept, and fails.
pub(crate) fn lost<A: Drop, B: Drop, T, E>(_first: A, _second: B, error: E) -> Result<T, E>
    ensures { result ≡ Err error }
{
    Err(error)
}
