//! How the outcomes of seats exclude each other.

ghost use Rattle.std.specs.Prelude.{◌≡◌, ℕ, List, Result};
ghost use Rattle.sspi_credssp.specs.declared.turn.Turn.{Turn};
ghost use Rattle.sspi_desk.specs.declared.answer.DeskError.{DeskError};
ghost use Rattle.sspi_desk.specs.declared.answer.Served.{Served};
ghost use Rattle.sspi_seats.specs.Outcomes.{Shows, kind_of};
ghost use Rattle.sspi_seats.specs.declared.seat.SeatOutcome.{SeatOutcome};

/// Turns, calls and answers show at most one kind of outcome. So each kind comes exactly where they
/// show it.
pub fn one_kind_is_shown()
    ensures { (limit : ℕ) (outcome other : SeatOutcome) (turns : List Turn) (calls : List (List ℕ))
        (answers : List (Result Served DeskError)) →
        Shows limit outcome turns calls answers → Shows limit other turns calls answers →
        kind_of outcome ≡ kind_of other }
{}
