//! The auditor of whole runs: what `audit` checks, and all else that recorded bytes can show of two
//! ends.
ghost use Rattle.std.specs.Prelude.{◌≡◌, ◌↔◌, List, length, reverse, slice_get, false, [], IsTrue};
ghost use Rattle.std.specs.Prelude.{IfOk, IfErr, IfSome};
ghost use Rattle.sspi_credssp.specs.declared.turn.Turn.{Turn};
ghost use Rattle.sspi_audit.specs.Run.{IsLeftBehind, LastLeft, LogEnds};
ghost use Rattle.sspi_audit.specs.RunVerdicts.{JudgesRun};
ghost use Rattle.sspi_types.specs.Errors.{memory_error};

use crate::auditor::{are_counted, sealing_after};
use crate::standing::Standing;
use crate::verdict::Verdict;
use sspi_credssp::{Outcome, Turn};
use sspi_delegate::{Carried, DELIVERY_LIMIT};
use sspi_types::Error;
use std::alloc::Global;

/// Judges recorded turns and the log of the link that carried their messages, both oldest first, as
/// a run of two ends.
///
/// `Yes` exactly where they have all that recorded bytes can show of a run (`specs/Run.antt`).
/// In addition to what `audit` checks:
///
/// - A turn given a version other than the pinned one or, at a client, an error, did nothing and
///   was refused for that.
/// - A refused turn has a kind that fits its effects. In no such turn did an end seal its proof, or
///   a client its credentials.
/// - A turn in which no step answered has no token.
/// - From version 5 on, a server opened a proof only with a nonce. Its error request has the
///   version that is then due.
/// - Of the last delivery, which no turn was given, at most `DELIVERY_LIMIT` bytes were taken; of
///   the delivery of a refusal, nothing.
///
/// What `delegate` leaves of two fresh ends gets `Yes` (`laws`). Use `audit` if a recorder does not
/// keep refused turns as the ends left them. Neither checks what a record cannot show: what was
/// sealed, keys, nonces and contexts. The verdict names the only turn in which the client is
/// recorded to have sealed its credentials.
///
/// `No` names the first turn at fault. It is the number of turns if there are too many or too few
/// entries, or if too much of the last delivery was taken.
///
/// The only refusal is `InsufficientMemory`, without a status. Not in any clause: time is linear in
/// the octets of turns and log, and memory is at most that of one of their messages.
pub fn audit_run(alloc: Global, turns: &[Turn], log: &[Carried]) -> Result<Verdict, Error>
    ensures judges { IfOk result (JudgesRun turns.now log.now) }
    ensures only { IfErr result (λ error. error ≡ memory_error) }
{
    let mut standing = Standing::new();
    let mut sealing = None;
    for (place, turn) in turns.iter().enumerate() {
        if !standing.judges_run(alloc, place, turn, log)? {
            return Ok(Verdict::No(place as u64));
        }
        sealing = sealing_after(turn.acts.sealed, place, sealing);
        standing.pass(turn);
    }
    if log_ends(turns, log) {
        Ok(Verdict::Yes(sealing))
    } else {
        Ok(Verdict::No(turns.len() as u64))
    }
}

/// There are as many entries as turns, or one fewer, and no more of the last delivery was taken
/// than an end takes.
fn log_ends(turns: &[Turn], log: &[Carried]) -> bool
    ensures { IsTrue result ↔ LogEnds (reverse turns.now) log.now }
{
    are_counted(turns.len(), log.len()) && last_left(turns, log)
}

fn last_left(turns: &[Turn], log: &[Carried]) -> bool
    ensures { IsTrue result ↔ LastLeft (reverse turns.now) log.now }
{
    let Some(place) = turns.len().checked_sub(1) else {
        return true;
    };
    match log.get(place) {
        None => true,
        Some(entry) => is_left_behind(&turns[place].outcome, entry),
    }
}

/// This may be what was taken of a delivery that no later turn was given.
fn is_left_behind(outcome: &Outcome, entry: &Carried) -> bool
    ensures { IsTrue result ↔ IsLeftBehind outcome.now entry.now }
{
    match outcome {
        Outcome::Reply(_) => entry.delivered.len() <= DELIVERY_LIMIT,
        Outcome::Final(_) => entry.delivered.len() <= DELIVERY_LIMIT,
        Outcome::Finished => true,
        Outcome::Refused(_, _) => entry.delivered.is_empty() && !entry.ended,
    }
}
