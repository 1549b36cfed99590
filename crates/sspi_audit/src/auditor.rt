//! The auditor of recorded turns and of the log of the link that carried their messages.

ghost use Rattle.std.specs.Prelude.{◌≡◌, ◌≤◌, ◌+◌, ◌↔◌, IsTrue, IfOk, IfErr};
ghost use Rattle.sspi_audit.specs.Standings.{sealing_after};
ghost use Rattle.sspi_audit.specs.Verdicts.{Judges};
ghost use Rattle.sspi_types.specs.Errors.{memory_error};

use crate::standing::Standing;
use crate::verdict::Verdict;
use sspi_credssp::Turn;
use sspi_delegate::Carried;
use sspi_types::Error;
use std::alloc::Global;

/// Judges recorded turns and the log of the link that carried their messages, both oldest first.
///
/// `Yes` exactly where turns and log are shown right (`specs/Shown.antt`). The ends alternate from
/// the client's first request on; each turn was given what the entry before it delivered, and did
/// on its context only what its state permits. Only a refused turn was given a changed version or,
/// at a client, an error. Each message has the fields that it must have. What two ends leave of a
/// run has all that; the converse is not claimed. A blob may hold anything after its 16-octet tag:
/// no record shows what was sealed, nor keys, nonces and contexts. The verdict names the only turn
/// in which the client is recorded to have sealed its credentials.
///
/// `No` names the first turn at fault. A missing entry is held against neither its own turn nor the
/// next. If nothing else is wrong, `No` has the number of turns: the entries are too many or too
/// few.
///
/// The only refusal is `InsufficientMemory`, without a status. Not in any clause: time is linear in
/// the octets of turns and log, and memory is at most that of one of their messages.
pub fn audit(alloc: Global, turns: &[Turn], log: &[Carried]) -> Result<Verdict, Error>
    ensures judges { IfOk result (Judges turns.now log.now) }
    ensures only { IfErr result (λ error. error ≡ memory_error) }
{
    let mut standing = Standing::new();
    let mut sealing = None;
    for (place, turn) in turns.iter().enumerate() {
        if !standing.judges(alloc, place, turn, log)? {
            return Ok(Verdict::No(place as u64));
        }
        sealing = sealing_after(turn.acts.sealed, place, sealing);
        standing.pass(turn);
    }
    if are_counted(turns.len(), log.len()) {
        Ok(Verdict::Yes(sealing))
    } else {
        Ok(Verdict::No(turns.len() as u64))
    }
}

/// The number of the turn that sealed, after the turn numbered `place`.
pub(crate) fn sealing_after(sealed: bool, place: usize, sealing: Option<u64>) -> Option<u64>
    ensures { result ≡ sealing_after sealed place sealing }
{
    if sealed { Some(place as u64) } else { sealing }
}

/// There are as many entries as turns, or one fewer.
pub(crate) fn are_counted(turns: usize, entries: usize) -> bool
    ensures { IsTrue result ↔ (entries ≤ turns) × (turns ≤ entries + 1) }
{
    entries <= turns && turns - entries <= 1
}
