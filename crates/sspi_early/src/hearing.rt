//! The client reads the early user authorization result.

ghost use Rattle.sspi_delegate.specs.Log.{IsUnread};
ghost use Rattle.sspi_delegate.specs.Link.{LinkCause, NeverFails, StaysTold};
ghost use Rattle.sspi_early.specs.Hearing.{IsResultIn, Takes};

use sspi_delegate::{Link, LinkError};
use sspi_tsreq::{EARLY_USER_AUTH_RESULT_PDU_SIZE, EarlyUserAuthResult};

/// Takes the bytes of a result from the beginning of the newest delivery, and no more; `None` if it
/// ends before that.
pub(crate) fn take_result<L: Link>(
    link: &mut L,
) -> Result<Option<[u8; EARLY_USER_AUTH_RESULT_PDU_SIZE]>, LinkError>
    ensures takes { IsUnread (L.log link.old) → Takes (L.log link.old) (L.log link.new) result }
    ensures cause { LinkCause (L.faults link.old) (L.faults link.new) result }
    ensures told { StaysTold (L.edits link.old) (L.edits link.new) (L.log link.old)
        (L.log link.new) }
    ensures failing { NeverFails (L.edits link.old) (L.faults link.old) (L.faults link.new) result }
{
    let mut bytes = [0; EARLY_USER_AUTH_RESULT_PDU_SIZE];
    let mut taken = 0;
    while taken < EARLY_USER_AUTH_RESULT_PDU_SIZE {
        let count = link.piece(&mut bytes[taken..])?;
        if count == 0 {
            return Ok(None);
        }
        taken += count;
    }
    Ok(Some(bytes))
}

/// The result that these bytes encode, if they encode one.
pub(crate) fn result_in(bytes: [u8; EARLY_USER_AUTH_RESULT_PDU_SIZE]) -> Option<EarlyUserAuthResult>
    ensures { IsResultIn bytes result }
{
    EarlyUserAuthResult::from_u32(u32::from_le_bytes(bytes))
}
