//! How bytes are given to the caller.
ghost use Rattle.std.specs.Prelude.{◌≡◌};
ghost use Rattle.newaksu_c.specs.Giving.{Answers, Gives};
ghost use Rattle.newaksu_c.specs.Told.{items_of, told};

use crate::status::{BUFFER_TOO_SMALL, OK};

/// Gives the bytes if the buffer has room for them, and in any case says how many there are.
pub(crate) fn give(bytes: &[u8], out: &mut [u8], written: &mut usize) -> u32
    ensures { Gives bytes.now out.old out.new written.new result }
{
    *written = bytes.len();
    if out.len() < bytes.len() {
        return BUFFER_TOO_SMALL;
    }
    out[..bytes.len()].copy_from_slice(bytes);
    OK
}

/// Gives the bytes, or returns the status that says why there are none.
pub(crate) fn answer(bytes: Result<&[u8], u32>, out: &mut [u8], written: &mut usize) -> u32
    ensures { Answers (told bytes.entry) out.old out.new written.new result }
{
    match bytes {
        Ok(bytes) => give(bytes, out, written),
        Err(status) => {
            *written = 0;
            status
        }
    }
}

/// The same for bytes in memory of their own.
pub(crate) fn give_all(bytes: Result<Vec<u8>, u32>, out: &mut [u8], written: &mut usize) -> u32
    ensures { Answers (items_of bytes) out.old out.new written.new result }
{
    match bytes {
        Ok(bytes) => give(&bytes, out, written),
        Err(status) => {
            *written = 0;
            status
        }
    }
}
