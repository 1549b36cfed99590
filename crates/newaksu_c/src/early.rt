//! The Early User Authorization Result (MS-RDPBCGR 2.2.10.2).
ghost use Rattle.std.specs.Prelude.{◌≡◌};
ghost use Rattle.sspi_tsreq.specs.Early.{early_result_at, early_result_text};
ghost use Rattle.newaksu_c.specs.Credentials.{early_bytes};
ghost use Rattle.newaksu_c.specs.Early.{ReadsEarly};
ghost use Rattle.newaksu_c.specs.Giving.{Answers};

use crate::giving::give;
use crate::status::{INVALID_PARAMETER, OK, wire_status};
use sspi_ber::SliceSource;
use sspi_tsreq::EarlyUserAuthResult;

fn spelled(result_told: EarlyUserAuthResult) -> [u8; 4]
    ensures { result ≡ early_result_text result_told }
{
    match result_told {
        EarlyUserAuthResult::Success => [0, 0, 0, 0],
        EarlyUserAuthResult::AccessDenied => [5, 0, 0, 0],
    }
}

/// The four bytes of a result: 0 if the user may log on, 5 if access is denied.
#[unsafe(no_mangle)]
pub extern "C" fn newaksu_early_encode(number: u32, out: &mut [u8], written: &mut usize) -> u32
    ensures { Answers (early_bytes number) out.old out.new written.new result }
{
    match EarlyUserAuthResult::from_u32(number) {
        Some(told) => give(&spelled(told), out, written),
        None => {
            *written = 0;
            INVALID_PARAMETER
        }
    }
}

/// The number of the result that the bytes begin with.
#[unsafe(no_mangle)]
pub extern "C" fn newaksu_early_decode(bytes: &[u8], number: &mut u32) -> u32
    ensures { ReadsEarly (early_result_at bytes.now) number.old number.new result }
{
    match EarlyUserAuthResult::from_buffer(&mut SliceSource::new(bytes)) {
        Ok(told) => {
            *number = told.to_u32();
            OK
        }
        Err(kind) => wire_status(kind),
    }
}
