//! The names of codes.
ghost use Rattle.std.specs.Prelude.{◌≡◌, ◌≢◌, ℕ, List, Option, Ok, Err, option_map};
ghost use Rattle.sspi_types.specs.Errors.{error_kind_name, error_kind_number};
ghost use Rattle.sspi_types.specs.Numbers.{ReadsNumber};
ghost use Rattle.sspi_types.specs.StatusCodes.{status_name};
ghost use Rattle.sspi_types.specs.declared.error_kind.ErrorKind.{ErrorKind as Kind};
ghost use Rattle.newaksu_c.specs.Giving.{Answers};
ghost use Rattle.newaksu_c.specs.Names.{code_name, kind_name};

use crate::giving::give;
use crate::status::{ABSENT, INVALID_PARAMETER};
use sspi_types::{ErrorKind, NStatusCode};

/// The name of an SSPI code, such as `LogonDenied`.
#[unsafe(no_mangle)]
pub extern "C" fn newaksu_error_name(kind: u32, out: &mut [u8], written: &mut usize) -> u32
    ensures { (read : Option Kind) × ReadsNumber error_kind_number kind read ×
        Answers (kind_name read) out.old out.new
        written.new result }
{
    match ErrorKind::from_u32(kind) {
        Some(kind) => give(kind.name().as_bytes(), out, written),
        None => {
            *written = 0;
            INVALID_PARAMETER
        }
    }
}

/// The name of an NTSTATUS code, such as `STATUS_LOGON_FAILURE`.
#[unsafe(no_mangle)]
pub extern "C" fn newaksu_nstatus_name(code: u32, out: &mut [u8], written: &mut usize) -> u32
    ensures { Answers (code_name (status_name code)) out.old out.new written.new result }
{
    match NStatusCode(code).name() {
        Some(name) => give(name.as_bytes(), out, written),
        None => {
            *written = 0;
            ABSENT
        }
    }
}
