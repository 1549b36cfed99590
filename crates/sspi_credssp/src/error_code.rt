//! The NTSTATUS code with which a server reports a refusal to its client (MS-CSSP 2.2.1).

ghost use Rattle.std.specs.Prelude.{◌≡◌, ◌≢◌};
ghost use Rattle.sspi_types.specs.declared.error_kind.ErrorKind.{ErrorKind};
ghost use Rattle.sspi_credssp.specs.Requests.{error_code_of};

use sspi_types::{Error, NStatusCode};

/// The NTSTATUS code with which a server tells its client why it refused (errorCode, MS-CSSP
/// 2.2.1): the low 16 bits of the kind's number, with the severity of an error and the facility of
/// Win32 codes. Never `SUCCESS`.
pub fn construct_error(e: &Error) -> NStatusCode
    ensures { result ≡ error_code_of e.now.error_type }
{
    NStatusCode((e.error_type.to_u32() & 0xFFFF) | 0x0007_0000 | 0xC000_0000)
}

/// A constructed code is never `SUCCESS`.
pub fn constructed_code_is_an_error()
    ensures { (kind : ErrorKind) → (error_code_of kind).0 ≢ 0 }
{}
