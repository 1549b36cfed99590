//! The line of an audit.

ghost use Rattle.std.specs.Prelude.{◌≡◌, string_bytes, IfOk};
ghost use Rattle.sspi_report.specs.Audit.{audit_line};

use sspi_audit::Verdict;
use std::alloc::{AllocError, Global};

/// The line of an audit, which ends with LF: the turn that sealed the credentials, or `-` if none
/// did, or the turn at fault. Fails only when out of memory.
pub fn audit_line(alloc: Global, verdict: Verdict) -> Result<String, AllocError>
    ensures { IfOk result (λ text. string_bytes text ≡ audit_line verdict) }
{
    match verdict {
        Verdict::Yes(Some(turn)) => format!(in alloc; "audit yes sealed={turn}\n"),
        Verdict::Yes(None) => String::from_str(alloc, "audit yes sealed=-\n"),
        Verdict::No(turn) => format!(in alloc; "audit no {turn}\n"),
    }
}
