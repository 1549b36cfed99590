//! How reports name ends and faults.

ghost use Rattle.std.specs.Prelude.{◌≡◌};
ghost use Rattle.sspi_report.specs.Names.{end_name, fault_name};

use sspi_ber::WireKind;
use sspi_delegate::End;

/// An end as a report names it.
pub(crate) fn end_name(end: End) -> &'static str
    ensures { result.now ≡ end_name end }
{
    match end {
        End::Client => "client",
        End::Server => "server",
    }
}

/// A fault of reading as a report names it.
pub(crate) fn fault_name(kind: WireKind) -> &'static str
    ensures { result.now ≡ fault_name kind }
{
    match kind {
        WireKind::UnexpectedEof => "UnexpectedEof",
        WireKind::InvalidData => "InvalidData",
        WireKind::ReadFault => "ReadFault",
        WireKind::WriteFault => "WriteFault",
        WireKind::InsufficientMemory => "InsufficientMemory",
    }
}
