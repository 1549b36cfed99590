//! The lines of a log's entries.

ghost use Rattle.std.specs.Prelude.{◌≡◌, ◌++◌, string_bytes, OnOk};
ghost use Rattle.hex.specs.Hex.{encode_lower};
ghost use Rattle.sspi_report.specs.Entries.{entry_text, line, mark};

use sspi_delegate::{Carried, End};
use std::alloc::{AllocError, Global};

/// Appends the lines of an entry of the log.
pub(crate) fn push_entry(
    alloc: Global,
    text: &mut String,
    entry: &Carried,
) -> Result<(), AllocError>
    ensures { OnOk result (string_bytes text.new ≡ string_bytes text.old ++ entry_text entry.now) }
{
    let sent = entry.sent.as_slice();
    let delivered = entry.delivered.as_slice();
    push_line(alloc, text, mark(entry.from), sent)?;
    if !delivered.is_empty() && delivered != sent {
        push_line(alloc, text, "! ", delivered)?;
    }
    Ok(())
}

/// What precedes a message of this end.
pub(crate) fn mark(from: End) -> &'static str
    ensures { result.now ≡ mark from }
{
    match from {
        End::Client => "> ",
        End::Server => "< ",
    }
}

/// Appends a line with a mark and the hex of some bytes.
pub(crate) fn push_line(
    alloc: Global,
    text: &mut String,
    mark: &str,
    bytes: &[u8],
) -> Result<(), AllocError>
    ensures { OnOk result (string_bytes text.new ≡ string_bytes text.old ++
        line (mark.now ++ encode_lower bytes.now)) }
{
    let digits = hex::encode(alloc, bytes)?;
    text.push_str(mark)?;
    text.push_str(&digits)?;
    text.push('\n')
}

/// How many bytes the lines of a log take if each message was delivered as it was sent: a text with
/// that capacity is not reallocated.
pub(crate) fn room_of(log: &[Carried]) -> usize {
    let mut room = 0usize;
    for entry in log {
        let digits = entry.sent.len().saturating_add(entry.sent.len());
        room = room.saturating_add(digits.saturating_add(3));
    }
    room
}
