//! The early user authorization result after a delegation over a channel (MS-RDPBCGR 2.2.10.2).

ghost use Rattle.std.specs.Prelude.{◌≡◌, IfOk, length};
ghost use Rattle.sspi_ber.specs.Outside.{ReadCause, Reads, SourceCause};
ghost use Rattle.sspi_early.specs.Authorizes.{told_of};
ghost use Rattle.sspi_early.specs.Policy.{is_listed};
ghost use Rattle.sspi_channel.specs.Early.{Hears, HearsIfAsked, Tells, TellsIfAsked, is_asked};
ghost use Rattle.sspi_channel.specs.Early.{told_by};
ghost use Rattle.sspi_channel.specs.Front.{TakesFront};
ghost use Rattle.sspi_scenario.specs.Reading.{TakesAtMost};
ghost use Rattle.sspi_tsreq.specs.Early.{early_result_at};

use crate::answer::ChannelError;
use sspi_ber::{Sink, SliceSource, Source, SourceError, WireKind};
use sspi_early::EarlyUserAuthResult;
use sspi_names::Username;
use sspi_tsreq::EARLY_USER_AUTH_RESULT_PDU_SIZE;

/// What a server tells of a user: whether it is one of those whom the scenario admits; nothing
/// if it admits nobody.
pub(crate) fn told_by(admitted: &[Username], user: &Username) -> Option<EarlyUserAuthResult>
    ensures { result ≡ told_by admitted.now user.now }
{
    if admitted.is_empty() {
        return None;
    }
    Some(told_of(is_listed(admitted, user)))
}

/// Whether the name is in the list, ignoring the case of ASCII letters.
fn is_listed(names: &[Username], user: &Username) -> bool
    ensures { result ≡ is_listed names.now user.now }
{
    names.iter().any(|name| name.eq_ignore_ascii_case(user))
}

fn told_of(admitted: bool) -> EarlyUserAuthResult
    ensures { result ≡ told_of admitted }
{
    if admitted {
        EarlyUserAuthResult::Success
    } else {
        EarlyUserAuthResult::AccessDenied
    }
}

/// Tells the client this result, if there is one to tell.
pub(crate) fn tell_if_asked<W: Sink>(
    sink: &mut W,
    told: Option<EarlyUserAuthResult>,
) -> Result<Option<EarlyUserAuthResult>, ChannelError>
    ensures { TellsIfAsked told (W.written sink.old) (W.written sink.new) (W.faults sink.old)
        (W.faults sink.new) result }
{
    match told {
        None => Ok(None),
        Some(told) => tell(sink, told),
    }
}

fn tell<W: Sink>(
    sink: &mut W,
    told: EarlyUserAuthResult,
) -> Result<Option<EarlyUserAuthResult>, ChannelError>
    ensures { Tells told (W.written sink.old) (W.written sink.new) (W.faults sink.old)
        (W.faults sink.new) result }
{
    match told.to_buffer(sink) {
        Ok(()) => Ok(Some(told)),
        Err(WireKind::InsufficientMemory) => Err(ChannelError::InsufficientMemory),
        Err(_) => Err(ChannelError::WriteFault),
    }
}

/// Whether the client of a scenario that admits these hears the result.
pub(crate) fn is_asked(admitted: &[Username]) -> bool
    ensures { result ≡ is_asked admitted.now }
{
    !admitted.is_empty()
}

/// What the server tells, if the scenario asks for it.
pub(crate) fn hear_if_asked<S: Source>(
    source: &mut S,
    asked: bool,
) -> Result<Option<EarlyUserAuthResult>, ChannelError>
    ensures { HearsIfAsked asked (S.left source.old) (S.left source.new) (S.faults source.old)
        (S.faults source.new) result }
{
    if asked { hear(source) } else { Ok(None) }
}

fn hear<S: Source>(source: &mut S) -> Result<Option<EarlyUserAuthResult>, ChannelError>
    ensures { Hears (S.left source.old) (S.left source.new) (S.faults source.old)
        (S.faults source.new) result }
{
    match read_result(source) {
        Ok(heard) => Ok(Some(heard)),
        Err(WireKind::ReadFault) => Err(ChannelError::ReadFault),
        Err(kind) => Err(ChannelError::Early(kind)),
    }
}

/// Reads a result, and takes no octet behind its four, whatever comes of it.
fn read_result<S: Source>(source: &mut S) -> Result<EarlyUserAuthResult, WireKind>
    ensures read { Reads (λ result. result) (S.left source.old) (S.left source.new) result
        early_result_at }
    ensures cause { ReadCause (S.faults source.old) (S.faults source.new) result }
    ensures taken { TakesAtMost 4 (S.left source.old) (S.left source.new) }
{
    let mut octets = [0; EARLY_USER_AUTH_RESULT_PDU_SIZE];
    let count = read_front(source, &mut octets)?;
    EarlyUserAuthResult::from_buffer(&mut SliceSource::new(&octets[..count]))
}

/// Reads until `into` is full or nothing is left, and returns how many bytes that took.
fn read_front<S: Source>(source: &mut S, into: &mut [u8]) -> Result<usize, SourceError>
    ensures size { length into.new ≡ length into.old }
    ensures front { IfOk result (λ count. TakesFront (S.left source.old) (S.left source.new)
        into.new count) }
    ensures taken { TakesAtMost (length into.old) (S.left source.old) (S.left source.new) }
    ensures cause { SourceCause (S.faults source.old) (S.faults source.new) result }
{
    let mut filled = 0;
    while filled < into.len() {
        let count = source.read(&mut into[filled..])?;
        if count == 0 {
            return Ok(filled);
        }
        filled += count;
    }
    Ok(filled)
}
