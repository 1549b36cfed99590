//! The client of a scenario over a channel to its server.

ghost use Rattle.std.specs.Prelude.{◌≡◌, ℕ, List, Option};
ghost use Rattle.sspi_channel.specs.Answers.{ConnectsAs, ConnectsText, HearsBehind, connected_with};
ghost use Rattle.sspi_channel.specs.Delegating.{Delegates, IsConnected, counted_channel};
ghost use Rattle.sspi_channel.specs.Sides.{source_channel};

use crate::answer::{ChannelError, Connected};
use crate::by_fault::{by_fault, text_error, without};
use crate::counted::Counted;
use crate::early::{hear_if_asked, is_asked};
use sspi_ber::{Sink, Source};
use sspi_delegate::Transcript;
use sspi_live::connect;
use sspi_program::ends::{beside, client_of, kdc_of};
use sspi_scenario::{Purpose, Scenario};
use sspi_tsreq::EarlyUserAuthResult;
use std::alloc::Global;

/// Delegates credentials to the peer on the other side of a channel, as the client of the scenario
/// in this text.
///
/// The client sends at most as many messages as the scenario has `turns`, and asks the KDC of the
/// scenario; `connect` of `sspi_live` says what it reads and writes. If the scenario admits anybody
/// at all, the client then hears whether its user may log on, in four octets, and takes none after
/// them. Refused:
///
/// - `Scenario`: the text is no scenario for `Purpose::Connect`. Nothing was read or written.
/// - `Delegate`: the delegation ended as `connect` says: the client refused, what came is no
///   request, a message is too long, or the turns are spent.
/// - `Early`: what came after the delegation is no early result.
/// - `ReadFault`, `WriteFault`: the source or the sink failed, in the delegation or after it. A
///   prefix of what was due was written.
/// - `InsufficientMemory`: out of memory, also in the client or the KDC.
///
/// A failed channel failed in a write exactly when the count of `sink` changed.
pub fn connect_scenario<S: Source, W: Sink>(
    alloc: Global,
    text: &[u8],
    source: &mut Counted<S>,
    sink: &mut Counted<W>,
) -> Result<Connected, ChannelError>
    ensures { ConnectsText text.now (counted_channel S.left W.written source.old sink.old)
        (counted_channel S.left W.written source.new sink.new) result }
{
    match Scenario::parse(alloc, Purpose::Connect, text) {
        Ok(scenario) => {
            let connected = connect_as(alloc, &scenario, source, sink);
            without(scenario, connected)
        }
        Err(error) => Err(text_error(error)),
    }
}

/// The client of this scenario over the channel, and what it hears after its delegation.
fn connect_as<S: Source, W: Sink>(
    alloc: Global,
    scenario: &Scenario,
    source: &mut Counted<S>,
    sink: &mut Counted<W>,
) -> Result<Connected, ChannelError>
    ensures { ConnectsAs scenario.now (counted_channel S.left W.written source.old sink.old)
        (counted_channel S.left W.written source.new sink.new) result }
{
    let delegated = delegate_by(alloc, scenario, source, sink);
    hear_behind(scenario, source, delegated)
}

/// The delegation by the client of this scenario: how many messages it sent.
fn delegate_by<S: Source, W: Sink>(
    alloc: Global,
    scenario: &Scenario,
    source: &mut Counted<S>,
    sink: &mut Counted<W>,
) -> Result<u32, ChannelError>
    ensures { Delegates (IsConnected scenario.now)
        (counted_channel S.left W.written source.old sink.old)
        (counted_channel S.left W.written source.new sink.new) result }
{
    let faults = sink.faults;
    let Ok(kdc) = kdc_of(alloc, scenario) else {
        return Err(ChannelError::InsufficientMemory);
    };
    let Ok((mut client, mut kdc)) = beside(client_of(alloc, scenario), kdc) else {
        return Err(ChannelError::InsufficientMemory);
    };
    let mut transcript = Transcript::new(alloc);
    let answer = connect(
        alloc,
        &mut *client,
        source,
        sink,
        &mut kdc,
        scenario.turns,
        &mut transcript,
    );
    let write_failed = sink.faults != faults;
    without((client, kdc, transcript), by_fault(answer, write_failed))
}

/// What the client hears after its delegation, if that succeeded.
fn hear_behind<S: Source>(
    scenario: &Scenario,
    source: &mut Counted<S>,
    delegated: Result<u32, ChannelError>,
) -> Result<Connected, ChannelError>
    ensures { (written : Option (List ℕ)) (write_faults : ℕ) →
        HearsBehind scenario.now (source_channel S.left written write_faults source.old)
        (source_channel S.left written write_faults source.new) delegated result }
{
    match delegated {
        Ok(rounds) => {
            let asked = is_asked(scenario.admit.as_slice());
            connected_with(rounds, hear_if_asked(source, asked))
        }
        Err(error) => Err(error),
    }
}

fn connected_with(
    rounds: u32,
    heard: Result<Option<EarlyUserAuthResult>, ChannelError>,
) -> Result<Connected, ChannelError>
    ensures { result ≡ connected_with rounds heard }
{
    match heard {
        Ok(heard) => Ok(Connected { rounds, heard }),
        Err(error) => Err(error),
    }
}
