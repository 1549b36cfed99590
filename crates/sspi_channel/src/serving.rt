//! The server of a scenario over a channel to its client.

ghost use Rattle.std.specs.Prelude.{◌≡◌, ℕ, List, Option};
ghost use Rattle.sspi_channel.specs.Answers.{ServesAs, ServesText, TellsBehind, served_with};
ghost use Rattle.sspi_channel.specs.Delegating.{Delegates, IsServed, counted_channel};
ghost use Rattle.sspi_channel.specs.Sides.{sink_channel};

use crate::answer::{ChannelError, Served};
use crate::by_fault::{by_fault, text_error, without};
use crate::counted::Counted;
use crate::early::{tell_if_asked, told_by};
use sspi_ber::{Sink, Source};
use sspi_delegate::{Delegation, Transcript};
use sspi_live::serve;
use sspi_program::ends::server_of;
use sspi_scenario::{Purpose, Scenario};
use sspi_tsreq::EarlyUserAuthResult;
use std::alloc::Global;

/// Takes the credentials of the peer on the other side of a channel, as the server of the scenario
/// in this text.
///
/// The server makes at most as many turns as the scenario has `turns`; `serve` of `sspi_live` says
/// what it reads and writes. If the scenario admits anybody, the server then tells whether the
/// delegated name is one of theirs, in four octets. A client may delegate any name: whoever admits
/// a user by it must log that user on. Refused:
///
/// - `Scenario`: the text is no scenario for `Purpose::Serve`. Nothing was read or written.
/// - `Delegate`: the delegation ended as `serve` says: the server refused, what came is no request,
///   an answer is too long, or the turns are spent.
/// - `ReadFault`, `WriteFault`: the source or the sink failed, in the delegation or after it. A
///   prefix of what was due was written.
/// - `InsufficientMemory`: out of memory, also in the server.
///
/// `Early` does not come. A failed channel failed in a write exactly when the count of `sink`
/// changed.
pub fn serve_scenario<S: Source, W: Sink>(
    alloc: Global,
    text: &[u8],
    source: &mut Counted<S>,
    sink: &mut Counted<W>,
) -> Result<Served, ChannelError>
    ensures { ServesText text.now (counted_channel S.left W.written source.old sink.old)
        (counted_channel S.left W.written source.new sink.new) result }
{
    match Scenario::parse(alloc, Purpose::Serve, text) {
        Ok(scenario) => {
            let served = serve_as(alloc, &scenario, source, sink);
            without(scenario, served)
        }
        Err(error) => Err(text_error(error)),
    }
}

/// The server of this scenario over the channel, and what it tells after its delegation.
fn serve_as<S: Source, W: Sink>(
    alloc: Global,
    scenario: &Scenario,
    source: &mut Counted<S>,
    sink: &mut Counted<W>,
) -> Result<Served, ChannelError>
    ensures { ServesAs scenario.now (counted_channel S.left W.written source.old sink.old)
        (counted_channel S.left W.written source.new sink.new) result }
{
    let delegated = delegate_to(alloc, scenario, source, sink);
    tell_behind(scenario, sink, delegated)
}

/// The delegation to the server of this scenario.
fn delegate_to<S: Source, W: Sink>(
    alloc: Global,
    scenario: &Scenario,
    source: &mut Counted<S>,
    sink: &mut Counted<W>,
) -> Result<Delegation, ChannelError>
    ensures { Delegates (IsServed scenario.now)
        (counted_channel S.left W.written source.old sink.old)
        (counted_channel S.left W.written source.new sink.new) result }
{
    let faults = sink.faults;
    let Ok(mut server) = server_of(alloc, scenario) else {
        return Err(ChannelError::InsufficientMemory);
    };
    let mut transcript = Transcript::new(alloc);
    let answer = serve(
        alloc,
        &mut *server,
        source,
        sink,
        scenario.turns,
        &mut transcript,
    );
    let write_failed = sink.faults != faults;
    without((server, transcript), by_fault(answer, write_failed))
}

/// What the server tells after its delegation, if that succeeded.
fn tell_behind<W: Sink>(
    scenario: &Scenario,
    sink: &mut Counted<W>,
    delegated: Result<Delegation, ChannelError>,
) -> Result<Served, ChannelError>
    ensures { (left : Option (List ℕ)) (read_faults : ℕ) →
        TellsBehind scenario.now (sink_channel W.written left read_faults sink.old)
        (sink_channel W.written left read_faults sink.new)
        delegated result }
{
    match delegated {
        Ok(delegation) => {
            let told = told_by(scenario.admit.as_slice(), &delegation.credentials.username);
            served_with(delegation, tell_if_asked(sink, told))
        }
        Err(error) => Err(error),
    }
}

fn served_with(
    delegation: Delegation,
    told: Result<Option<EarlyUserAuthResult>, ChannelError>,
) -> Result<Served, ChannelError>
    ensures { result ≡ served_with delegation told }
{
    match told {
        Ok(told) => Ok(Served { delegation, told }),
        Err(error) => without(delegation, Err(error)),
    }
}
