//! What the program does: it reads the text of its source, does what its words ask for, and writes
//! the outcome.
ghost use Rattle.std.specs.Prelude.{◌≡◌, ◌+◌, ◌≤◌, None, Some, IfOk, IfSome, string_bytes};
ghost use Rattle.sspi_program.specs.Commands.{command_of, explain_limit, limit_in, most_taken};
ghost use Rattle.sspi_program.specs.Kept.{with_status};
ghost use Rattle.sspi_program.specs.Run.{outside, Comes, IsRun, EndsRun, Written};
ghost use Rattle.sspi_program.specs.Telling.{CarriesOut, IsJudged, ReadsWell};
ghost use Rattle.sspi_program.specs.Said.{conducted_as, line_text, said_status, said_text};
ghost use Rattle.sspi_scenario.specs.Reading.{TakesAtMost, text_limit};

use crate::command::{Command, Task, command_of};
use crate::record::Conducted;
use crate::said::Said;
use crate::{status, words};
use sspi_ber::{Sink, Source, WireKind, write_all};
use sspi_scenario::{Scenario, ScenarioError, TEXT_LIMIT, TextError, read_text};
use std::alloc::{AllocError, Global};

/// The most bytes of a text whose messages are explained.
pub const EXPLAIN_LIMIT: usize = 2_097_152;

/// Does what the words ask for with the text of the source, and writes the outcome.
///
/// The words are `delegate`: the scenario's ends carry their messages to each other over its link;
/// `play`: they take the scenario's deliveries; `gate`: as `delegate`, and a relay passes on what
/// the link delivered; `audit`: as `delegate`, and its turns and its log are judged; or `early`: as
/// `delegate`, and the server tells whether the user may log on. Or they are `desk` and a number
/// from 1 to `MOST_SESSIONS`: that many clients of the scenario have a session each at one desk. Or
/// they are `gen` and a number from 1 to `MOST_SCENARIOS`: the ends of that many scenarios, made
/// from their numbers, carry their messages to each other, and a summary counts the outcomes. Or
/// the word is `explain`: the text of the source is written, with what its messages say in place of
/// their lines, as by `sspi_explain::explain`. The exit status is
///
/// - 0 if the server has the credentials, or the deliveries were taken, and 1 if the exchange was
///   refused: its report is written. For `gate` it is 0 if the relay came to an end by itself, and
///   1 if it had to stop; for `early` 0 if the client heard that its user may log on, and otherwise
///   1; for `desk` 0 if every session has its credentials, and otherwise 1; for `gen` and `explain`
///   always 0;
/// - 2 if the text is not a scenario for this word or has more than `TEXT_LIMIT` bytes: `error:
///   scenario line N`, with the number of the first faulty line, from 1, or 0 if no line is to
///   blame; also if the text to be explained has more than `EXPLAIN_LIMIT` bytes or is not UTF-8:
///   `error: text`;
/// - 3 if the source failed: `error: read`;
/// - 4 if the sink failed, which hides the status that was due: a prefix of the text, never all of
///   it;
/// - 5 if memory ran out: nothing, or, if it ran out in the sink, a prefix of the text, never all
///   of it;
/// - 6 for any other words: `error: words`. The source is not read, as it is not for `gen`.
///
/// Each line ends with LF. The source is read to its end, or to the first byte past the limit and
/// no further. No other answer hides a failed call: the sink's count of faults is unchanged at
/// every status except 4, and the source's at 0, 1, 2 and 6. What the ends did is kept if there
/// were any, even at status 4; at 5 it may be.
pub fn run<S: Source, W: Sink>(
    alloc: Global,
    words: &[String],
    source: &mut S,
    sink: &mut W,
) -> Conducted
    ensures runs { IsRun (command_of words.now)
        (outside (S.left source.old) (S.faults source.old) (W.written sink.old) (W.faults sink.old))
        (outside (S.left source.new) (S.faults source.new) (W.written sink.new) (W.faults sink.new))
        result }
    ensures unread { limit_in (command_of words.now) ≡ None → source.new ≡ source.old }
    ensures taken { TakesAtMost (most_taken (limit_in (command_of words.now))) (S.left source.old)
        (S.left source.new) }
    ensures faults { (S.faults source.old ≤ S.faults source.new) ×
        (W.faults sink.old ≤ W.faults sink.new) }
{
    let said = conduct(alloc, words, source);
    tell(alloc, sink, said)
}

/// The exit status of `run`, of which nothing else is kept. The value that `run` answers is large,
/// and a caller who drops it must prove that.
pub fn exit_status<S: Source, W: Sink>(
    alloc: Global,
    words: &[String],
    source: &mut S,
    sink: &mut W,
) -> u8
    ensures runs { EndsRun (command_of words.now)
        (outside (S.left source.old) (S.faults source.old) (W.written sink.old) (W.faults sink.old))
        (outside (S.left source.new) (S.faults source.new) (W.written sink.new) (W.faults sink.new))
        result }
    ensures unread { limit_in (command_of words.now) ≡ None → source.new ≡ source.old }
    ensures taken { TakesAtMost (most_taken (limit_in (command_of words.now))) (S.left source.old)
        (S.left source.new) }
    ensures faults { (S.faults source.old ≤ S.faults source.new) ×
        (W.faults sink.old ≤ W.faults sink.new) }
{
    let conducted = run(alloc, words, source, sink);
    status_of(conducted)
}

/// The status of a run; what it kept is dropped.
fn status_of(conducted: Conducted) -> u8
    ensures { result ≡ conducted.status }
{
    let Conducted {
        status,
        kept,
        tally,
        seats,
    } = conducted;
    status_without(status, kept, tally, seats)
}

/// Generic, since dropping a value of a type parameter is one proof step.
fn status_without<R: Drop, T: Drop, S: Drop>(status: u8, _kept: R, _tally: T, _seats: S) -> u8
    ensures { result ≡ status }
{
    status
}

/// What the words and the text of the source come to.
fn conduct<S: Source>(alloc: Global, words: &[String], source: &mut S) -> Said
    // The outcome.
    ensures comes { Comes (command_of words.now) (S.left source.old) (S.faults source.old)
        (S.faults source.new) result }
    ensures unread { limit_in (command_of words.now) ≡ None → source.new ≡ source.old }
    ensures judged { IfSome (limit_in (command_of words.now))
        (λ limit. IsJudged limit (S.left source.old) (S.left source.new) result) }
    // What was read for it.
    ensures taken { TakesAtMost (most_taken (limit_in (command_of words.now))) (S.left source.old)
        (S.left source.new) }
    ensures faults { S.faults source.old ≤ S.faults source.new }
    ensures calm { ReadsWell (S.faults source.old) (S.faults source.new) result }
{
    match command_of(words) {
        Some(Command::Told(task)) => conduct_told(alloc, task, source),
        Some(Command::Explain) => conduct_explain(alloc, source),
        Some(Command::Gen(count)) => words::generate::generate(alloc, count),
        None => Said::OtherWords,
    }
}

/// What a task makes of the text of the source.
#[tactic(auto, using(crate::proofs::TooLong::too_long))]
fn conduct_told<S: Source>(alloc: Global, task: Task, source: &mut S) -> Said
    ensures comes { Comes (Some (Command.Told task)) (S.left source.old) (S.faults source.old)
        (S.faults source.new) result }
    ensures judged { IsJudged text_limit (S.left source.old) (S.left source.new) result }
    ensures taken { TakesAtMost (text_limit + 1) (S.left source.old) (S.left source.new) }
    ensures faults { S.faults source.old ≤ S.faults source.new }
    ensures calm { ReadsWell (S.faults source.old) (S.faults source.new) result }
{
    match read_text(alloc, TEXT_LIMIT, source) {
        Ok(text) => carry_out(alloc, task, &text),
        Err(TextError::TooLong) => Said::NoScenario(0),
        Err(TextError::Failed) => Said::ReadFault,
        Err(TextError::InsufficientMemory) => Said::NoMemory,
    }
}

/// What the messages in the text of the source say.
fn conduct_explain<S: Source>(alloc: Global, source: &mut S) -> Said
    ensures comes { Comes (Some Command.Explain) (S.left source.old) (S.faults source.old)
        (S.faults source.new) result }
    ensures judged { IsJudged explain_limit (S.left source.old) (S.left source.new) result }
    ensures taken { TakesAtMost (explain_limit + 1) (S.left source.old) (S.left source.new) }
    ensures faults { S.faults source.old ≤ S.faults source.new }
    ensures calm { ReadsWell (S.faults source.old) (S.faults source.new) result }
{
    match read_text(alloc, EXPLAIN_LIMIT, source) {
        Ok(text) => words::explain::explain_bytes(alloc, &text),
        Err(TextError::TooLong) => Said::NoText,
        Err(TextError::Failed) => Said::ReadFault,
        Err(TextError::InsufficientMemory) => Said::NoMemory,
    }
}

/// What a task makes of a scenario text.
fn carry_out(alloc: Global, task: Task, text: &[u8]) -> Said
    ensures { CarriesOut task text.now result }
{
    match Scenario::parse(alloc, task.purpose(), text) {
        Ok(scenario) => words::conduct(alloc, task, scenario),
        Err(ScenarioError::Line(line)) => Said::NoScenario(line),
        Err(ScenarioError::InsufficientMemory) => Said::NoMemory,
    }
}

/// Writes what is said.
fn tell<W: Sink>(alloc: Global, sink: &mut W, said: Said) -> Conducted
    ensures kept { result ≡ conducted_as result.status said }
    ensures written { Written (said_status said) (said_text said) (W.written sink.old)
        (W.written sink.new)
        (W.faults sink.old) (W.faults sink.new) result.status }
    ensures clean { (result.status ≡ 4 → ⊥) → W.faults sink.new ≡ W.faults sink.old }
    ensures faults { W.faults sink.old ≤ W.faults sink.new }
{
    match said {
        Said::Done(conducted, text) => tell_done(sink, conducted, &text),
        Said::NoScenario(line) => Conducted::nothing(tell_line(alloc, sink, line)),
        Said::NoText => Conducted::nothing(write_text(sink, b"error: text\n", status::NO_SCENARIO)),
        Said::ReadFault => Conducted::nothing(write_text(
            sink,
            b"error: read\n",
            status::READ_FAULT,
        )),
        Said::OtherWords => Conducted::nothing(write_text(
            sink,
            b"error: words\n",
            status::OTHER_WORDS,
        )),
        Said::NoMemory => Conducted::nothing(status::NO_MEMORY),
    }
}

/// Writes the text that is due for what is kept.
fn tell_done<W: Sink>(sink: &mut W, conducted: Conducted, text: &[u8]) -> Conducted
    ensures kept { result ≡ with_status result.status conducted }
    ensures written { Written conducted.status text.now (W.written sink.old) (W.written sink.new)
        (W.faults sink.old) (W.faults sink.new)
        result.status }
    ensures clean { (result.status ≡ 4 → ⊥) → W.faults sink.new ≡ W.faults sink.old }
    ensures faults { W.faults sink.old ≤ W.faults sink.new }
{
    let mut told = conducted;
    told.status = write_text(sink, text, told.status);
    told
}

/// Names a faulty line.
fn tell_line<W: Sink>(alloc: Global, sink: &mut W, line: usize) -> u8
    ensures written { Written 2 (line_text line) (W.written sink.old) (W.written sink.new)
        (W.faults sink.old) (W.faults sink.new) result }
    ensures clean { (result ≡ 4 → ⊥) → W.faults sink.new ≡ W.faults sink.old }
    ensures faults { W.faults sink.old ≤ W.faults sink.new }
{
    match line_text(alloc, line) {
        Ok(text) => write_text(sink, text.as_bytes(), status::NO_SCENARIO),
        Err(_) => status::NO_MEMORY,
    }
}

fn line_text(alloc: Global, line: usize) -> Result<String, AllocError>
    ensures { IfOk result (λ text. string_bytes text ≡ line_text line) }
{
    format!(in alloc; "error: scenario line {line}\n")
}

/// Writes a text. The status is the text's own, if all of it was written.
fn write_text<W: Sink>(sink: &mut W, text: &[u8], own: u8) -> u8
    ensures written { Written own text.now (W.written sink.old) (W.written sink.new)
        (W.faults sink.old) (W.faults sink.new) result }
    ensures clean { (result ≡ 4 → ⊥) → W.faults sink.new ≡ W.faults sink.old }
    ensures faults { W.faults sink.old ≤ W.faults sink.new }
{
    match write_all(sink, text) {
        Ok(()) => own,
        Err(WireKind::InsufficientMemory) => status::NO_MEMORY,
        Err(_) => status::WRITE_FAULT,
    }
}
