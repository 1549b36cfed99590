//! Runs one end of a scenario over a channel, and reports its outcome.

ghost use Rattle.sspi_channel.specs.Ended.{EndsAs, EndsFile, Says, file_error};
ghost use Rattle.sspi_channel.specs.Saying.{SaysMade};
ghost use Rattle.sspi_channel.specs.Delegating.{counted_channel};
ghost use Rattle.sspi_channel.specs.Texts.{error_text};
ghost use Rattle.sspi_channel.specs.Statuses.{error_status};
ghost use Rattle.sspi_scenario.specs.Reading.{TakesAtMost, text_limit};
ghost use Rattle.std.specs.Prelude.{◌≡◌, ◌+◌};

use crate::answer::{ChannelError, connect_status, error_status, serve_status};
use crate::by_fault::without;
use crate::connecting::connect_scenario;
use crate::counted::Counted;
use crate::line::{connect_line, error_text, serve_line};
use crate::serving::serve_scenario;
use sspi_ber::{Sink, Source, write_all};
use sspi_credssp::End;
use sspi_scenario::{TEXT_LIMIT, TextError, read_text};
use std::alloc::{AllocError, Global};

/// Runs this end of the scenario of a text over a channel, writes the line of its outcome to
/// `told`, and returns the exit status.
///
/// The status is 0 if the delegation succeeded, and the user may log on if that was told or heard;
/// 2 if the text is no scenario for this end; 3 if `source` failed; 4 if `sink` failed; 5 if memory
/// ran out; and otherwise 1. Nothing of the line goes to `sink`; a line that cannot be written does
/// not change the status.
pub fn end_scenario<S: Source, W: Sink, T: Sink>(
    alloc: Global,
    end: End,
    text: &[u8],
    source: &mut Counted<S>,
    sink: &mut Counted<W>,
    told: &mut T,
) -> u8
    ensures { EndsAs end text.now (counted_channel S.left W.written source.old sink.old)
        (counted_channel S.left W.written source.new sink.new) (T.written told.old)
        (T.written told.new) result }
{
    match end {
        End::Server => {
            let answer = serve_scenario(alloc, text, source, sink);
            say(told, serve_line(alloc, &answer));
            let status = serve_status(&answer);
            without(answer, status)
        }
        End::Client => {
            let answer = connect_scenario(alloc, text, source, sink);
            say(told, connect_line(alloc, &answer));
            connect_status(&answer)
        }
    }
}

/// Runs this end of the scenario in the text of `file`, as `end_scenario` does.
///
/// The text is all that is left of `file`, at most `TEXT_LIMIT` bytes. Otherwise nothing of the
/// channel is read or written: the status is 2 if more bytes are left, of which only one past the
/// limit is read; 3 if `file` failed; and 5 if there was no memory for the text.
pub fn end_of_file<F: Source, S: Source, W: Sink, T: Sink>(
    alloc: Global,
    end: End,
    file: &mut F,
    source: &mut Counted<S>,
    sink: &mut Counted<W>,
    told: &mut T,
) -> u8
    ensures ends { EndsFile end (F.left file.old) (F.faults file.old) (F.faults file.new)
        (counted_channel S.left W.written source.old sink.old)
        (counted_channel S.left W.written source.new sink.new)
        (T.written told.old) (T.written told.new) result }
    ensures taken { TakesAtMost (text_limit + 1) (F.left file.old) (F.left file.new) }
{
    match read_text(alloc, TEXT_LIMIT, file) {
        Ok(text) => end_scenario(alloc, end, &text, source, sink, told),
        Err(error) => end_without(alloc, file_error(error), told),
    }
}

/// Why a file gave no text.
fn file_error(error: TextError) -> ChannelError
    ensures { result ≡ file_error error }
{
    match error {
        TextError::TooLong => ChannelError::Scenario(0),
        TextError::Failed => ChannelError::ReadFault,
        TextError::InsufficientMemory => ChannelError::InsufficientMemory,
    }
}

/// What the program does if there is no text, for this reason: it says so, and returns the status.
pub fn end_without<T: Sink>(alloc: Global, error: ChannelError, told: &mut T) -> u8
    ensures status { result ≡ error_status error }
    ensures says { Says (error_text error) (T.written told.old) (T.written told.new) }
{
    say(told, error_text(alloc, error));
    error_status(error)
}

/// Writes a line, if there was memory for it.
fn say<T: Sink>(told: &mut T, line: Result<Vec<u8>, AllocError>)
    ensures { SaysMade line (T.written told.old) (T.written told.new) }
{
    match line {
        Ok(line) => write_line(told, &line),
        Err(_) => {}
    }
}

fn write_line<T: Sink>(told: &mut T, line: &[u8])
    ensures { Says line.now (T.written told.old) (T.written told.new) }
{
    let _written = write_all(told, line);
}
