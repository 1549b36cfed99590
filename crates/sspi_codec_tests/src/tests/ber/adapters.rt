//! Sources and sinks over readers and writers of std, whole and failing.

use crate::tests::checks::{holds, is};
use sspi_ber::{
    Sink, SinkError, Source, SourceError, StdSink, StdSource, WireKind, read_integer, read_length,
    write_integer, write_octet_string,
};
use std::alloc::Global;
use std::io::{self, Cursor, Read, Write};
use std::process::Abort;

/// Gives its bytes one at a time, except for one call, which fails.
#[derive(Drop)]
struct FlakyReader<'a> {
    text: &'a [u8],
    at: usize,
    calls: usize,
    failing: usize,
}

impl Read for FlakyReader<'_> {
    fn read(&mut self, buf: &mut [u8]) -> io::Result<usize> {
        let call = self.calls;
        self.calls = call.saturating_add(1);
        if call == self.failing {
            return Err(io::Error::from(io::ErrorKind::BrokenPipe));
        }
        match (self.text.get(self.at), buf.first_mut()) {
            (Some(byte), Some(place)) => {
                *place = *byte;
                self.at = self.at.saturating_add(1);
                Ok(1)
            }
            _ => Ok(0),
        }
    }
}

fn flaky(text: &[u8], failing: usize) -> StdSource<FlakyReader<'_>> {
    StdSource::new(FlakyReader {
        text,
        at: 0,
        calls: 0,
        failing,
    })
}

fn reads(rt: &impl Abort, read: Result<u64, WireKind>, expected: Result<u64, WireKind>) {
    is(rt, read, expected);
}

// A reader that fails before the first byte, inside an element, and where nothing is left: no
// failure counts as the end.
#[test]
fn a_reader_that_fails(rt: HostRuntime) {
    let text = [0x02, 0x01, 0x2a];
    let mut first = flaky(&text, 0);
    reads(&rt, read_integer(&mut first), Err(WireKind::ReadFault));
    reads(&rt, read_integer(&mut first), Ok(42));
    let mut inside = flaky(&text, 2);
    reads(&rt, read_integer(&mut inside), Err(WireKind::ReadFault));
    is(&rt, read_length(&mut inside), Ok(42));
    let mut behind = flaky(&text, 3);
    reads(&rt, read_integer(&mut behind), Ok(42));
    reads(&rt, read_integer(&mut behind), Err(WireKind::ReadFault));
    reads(&rt, read_integer(&mut behind), Err(WireKind::UnexpectedEof));
}

// The calls of a source, too: a failure takes nothing, and the end is reported as 0.
#[test]
fn a_source_over_a_reader_that_fails(rt: HostRuntime) {
    let mut source = flaky(&[7, 9], 1);
    let mut into = [0; 4];
    is(&rt, source.read(&mut into), Ok(1));
    is(&rt, source.read(&mut into), Err(SourceError::Failed));
    is(&rt, source.next_byte(), Ok(Some(9)));
    is(&rt, source.next_byte(), Ok(None));
    is(&rt, source.read(&mut into), Ok(0));
}

/// Takes at most `most` bytes per call, fails at one call, and keeps what it took.
#[derive(Drop)]
struct ChoppyWriter {
    taken: Vec<u8>,
    most: usize,
    calls: usize,
    failing: usize,
}

impl Write for ChoppyWriter {
    fn write(&mut self, buf: &[u8]) -> io::Result<usize> {
        let call = self.calls;
        self.calls = call.saturating_add(1);
        if call == self.failing {
            return Err(io::Error::from(io::ErrorKind::BrokenPipe));
        }
        let count = buf.len().min(self.most);
        self.taken.extend_from_slice(&buf[..count])?;
        Ok(count)
    }

    fn flush(&mut self) -> io::Result<()> {
        Ok(())
    }
}

fn choppy(alloc: Global, most: usize, failing: usize) -> ChoppyWriter {
    ChoppyWriter {
        taken: Vec::new(alloc),
        most,
        calls: 0,
        failing,
    }
}

fn took(rt: &impl Abort, writer: &ChoppyWriter, expected: &[u8]) {
    holds(rt, writer.taken.as_slice() == expected, "it took others");
}

fn wrote(rt: &impl Abort, size: Result<usize, WireKind>, expected: Result<usize, WireKind>) {
    is(rt, size, expected);
}

const HELLO: [u8; 7] = [0x04, 0x05, 0x68, 0x65, 0x6c, 0x6c, 0x6f];

// A writer that takes one byte per call gets all of them, in order.
#[test]
fn a_writer_that_takes_one_byte(rt: HostRuntime) {
    let mut writer = choppy(rt.alloc(), 1, 99);
    wrote(
        &rt,
        write_octet_string(&mut StdSink::new(&mut writer), b"hello"),
        Ok(7),
    );
    took(&rt, &writer, &HELLO);
    is(&rt, writer.calls, 7);
}

// So does a writer that takes more, whatever its pieces.
#[test]
fn a_writer_that_takes_three_bytes(rt: HostRuntime) {
    let mut writer = choppy(rt.alloc(), 3, 99);
    wrote(
        &rt,
        write_octet_string(&mut StdSink::new(&mut writer), b"hello"),
        Ok(7),
    );
    took(&rt, &writer, &HELLO);
}

// A writer that takes none of a nonempty piece has failed, and is not called forever.
#[test]
fn a_writer_that_takes_nothing(rt: HostRuntime) {
    let mut writer = choppy(rt.alloc(), 0, 99);
    wrote(
        &rt,
        write_integer(&mut StdSink::new(&mut writer), 42),
        Err(WireKind::WriteFault),
    );
    took(&rt, &writer, &[]);
    is(&rt, writer.calls, 1);
    is(
        &rt,
        StdSink::new(&mut writer).write(&[1]),
        Err(SinkError::Failed),
    );
    is(&rt, StdSink::new(&mut writer).write(&[]), Ok(0));
}

// A writer that fails inside an element: what it took is a prefix of the element.
#[test]
fn a_writer_that_fails(rt: HostRuntime) {
    let mut writer = choppy(rt.alloc(), 1, 3);
    wrote(
        &rt,
        write_octet_string(&mut StdSink::new(&mut writer), b"hello"),
        Err(WireKind::WriteFault),
    );
    took(&rt, &writer, &[0x04, 0x05, 0x68]);
    wrote(
        &rt,
        write_integer(&mut StdSink::new(&mut writer), 42),
        Ok(3),
    );
    took(&rt, &writer, &[0x04, 0x05, 0x68, 0x02, 0x01, 0x2a]);
}

// The readers and writers of std itself.
#[test]
fn readers_and_writers_of_std(rt: HostRuntime) {
    let mut source = StdSource::new(Cursor::new([0x02, 0x01, 0x2a].as_slice()));
    reads(&rt, read_integer(&mut source), Ok(42));
    reads(&rt, read_integer(&mut source), Err(WireKind::UnexpectedEof));
    let mut bytes = Vec::new(rt.alloc());
    wrote(&rt, write_integer(&mut StdSink::new(&mut bytes), 42), Ok(3));
    holds(
        &rt,
        bytes.as_slice() == [0x02, 0x01, 0x2a].as_slice(),
        "another text",
    );
}
