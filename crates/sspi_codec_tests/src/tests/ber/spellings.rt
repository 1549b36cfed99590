//! Lengths and integers with their octets, at the ends of each form.

use crate::tests::checks::{comes, given, halves, holds};
use sspi_ber::{
    SliceSource, VecSink, WireKind, read_integer, read_length, read_sequence_tag, sizeof_integer,
    sizeof_length, write_integer, write_length, write_sequence_tag,
};
use std::alloc::Global;
use std::process::Abort;

/// Lengths (X.690 8.1.3.4, 8.1.3.5), the header of a SEQUENCE and integers (X.690 8.3), at the ends
/// of each form. `length`, `sequence` and `integer` are encoded so and read back; `long-` forms are
/// only read, and `bad-` ones are refused. The bytes are in hex; a dot means none.
const SPELLINGS: &str = "\
length 0 00
length 127 7f
length 128 8180
length 255 81ff
length 256 820100
length 625 820271
length 65531 82fffb
length 65532 82fffc
length 65535 82ffff
length 65536 83010000
length 1048575 830fffff
length 1048576 83100000
sequence 256 30820100
long-length 0 8100
long-length 0 820000
long-length 0 83000000
long-length 127 817f
long-length 127 82007f
long-length 127 8300007f
long-length 128 820080
long-length 255 8200ff
long-length 255 830000ff
long-length 256 83000100
long-length 65535 8300ffff
bad-length invalid 83100001
bad-length invalid 83ffffff
bad-length invalid 80
bad-length invalid 84
bad-length invalid 8400000001
bad-length invalid 8a01
bad-length invalid ff
bad-length end .
bad-length end 81
bad-length end 82ff
bad-length end 83
bad-length end 83ffff
integer 0 020100
integer 127 02017f
integer 128 02020080
integer 32767 02027fff
integer 32768 0203008000
integer 524288 0203080000
integer 8388607 02037fffff
integer 8388608 020400800000
integer 4294967295 0204ffffffff
long-integer 128 020180
long-integer 7 0282000107
long-integer 7 028300000107
long-integer 258 02810400000102
long-integer 72623859790382856 02080102030405060708
long-integer 18446744073709551615 0208ffffffffffffffff
bad-integer invalid 0200
bad-integer invalid 0205
bad-integer invalid 020679
bad-integer invalid 0209
bad-integer invalid 0283000006
bad-integer invalid 0284
bad-integer invalid 040100
bad-integer end 0204000000
bad-integer end 02";

#[test]
fn spellings_are_written_and_read(rt: HostRuntime) {
    for line in SPELLINGS.lines() {
        try_line(&rt, rt.alloc(), line);
    }
}

fn try_line(rt: &impl Abort, alloc: Global, line: &str) {
    let (verb, rest) = halves(rt, line);
    let (value, digits) = halves(rt, rest);
    let digits = if digits == "." { "" } else { digits };
    let bytes = given(rt, hex::decode(alloc, digits));
    try_bytes(rt, alloc, line, verb, value, &bytes);
}

fn try_bytes(rt: &impl Abort, alloc: Global, line: &str, verb: &str, value: &str, bytes: &[u8]) {
    match verb {
        "length" => spells_length(rt, alloc, line, number(value) as usize, bytes),
        "sequence" => spells_sequence(rt, alloc, line, number32(value), bytes),
        "long-length" => reads_length(rt, line, number(value), bytes),
        "bad-length" => refuses_length(rt, line, kind(value), bytes),
        "integer" => spells_integer(rt, alloc, line, number32(value), bytes),
        "long-integer" => reads_integer(rt, line, number(value), bytes),
        "bad-integer" => refuses_integer(rt, line, kind(value), bytes),
        _ => holds(rt, false, line),
    }
}

// 7 if the text is not a number; no line has such a text.
fn number(text: &str) -> u64 {
    text.parse().unwrap_or(7)
}

fn number32(text: &str) -> u32 {
    text.parse().unwrap_or(7)
}

fn kind(text: &str) -> WireKind {
    match text {
        "end" => WireKind::UnexpectedEof,
        _ => WireKind::InvalidData,
    }
}

fn spells_length(rt: &impl Abort, alloc: Global, line: &str, len: usize, spelled: &[u8]) {
    let mut sink = VecSink::new(alloc);
    comes(rt, line, write_length(&mut sink, len), Ok(spelled.len()));
    holds(rt, sink.written() == spelled, line);
    comes(rt, line, sizeof_length(len), Ok(spelled.len()));
    reads_length(rt, line, len as u64, spelled);
}

fn reads_length(rt: &impl Abort, line: &str, len: u64, bytes: &[u8]) {
    let mut source = SliceSource::new(bytes);
    let read = read_length(&mut source);
    comes(rt, line, read.map(|read| u64::from(read)), Ok(len));
    holds(rt, source.rest().is_empty(), line);
}

fn spells_sequence(rt: &impl Abort, alloc: Global, line: &str, len: u32, spelled: &[u8]) {
    let mut sink = VecSink::new(alloc);
    let size = write_sequence_tag(&mut sink, len as usize);
    comes(rt, line, size, Ok(spelled.len()));
    holds(rt, sink.written() == spelled, line);
    let mut source = SliceSource::new(spelled);
    comes(rt, line, read_sequence_tag(&mut source), Ok(len));
}

fn refuses_length(rt: &impl Abort, line: &str, kind: WireKind, bytes: &[u8]) {
    let mut source = SliceSource::new(bytes);
    comes(rt, line, read_length(&mut source), Err(kind));
}

fn spells_integer(rt: &impl Abort, alloc: Global, line: &str, value: u32, spelled: &[u8]) {
    let mut sink = VecSink::new(alloc);
    comes(rt, line, write_integer(&mut sink, value), Ok(spelled.len()));
    holds(rt, sink.written() == spelled, line);
    comes(rt, line, sizeof_integer(value), spelled.len());
    reads_integer(rt, line, u64::from(value), spelled);
}

fn reads_integer(rt: &impl Abort, line: &str, value: u64, bytes: &[u8]) {
    let mut source = SliceSource::new(bytes);
    comes(rt, line, read_integer(&mut source), Ok(value));
}

fn refuses_integer(rt: &impl Abort, line: &str, kind: WireKind, bytes: &[u8]) {
    let mut source = SliceSource::new(bytes);
    comes(rt, line, read_integer(&mut source), Err(kind));
}
