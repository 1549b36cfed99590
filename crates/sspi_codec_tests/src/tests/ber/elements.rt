//! Elements with their octets, written and read.

use crate::tests::checks::{holds, is};
use sspi_ber::{
    Pc, SliceSource, Tag, VecSink, WireKind, read_contextual_tag, read_contextual_tag_or_absent,
    read_octet_string_tag, read_sequence_tag, write_contextual_tag, write_octet_string,
    write_octet_string_tag, write_sequence_octet_string, write_sequence_tag, write_universal_tag,
};
use std::process::Abort;

/// A header of a SEQUENCE of 65536 bytes; one of the primitive context-specific tag 4, of 240; the
/// text `hello` in the tag 3; the octet of an ENUMERATED, constructed; the text `hi`; a header of
/// an OCTET STRING of 3; and the tag 1 with no content.
const ELEMENTS: [u8; 26] = [
    0x30, 0x83, 0x01, 0x00, 0x00, 0x84, 0x81, 0xf0, 0xa3, 0x07, 0x04, 0x05, 0x68, 0x65, 0x6c, 0x6c,
    0x6f, 0x2a, 0x04, 0x02, 0x68, 0x69, 0x04, 0x03, 0xa1, 0x00,
];

fn wrote(rt: &impl Abort, size: Result<usize, WireKind>, expected: usize) {
    is(rt, size, Ok(expected));
}

// Only the low five bits of a tag's number count.
#[test]
fn elements_are_written(rt: HostRuntime) {
    let mut sink = VecSink::new(rt.alloc());
    wrote(&rt, write_sequence_tag(&mut sink, 0x1_0000), 5);
    wrote(
        &rt,
        write_contextual_tag(&mut sink, 4, 0xf0, Pc::Primitive),
        3,
    );
    wrote(&rt, write_sequence_octet_string(&mut sink, 3, b"hello"), 9);
    wrote(
        &rt,
        write_universal_tag(&mut sink, Tag::Enumerated, Pc::Construct),
        1,
    );
    wrote(&rt, write_octet_string(&mut sink, b"hi"), 4);
    wrote(&rt, write_octet_string_tag(&mut sink, 3), 2);
    wrote(
        &rt,
        write_contextual_tag(&mut sink, 0x21, 0, Pc::Construct),
        2,
    );
    holds(&rt, sink.written() == ELEMENTS.as_slice(), "other elements");
}

fn read(rt: &impl Abort, len: Result<u32, WireKind>, expected: Result<u32, WireKind>) {
    is(rt, len, expected);
}

fn read_or_absent(rt: &impl Abort, len: Result<Option<u32>, WireKind>, expected: Option<u32>) {
    is(rt, len, Ok(expected));
}

#[test]
fn elements_are_read(rt: HostRuntime) {
    let mut source = SliceSource::new(&ELEMENTS);
    read(&rt, read_sequence_tag(&mut source), Ok(0x1_0000));
    read(
        &rt,
        read_contextual_tag(&mut source, 0x24, Pc::Primitive),
        Ok(0xf0),
    );
    read_or_absent(
        &rt,
        read_contextual_tag_or_absent(&mut source, 2, Pc::Construct),
        None,
    );
    read_or_absent(
        &rt,
        read_contextual_tag_or_absent(&mut source, 3, Pc::Construct),
        Some(7),
    );
    read(&rt, read_octet_string_tag(&mut source), Ok(5));
    is(&rt, source.take(6).map(|bytes| bytes.len()), Ok(6));
    read(&rt, read_octet_string_tag(&mut source), Ok(2));
    read(
        &rt,
        read_sequence_tag(&mut source),
        Err(WireKind::InvalidData),
    );
}
