//! Sizes and headers where the form of a length changes, and at the limit.

use crate::tests::checks::{comes, halves, holds, is};
use sspi_ber::{
    VecSink, WireKind, sizeof_contextual_tag, sizeof_octet_string, sizeof_sequence,
    sizeof_sequence_octet_string, sizeof_sequence_tag, write_octet_string_tag,
};
use std::alloc::Global;
use std::process::Abort;

const TOO_LONG: Result<usize, WireKind> = Err(WireKind::InvalidData);

/// Where the shortest length takes another form, and at the limit of 1048576 bytes: the length of a
/// content, the size of an element with it, and the size of an OCTET STRING of it in another
/// element; a dash if one does not fit.
const SIZES: &str = "\
0 2 4
127 129 132
128 131 134
255 258 262
256 260 264
65531 65535 65539
65532 65536 65541
65535 65539 65544
65536 65541 65546
1048571 1048576 1048581
1048572 1048577 -
1048576 1048581 -
1048577 - -
18446744073709551615 - -";

#[test]
fn sizes_of_elements(rt: HostRuntime) {
    for line in SIZES.lines() {
        has_sizes(&rt, line);
    }
}

fn has_sizes(rt: &impl Abort, line: &str) {
    let (len, sizes) = halves(rt, line);
    let (size, nested) = halves(rt, sizes);
    let len = number(len);
    comes(rt, line, sizeof_sequence(len), expected(size));
    comes(rt, line, sizeof_octet_string(len), expected(size));
    comes(
        rt,
        line,
        sizeof_sequence_octet_string(len),
        expected(nested),
    );
}

fn expected(text: &str) -> Result<usize, WireKind> {
    if text == "-" {
        TOO_LONG
    } else {
        Ok(number(text))
    }
}

// 7 if the text is not a number; no line has such a text.
fn number(text: &str) -> usize {
    text.parse().unwrap_or(7)
}

// Beyond the limit nothing is written.
#[test]
fn headers_at_the_limit(rt: HostRuntime) {
    is(&rt, sizeof_sequence_tag(65535), Ok(4));
    is(&rt, sizeof_sequence_tag(65536), Ok(5));
    is(&rt, sizeof_sequence_tag(1048576), Ok(5));
    is(&rt, sizeof_sequence_tag(1048577), TOO_LONG);
    is(&rt, sizeof_contextual_tag(0x80), Ok(3));
    is(&rt, sizeof_contextual_tag(usize::MAX), TOO_LONG);
    writes_nothing(&rt, rt.alloc(), 1048577);
}

fn writes_nothing(rt: &impl Abort, alloc: Global, len: usize) {
    let mut sink = VecSink::new(alloc);
    is(rt, write_octet_string_tag(&mut sink, len), TOO_LONG);
    holds(rt, sink.written().is_empty(), "a byte is written");
}
