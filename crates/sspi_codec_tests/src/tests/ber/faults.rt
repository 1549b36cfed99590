//! A source and a sink that fail at each call in turn.

use crate::tests::checks::{holds, is};
use sspi_ber::{
    FaultySink, FaultySource, WireKind, read_length, read_sequence_tag, write_length,
    write_octet_string,
};

// A source that fails inside an element, and goes on afterwards.
#[test]
fn a_failing_source(rt: HostRuntime) {
    let mut source = FaultySource::new(&[0x30, 0x82, 0x01, 0x00, 0x05], 2);
    is(
        &rt,
        read_sequence_tag(&mut source),
        Err(WireKind::ReadFault),
    );
    is(&rt, read_length(&mut source), Ok(1));
}

// A sink that fails inside an element, and goes on afterwards.
#[test]
fn a_failing_sink(rt: HostRuntime) {
    let mut sink = FaultySink::new(rt.alloc(), 1);
    let size = write_octet_string(&mut sink, b"hi");
    is(&rt, size, Err(WireKind::WriteFault));
    is(&rt, write_length(&mut sink, 5), Ok(1));
    holds(
        &rt,
        sink.written() == [0x04, 0x02, 0x05].as_slice(),
        "another text",
    );
}
