//! The pieces of BER (X.690) that CredSSP and SPNEGO are encoded in: tags, lengths, integers and
//! octet strings.
//!
//! Lengths and integers are written in their shortest form, and a content past the limit is
//! refused with nothing written; each `sizeof_*` says beforehand how many bytes are written. A
//! writer that is refused later has written a proper prefix of its bytes: never all of them, which
//! is success. When reading, a length may have a longer form than it needs. A reader goes from left
//! to right and refuses at the first fault: the bytes end (`UnexpectedEof`), or a tag or a length
//! is not as it must be (`InvalidData`).
//!
//! `Source` and `Sink` are the outside world, with a count of their faults. A read or write fault
//! is reported only if that count rose or is at `u64::MAX`. After a fault of a sink, a writer
//! reports nothing else. `SliceSource` and `VecSink` work in memory, `FaultySource` and
//! `FaultySink` fail once for tests, and `StdSource` and `StdSink` wrap std's readers and writers.
#![tactic(auto)]

pub mod faulty;
pub mod identifier;
pub mod laws;
pub mod limit;
pub mod reading;
pub mod sink;
pub mod sizes;
pub mod slice_reading;
pub mod slice_source;
pub mod source;
pub mod std_sink;
pub mod std_source;
pub mod vec_sink;
pub mod wire_kind;
pub mod writing;

pub use faulty::{FaultySink, FaultySource};
pub use identifier::{Pc, Tag};
pub use limit::{MAX_CONTENT, MAX_LENGTH_OCTETS};
pub use reading::{
    read_contextual_tag, read_header, read_integer, read_length, read_octet_string_tag,
    read_sequence_tag, read_sized_header,
};
pub use sink::{Sink, SinkError};
pub use sizes::{
    size_of_element, sizeof_contextual_tag, sizeof_integer, sizeof_length, sizeof_octet_string,
    sizeof_sequence, sizeof_sequence_octet_string, sizeof_sequence_tag,
};
pub use slice_reading::{read_contextual_tag_or_absent, read_element, read_tag_or_absent};
pub use slice_source::SliceSource;
pub use source::{Source, SourceError};
pub use std_sink::StdSink;
pub use std_source::StdSource;
pub use vec_sink::VecSink;
pub use wire_kind::WireKind;
pub use writing::{
    write_all, write_contextual_tag, write_element, write_header, write_integer, write_length,
    write_octet_string, write_octet_string_tag, write_sequence_octet_string, write_sequence_tag,
    write_universal_tag, write_wrapped_octets,
};
