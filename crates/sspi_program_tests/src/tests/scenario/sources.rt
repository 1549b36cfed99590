//! Texts from sources of every length, and from one that fails.

use crate::tests::scenario::checks::given;
use sspi_ber::{FaultySource, SliceSource, Source};
use sspi_scenario::{TEXT_LIMIT, TextError, read_text};
use std::alloc::Global;
use std::process::Abort;

fn length_read<S: Source>(alloc: Global, source: &mut S) -> Result<usize, TextError> {
    Ok(read_text(alloc, TEXT_LIMIT, source)?.len())
}

/// This many letters.
fn letters(rt: &impl Abort, alloc: Global, length: usize) -> Vec<u8> {
    given(rt, vec![in alloc; b'a'; length])
}

/// The text of a source of these letters.
fn reads(rt: &impl Abort, alloc: Global, letters: &[u8], read: Result<usize, TextError>) {
    let mut source = SliceSource::new(letters);
    assert_eq!(rt; length_read(alloc, &mut source), read);
}

// Lengths around that of a piece, and the limit of 1 MiB.
#[test]
fn a_source_is_read_to_its_end(rt: HostRuntime) {
    for length in [0, 1, 1024, 1025, 1_048_576] {
        let letters = letters(&rt, rt.alloc(), length);
        reads(&rt, rt.alloc(), &letters, Ok(length));
    }
    let letters = letters(&rt, rt.alloc(), 1_048_577);
    reads(&rt, rt.alloc(), &letters, Err(TextError::TooLong));
}

/// The text of a source of these letters whose call of this number fails.
fn reads_of_failing(
    rt: &impl Abort,
    alloc: Global,
    letters: &[u8],
    failing: u64,
    read: Result<usize, TextError>,
) {
    let mut source = FaultySource::new(letters, failing);
    assert_eq!(rt; length_read(alloc, &mut source), read);
}

// Calls 0 to 9 give some bytes, and call 10 finds the end.
#[test]
fn a_fault_in_mid_stream_is_told(rt: HostRuntime) {
    let letters = letters(&rt, rt.alloc(), 10_000);
    for failing in [0, 9, 10] {
        reads_of_failing(&rt, rt.alloc(), &letters, failing, Err(TextError::Failed));
    }
    reads_of_failing(&rt, rt.alloc(), &letters, 11, Ok(10_000));
}
