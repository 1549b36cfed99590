//! A source over a reader of std.

ghost use Rattle.std.specs.Prelude.{◌≡◌};

use crate::source::{Source, SourceError};
use std::io::Read;

/// A source over std's reader. It exposes the bytes that the reader exposes, and makes at most one
/// read per call. Each error of the reader, an interruption too, counts as a fault.
#[derive(Drop)]
pub struct StdSource<R> {
    reader: R,
    faults: u64,
}

impl<R: Read> StdSource<R> {
    /// A source over this reader that never failed.
    pub fn new(reader: R) -> StdSource<R>
        ensures faults { ⟦<StdSource<R> as Source>⟧.faults result ≡ 0 }
        ensures left { ⟦<StdSource<R> as Source>⟧.left result ≡ R.remaining reader }
    {
        StdSource { reader, faults: 0 }
    }
}

impl<R: Read> Source for StdSource<R> {
    ghost left = { λ source. R.remaining source.reader };

    ghost faults = { λ source. source.faults };

    fn read(&mut self, into: &mut [u8]) -> Result<usize, SourceError> {
        match self.reader.read(into) {
            Ok(count) => Ok(count),
            Err(_) => {
                self.faults = self.faults.saturating_add(1);
                Err(SourceError::Failed)
            }
        }
    }
}
