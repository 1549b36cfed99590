//! A source that gives a few bytes at a time.

use sspi_ber::{SliceSource, Source, SourceError};

/// A source over bytes in memory, each call of which gives at most `most` bytes.
#[derive(Drop)]
pub struct Pieces<'a> {
    pub source: SliceSource<'a>,
    pub most: usize,
}

impl<'a> Pieces<'a> {
    pub fn new(bytes: &'a [u8], most: usize) -> Pieces<'a> {
        Pieces {
            source: SliceSource::new(bytes),
            most,
        }
    }
}

impl Source for Pieces<'_> {
    ghost use Rattle.std.specs.Prelude.{None};

    ghost left = { λ _. None };

    ghost faults = { λ _. 0 };

    fn read(&mut self, into: &mut [u8]) -> Result<usize, SourceError> {
        let most = self.most.min(into.len());
        self.source.read(&mut into[..most])
    }
}
