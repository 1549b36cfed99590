//! A source and a sink that count the calls that failed.

ghost use Rattle.std.specs.Prelude.{◌≡◌, ◌<◌, ◌≤◌, IfOk, length};
ghost use Rattle.std.specs.Io.KnownBytes.{ReadConsumes, WriteAppends};
ghost use Rattle.sspi_ber.specs.Outside.{NextConsumes, SinkCause, SourceCause};
ghost use Rattle.sspi_channel.specs.Counting.{CountsRead, CountsWrite};
ghost use Rattle.sspi_types.specs.Counting.{Counts};

use sspi_ber::{Sink, SinkError, Source, SourceError};

/// A source or a sink that counts those of its calls that failed, up to `u64::MAX`.
#[derive(Drop)]
pub struct Counted<T> {
    pub inner: T,
    pub faults: u64,
}

impl<T> Counted<T> {
    /// The same source or sink, of which no call has failed yet.
    pub fn new(inner: T) -> Counted<T>
        ensures inner { result.inner ≡ inner }
        ensures faults { result.faults ≡ 0 }
    {
        Counted { inner, faults: 0 }
    }

    /// Counts a failed call.
    fn count(&mut self)
        ensures inner { self.new.inner ≡ self.old.inner }
        ensures counts { Counts self.old.faults self.new.faults }
        ensures rises { self.old.faults ≤ self.new.faults }
    {
        self.faults = self.faults.saturating_add(1);
    }
}

impl<S: Source> Source for Counted<S> {
    ghost left = { λ counted. S.left counted.inner };

    ghost faults = { λ counted. counted.faults };

    /// A read of the inner source, counted if it failed.
    fn read(&mut self, into: &mut [u8]) -> Result<usize, SourceError>
        // What a source promises.
        ensures bound { IfOk result (λ count. count ≤ length into.new) }
        ensures bytes { ReadConsumes (S.left self.old.inner) (S.left self.new.inner) result
            into.new }
        ensures cause { SourceCause self.old.faults self.new.faults result }
        // It failed if the inner source did, and is counted once.
        ensures inner { SourceCause (S.faults self.old.inner) (S.faults self.new.inner) result }
        ensures counts { CountsRead self.old.faults self.new.faults result }
    {
        match self.inner.read(into) {
            Ok(count) => Ok(count),
            Err(SourceError::Failed) => {
                self.count();
                Err(SourceError::Failed)
            }
        }
    }

    /// The inner source's next byte; the call is counted if it failed.
    fn next_byte(&mut self) -> Result<Option<u8>, SourceError>
        // What a source promises.
        ensures bytes { NextConsumes (S.left self.old.inner) (S.left self.new.inner) result }
        ensures cause { SourceCause self.old.faults self.new.faults result }
        // It failed if the inner source did, and is counted once.
        ensures inner { SourceCause (S.faults self.old.inner) (S.faults self.new.inner) result }
        ensures counts { CountsRead self.old.faults self.new.faults result }
    {
        match self.inner.next_byte() {
            Ok(byte) => Ok(byte),
            Err(SourceError::Failed) => {
                self.count();
                Err(SourceError::Failed)
            }
        }
    }
}

impl<W: Sink> Sink for Counted<W> {
    ghost written = { λ counted. W.written counted.inner };

    ghost faults = { λ counted. counted.faults };

    /// A write to the inner sink, counted if it failed.
    fn write(&mut self, piece: &[u8]) -> Result<usize, SinkError>
        // What a sink promises.
        ensures bound { IfOk result (λ count. count ≤ length piece.now) }
        ensures some { 0 < length piece.now → IfOk result (λ count. 0 < count) }
        ensures bytes { WriteAppends (W.written self.old.inner) (W.written self.new.inner) result
            piece.now }
        ensures cause { SinkCause self.old.faults self.new.faults result }
        // It failed if the inner sink did, and is counted once.
        ensures inner { SinkCause (W.faults self.old.inner) (W.faults self.new.inner) result }
        ensures counts { CountsWrite self.old.faults self.new.faults result }
    {
        match self.inner.write(piece) {
            Ok(count) => Ok(count),
            Err(SinkError::Failed) => {
                self.count();
                Err(SinkError::Failed)
            }
            Err(SinkError::InsufficientMemory) => Err(SinkError::InsufficientMemory),
        }
    }
}
