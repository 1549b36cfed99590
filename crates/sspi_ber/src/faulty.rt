//! A source and a sink that fail at a chosen call, for tests.

ghost use Rattle.std.specs.Prelude.{◌≡◌, ◌↔◌, ◌<◌, ◌≤◌, [], length, IfOk, IsErrOf};
ghost use Rattle.std.specs.Io.KnownBytes.{ReadConsumes, WriteAppends};
ghost use Rattle.sspi_types.specs.Counting.{Counts};
ghost use Rattle.sspi_ber.specs.Outside.{NextConsumes, SourceCause, SinkCause};

use crate::sink::{Sink, SinkError};
use crate::slice_source::SliceSource;
use crate::source::{Source, SourceError};
use crate::vec_sink::VecSink;
use std::alloc::Global;

/// A source over bytes in memory whose call numbered `failing`, counted from 0, fails. For tests.
#[derive(Drop)]
pub struct FaultySource<'a> {
    /// What it reads from.
    pub source: SliceSource<'a>,
    /// The number of the call that fails.
    pub failing: u64,
    /// How many calls there were, up to `u64::MAX`.
    pub calls: u64,
    /// How many of them failed, up to `u64::MAX`.
    pub faults: u64,
}

impl<'a> FaultySource<'a> {
    /// A source of these bytes that has not been called.
    pub fn new(bytes: &'a [u8], failing: u64) -> FaultySource<'a>
        ensures { result ≡ record { source = bytes.now; failing = failing; calls = 0; faults = 0 } }
    {
        FaultySource {
            source: SliceSource::new(bytes),
            failing,
            calls: 0,
            faults: 0,
        }
    }
}

impl Source for FaultySource<'_> {
    ghost use Rattle.std.specs.Prelude.{Some};

    ghost left = { λ source. Some source.source };

    ghost faults = { λ source. source.faults };

    /// Fails exactly when the number of this call is `failing`.
    fn read(&mut self, into: &mut [u8]) -> Result<usize, SourceError>
        // What a source promises.
        ensures bound { IfOk result (λ count. count ≤ length into.new) }
        ensures bytes { ReadConsumes (Some self.old.source) (Some self.new.source) result into.new }
        ensures cause { SourceCause self.old.faults self.new.faults result }
        // Which call fails.
        ensures fails { IsErrOf result SourceError.Failed ↔ (self.old.calls ≡ self.old.failing) }
        ensures calls { Counts self.old.calls self.new.calls }
        ensures failing { self.new.failing ≡ self.old.failing }
    {
        let call = self.calls;
        self.calls = call.saturating_add(1);
        if call == self.failing {
            self.faults = self.faults.saturating_add(1);
            return Err(SourceError::Failed);
        }
        self.source.read(into)
    }

    /// A call like `read`, of one byte.
    fn next_byte(&mut self) -> Result<Option<u8>, SourceError>
        // What a source promises.
        ensures bytes { NextConsumes (Some self.old.source) (Some self.new.source) result }
        ensures cause { SourceCause self.old.faults self.new.faults result }
        // Which call fails.
        ensures fails { IsErrOf result SourceError.Failed ↔ (self.old.calls ≡ self.old.failing) }
        ensures calls { Counts self.old.calls self.new.calls }
        ensures failing { self.new.failing ≡ self.old.failing }
    {
        let mut byte = [0u8];
        if self.read(&mut byte)? == 0 {
            return Ok(None);
        }
        Ok(Some(byte[0]))
    }
}

/// A sink in memory whose call numbered `failing`, counted from 0, fails. For tests.
#[derive(Drop)]
pub struct FaultySink {
    /// What it writes to.
    pub sink: VecSink,
    /// The number of the call that fails.
    pub failing: u64,
    /// How many calls there were, up to `u64::MAX`.
    pub calls: u64,
    /// How many of them failed, up to `u64::MAX`.
    pub faults: u64,
}

impl FaultySink {
    /// A sink that has not been called.
    pub fn new(alloc: Global, failing: u64) -> FaultySink
        ensures { result ≡ record { sink = []; failing = failing; calls = 0; faults = 0 } }
    {
        FaultySink {
            sink: VecSink::new(alloc),
            failing,
            calls: 0,
            faults: 0,
        }
    }

    /// What was written so far.
    pub fn written(&self) -> &[u8]
        ensures { result.now ≡ self.now.sink }
    {
        self.sink.written()
    }
}

impl Sink for FaultySink {
    ghost use Rattle.std.specs.Prelude.{Some};

    ghost written = { λ sink. Some sink.sink };

    ghost faults = { λ sink. sink.faults };

    /// Fails exactly when the number of this call is `failing`.
    fn write(&mut self, piece: &[u8]) -> Result<usize, SinkError>
        // What a sink promises.
        ensures bound { IfOk result (λ count. count ≤ length piece.now) }
        ensures some { 0 < length piece.now → IfOk result (λ count. 0 < count) }
        ensures bytes { WriteAppends (Some self.old.sink) (Some self.new.sink) result piece.now }
        ensures cause { SinkCause self.old.faults self.new.faults result }
        // Which call fails.
        ensures fails { IsErrOf result SinkError.Failed ↔ (self.old.calls ≡ self.old.failing) }
        ensures calls { Counts self.old.calls self.new.calls }
        ensures failing { self.new.failing ≡ self.old.failing }
    {
        let call = self.calls;
        self.calls = call.saturating_add(1);
        if call == self.failing {
            self.faults = self.faults.saturating_add(1);
            return Err(SinkError::Failed);
        }
        self.sink.write(piece)
    }
}
