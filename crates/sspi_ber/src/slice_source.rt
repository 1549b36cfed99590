//! A source over bytes in memory, which never fails.

ghost use Rattle.std.specs.Prelude.{◌≡◌, ◌∷◌, length, IfOk, OnErr, MatchBool};
ghost use Rattle.sspi_ber.specs.Forms.{IsNotNext};
ghost use Rattle.sspi_ber.specs.Outside.{Gives, NeedsNoMemory};
ghost use Rattle.sspi_ber.specs.Pieces.{bytes_at};

use crate::source::{Source, SourceError};
use crate::wire_kind::WireKind;
use std::marker::Model;

/// A source over bytes in memory. It never fails and allocates nothing.
#[derive(Drop)]
pub struct SliceSource<'a> {
    rest: &'a [u8],
}

impl<'a> Model for SliceSource<'a> {
    ghost use Rattle.std.specs.Prelude.{ℕ, List};

    ghost Value = { List ℕ };

    ghost view = { λ source. source.rest.now };
}

impl<'a> SliceSource<'a> {
    /// A source of these bytes.
    pub fn new(bytes: &'a [u8]) -> SliceSource<'a>
        ensures { result ≡ bytes.now }
    {
        SliceSource { rest: bytes }
    }

    /// The bytes that are left.
    pub fn rest(&self) -> &'a [u8]
        ensures { result.now ≡ self.now }
    {
        self.rest
    }

    /// Takes the next byte if it is this one, otherwise nothing.
    pub fn take_if(&mut self, byte: u8) -> bool
        ensures { MatchBool result (self.old ≡ byte ∷ self.new) ((self.new ≡ self.old) ×
            IsNotNext byte self.old) }
    {
        match self.rest.split_first() {
            None => false,
            Some((first, rest)) => {
                if *first != byte {
                    return false;
                }
                self.rest = rest;
                true
            }
        }
    }

    /// The next `len` bytes. `UnexpectedEof` exactly when fewer are left, and then nothing is
    /// taken.
    #[tactic(auto, unfolding(crate::specs::Pieces::bytes_at))]
    pub fn take(&mut self, len: usize) -> Result<&'a [u8], WireKind>
        ensures read { Gives (λ bytes. bytes.now) self.new result (bytes_at len self.old) }
        ensures size { IfOk result (λ bytes. length bytes.now ≡ len) }
        ensures kept { OnErr result (self.new ≡ self.old) }
        ensures memory { NeedsNoMemory result }
    {
        if self.rest.len() < len {
            return Err(WireKind::UnexpectedEof);
        }
        let (front, rest) = self.rest.split_at(len);
        self.rest = rest;
        Ok(front)
    }
}

impl Source for SliceSource<'_> {
    ghost use Rattle.std.specs.Prelude.{Some};

    ghost left = { λ source. Some source };

    ghost faults = { λ _. 0 };

    fn read(&mut self, into: &mut [u8]) -> Result<usize, SourceError> {
        let count = self.rest.len().min(into.len());
        let (front, rest) = self.rest.split_at(count);
        into[..count].copy_from_slice(front);
        self.rest = rest;
        Ok(count)
    }

    fn next_byte(&mut self) -> Result<Option<u8>, SourceError> {
        match self.rest.split_first() {
            None => Ok(None),
            Some((first, rest)) => {
                self.rest = rest;
                Ok(Some(*first))
            }
        }
    }
}
