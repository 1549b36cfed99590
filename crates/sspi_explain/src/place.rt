//! The position of a walk in a message.
ghost use Rattle.std.specs.Prelude.{◌≡◌};
ghost use Rattle.sspi_tokens.specs.Reading.{is_next};
ghost use Rattle.sspi_explain.specs.Told.{offset, spot};

use sspi_ber::SliceSource;
use std::marker::Model;

/// What is left of a content, and the offset in the message at which that content ends.
#[derive(Drop)]
pub(crate) struct Place<'a> {
    pub source: SliceSource<'a>,
    pub end: usize,
}

impl<'a> Model for Place<'a> {
    ghost use Rattle.sspi_explain.specs.Told.{Spot, spot};

    ghost Value = { Spot };

    ghost view = { λ place. spot place.source place.end };
}

impl<'a> Place<'a> {
    pub fn new(content: &'a [u8], end: usize) -> Place<'a>
        ensures { result ≡ spot content.now end }
    {
        Place {
            source: SliceSource::new(content),
            end,
        }
    }

    /// The bytes that are left.
    pub fn rest(&self) -> &'a [u8]
        ensures { result.now ≡ self.now.rest }
    {
        self.source.rest()
    }

    /// The offset in the message of what comes next.
    pub fn offset(&self) -> usize
        ensures { result ≡ offset self.now }
    {
        self.end.saturating_sub(self.source.rest().len())
    }

    /// Whether this tag comes next.
    pub fn is_next(&self, tag: u8) -> bool
        ensures { result ≡ is_next tag self.now.rest }
    {
        match self.source.rest().first() {
            None => false,
            Some(byte) => *byte == tag,
        }
    }
}
