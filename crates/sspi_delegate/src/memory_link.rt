//! A link in memory, which delivers what was sent, except for its edits.

ghost use Rattle.std.specs.Prelude.{◌≡◌, ◌<◌, [], None, Some, IfSome, max, reverse};

use crate::carried::Carried;
use crate::edit::{Edit, deliver_edited};
use crate::link::{Link, LinkError};
use crate::log::Log;
use sspi_credssp::End;
use sspi_types::Bytes;
use std::alloc::Global;
use std::marker::Model;

/// A link in memory: it delivers what was sent, except for its edits, and fails only where one of
/// them says so.
///
/// If several edits name one entry, the first changes what was sent, and each further one the
/// result so far. No clause says this: carrying a message takes time linear in its length, in the
/// number of all edits and in the bytes this entry's edits add or give.
#[derive(Drop)]
pub struct MemoryLink {
    alloc: Global,
    edits: Vec<Edit>,
    log: Log,
    /// What the edits give for the newest entry.
    text: Bytes,
    faults: u64,
    /// The most bytes of a piece; 0 counts as 1.
    most: Option<usize>,
}

impl Model for MemoryLink {
    ghost use Rattle.std.specs.Prelude.{max};
    ghost use Rattle.std.specs.Option.{option_map};
    ghost use Rattle.sspi_delegate.specs.Link.{MemoryLinkView, IsServed};

    ghost Value = { MemoryLinkView };

    ghost view = { λ link. record {
      log = link.log.entries;
      edits = link.edits.items;
      faults = link.faults;
      most = option_map (λ most. max 1 most) link.most;
    } };

    ghost invariant = { λ link. IsServed link.edits.items link.log.entries link.text };
}

impl MemoryLink {
    /// A link with these edits and an empty log.
    pub fn new(alloc: Global, edits: Vec<Edit>) -> MemoryLink
        ensures { result ≡ record { log = []; edits = edits.items; faults = 0; most = None } }
    {
        MemoryLink {
            alloc,
            edits,
            log: Log::new(alloc),
            text: Bytes::new(alloc),
            faults: 0,
            most: None,
        }
    }

    /// Limits each piece to `most` bytes from here on; 0 counts as 1. What is delivered stays the
    /// same.
    pub fn set_piece(&mut self, most: usize)
        ensures { self.new ≡ record self.old { most = Some (max 1 most) } }
    {
        self.most = Some(most);
    }

    fn most(&self) -> usize
        ensures some { 0 < result }
        ensures told { IfSome self.now.most (λ most. result ≡ most) }
    {
        match self.most {
            Some(most) => most.max(1),
            None => usize::MAX,
        }
    }

    /// The log, the first entry first. Allocates nothing.
    pub fn log(&self) -> &[Carried]
        ensures { result.now ≡ reverse self.now.log }
    {
        self.log.as_slice()
    }
}

impl Link for MemoryLink {
    ghost use Rattle.std.specs.Prelude.{Some};

    ghost log = { λ link. link.log };

    ghost edits = { λ link. Some link.edits };

    ghost faults = { λ link. link.faults };

    ghost most = { λ link. link.most };

    fn carry(&mut self, from: End, sent: &[u8]) -> Result<(), LinkError> {
        let Some(text) = deliver_edited(self.alloc, &self.edits, self.log.as_slice(), sent)? else {
            self.faults = self.faults.saturating_add(1);
            return Err(LinkError::Failed);
        };
        let sent_copy = Bytes::from_slice(self.alloc, sent)?;
        self.log.reserve()?;
        self.log.push(Carried {
            from,
            sent: sent_copy,
            delivered: Bytes::new(self.alloc),
            ended: false,
        });
        self.text = text;
        Ok(())
    }

    fn piece(&mut self, into: &mut [u8]) -> Result<usize, LinkError> {
        let most = self.most();
        self.log.hand_out(self.text.as_slice(), most, into)
    }
}
