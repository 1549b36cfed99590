//! A link that keeps a log of its own, over a carrier of the caller's.

ghost use Rattle.std.specs.Prelude.{◌≡◌, ◌≤◌, [], length, reverse, IfOk};

use crate::carried::Carried;
use crate::link::{Link, LinkError};
use crate::log::Log;
use sspi_credssp::End;
use sspi_types::Bytes;
use std::alloc::Global;
use std::marker::Model;

/// What moves bytes for a `KeptLink`, and exposes nothing about them.
///
/// A call that answers `Failed` counts one fault, up to the maximum of the count; no other answer
/// counts any.
pub trait Carrier: Drop {
    ghost use Rattle.std.specs.Prelude.{ℕ, List, ◌≤◌, length, IfOk, IfErr, OnOk};
    ghost use Rattle.sspi_credssp.specs.declared.turn.End.{End};
    ghost use Rattle.sspi_delegate.specs.declared.link.LinkError.{LinkError};
    ghost use Rattle.sspi_delegate.specs.Link.{LinkCause};

    ghost faults: { Self → ℕ };

    /// What sending a message from an end does to the carrier.
    ghost sends: { Self → End → List ℕ → Self → Type 0 };

    /// What receiving this many bytes, a prefix of these, does to the carrier.
    ghost receives: { Self → ℕ → List ℕ → Self → Type 0 };

    /// What a refusal of sending or receiving, with this error, does to the carrier.
    ghost refuses: { Self → LinkError → Self → Type 0 };

    /// Sends a whole message from this end. What was left of the last one must no longer be
    /// received.
    fn send(&mut self, from: End, sent: &[u8]) -> Result<(), LinkError>
        ensures sends { OnOk result (sends self.old from sent.now self.new) }
        ensures refuses { IfErr result (λ error. refuses self.old error self.new) }
        ensures cause { LinkCause (faults self.old) (faults self.new) result };

    /// Writes the next bytes of the message to the prefix of `into`, and answers their number; 0 is
    /// the end of the message.
    fn receive(&mut self, into: &mut [u8]) -> Result<usize, LinkError>
        ensures bound { IfOk result (λ count. count ≤ length into.new) }
        ensures receives { IfOk result (λ count. receives self.old count into.new self.new) }
        ensures refuses { IfErr result (λ error. refuses self.old error self.new) }
        ensures cause { LinkCause (faults self.old) (faults self.new) result };
}

/// A link that keeps the log over a carrier. A call that is refused leaves the log unchanged. If
/// memory runs out for the log, the carrier is not asked.
#[derive(Drop)]
pub struct KeptLink<R: Carrier> {
    alloc: Global,
    carrier: R,
    log: Log,
}

impl<R: Carrier> Model for KeptLink<R> {
    ghost use Rattle.sspi_delegate.specs.Log.{KeptLinkView};

    ghost Value = { KeptLinkView R };

    ghost view = { λ link. record { log = link.log.entries; carrier = link.carrier } };
}

impl<R: Carrier> KeptLink<R> {
    /// A link over this carrier, with an empty log.
    pub fn new(alloc: Global, carrier: R) -> KeptLink<R>
        ensures { result ≡ record { log = []; carrier = carrier } }
    {
        KeptLink {
            alloc,
            carrier,
            log: Log::new(alloc),
        }
    }

    /// The log, the first entry first. Allocates nothing.
    pub fn log(&self) -> &[Carried]
        ensures { result.now ≡ reverse self.now.log }
    {
        self.log.as_slice()
    }
}

impl<R: Carrier> Link for KeptLink<R> {
    ghost use Rattle.std.specs.Prelude.{◌≡◌, [], ◌∷◌, None, Ok, IfOk, IfErr, OnOk, OnErr};
    ghost use Rattle.sspi_delegate.specs.Link.{DidOrKept, IsReceived, LinkCause, PieceGives};
    ghost use Rattle.sspi_delegate.specs.Log.{begun};

    ghost log = { λ link. link.log };

    ghost edits = { λ _. None };

    ghost faults = { λ link. R.faults link.carrier };

    ghost most = { λ _. None };

    #[tactic(auto, using(crate::proofs::Newest::did, crate::proofs::Newest::kept))]
    fn carry(&mut self, from: End, sent: &[u8]) -> Result<(), LinkError>
        ensures ok { OnOk result (self.new.log ≡ begun from sent.now ∷ self.old.log) }
        ensures err { OnErr result (self.new.log ≡ self.old.log) }
        ensures cause { LinkCause (R.faults self.old.carrier) (R.faults self.new.carrier) result }
        ensures sends { OnOk result (R.sends self.old.carrier from sent.now self.new.carrier) }
        ensures refuses { IfErr result (λ error.
            DidOrKept error (R.refuses self.old.carrier error self.new.carrier)
            (self.new.carrier ≡ self.old.carrier)) }
    {
        let sent_copy = Bytes::from_slice(self.alloc, sent)?;
        self.log.reserve()?;
        self.carrier.send(from, sent)?;
        self.log.push(Carried {
            from,
            sent: sent_copy,
            delivered: Bytes::new(self.alloc),
            ended: false,
        });
        Ok(())
    }

    fn piece(&mut self, into: &mut [u8]) -> Result<usize, LinkError>
        ensures gives { PieceGives self.old.log self.new.log result into.new }
        ensures cause { LinkCause (R.faults self.old.carrier) (R.faults self.new.carrier) result }
        ensures none { self.old.log ≡ [] → (result ≡ Ok 0) × (self.new ≡ self.old) }
        ensures receives { IfOk result (λ count. IsReceived R.receives self.old.log self.old.carrier
            count into.new self.new.carrier) }
        ensures refuses { IfErr result (λ error.
            DidOrKept error (R.refuses self.old.carrier error self.new.carrier)
            (self.new.carrier ≡ self.old.carrier)) }
    {
        self.log.receive(&mut self.carrier, into)
    }
}
