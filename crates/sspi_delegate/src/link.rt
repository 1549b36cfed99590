//! The trait of what carries messages between the ends.

use sspi_credssp::End;
use std::alloc::{AllocError, AllocFailed};

/// Why a call on a link was refused.
#[derive(Clone, Copy, Debug, PartialEq, Eq)]
pub enum LinkError {
    /// The link failed, and counted one fault.
    Failed,
    /// Memory ran out for the message or its entry.
    InsufficientMemory,
}

impl From<AllocError> for LinkError {
    ghost use Rattle.std.specs.Prelude.{◌≡◌};
    ghost use Rattle.sspi_delegate.specs.declared.link.LinkError.TheVariants.{InsufficientMemory};

    ghost from_gives = { λ _ error. error ≡ InsufficientMemory };

    fn from(_error: AllocError) -> LinkError {
        LinkError::InsufficientMemory
    }
}

impl<T: Drop> From<AllocFailed<T>> for LinkError {
    ghost use Rattle.std.specs.Prelude.{◌≡◌};
    ghost use Rattle.sspi_delegate.specs.declared.link.LinkError.TheVariants.{InsufficientMemory};

    ghost from_gives = { λ _ error. error ≡ InsufficientMemory };

    fn from(_error: AllocFailed<T>) -> LinkError {
        LinkError::InsufficientMemory
    }
}

/// What carries the messages of an exchange, and keeps a log of them.
///
/// A call that answers `Failed` counts one fault, up to the maximum of the count; no other answer
/// counts any. So the count shows whether a caller tried a failed call again. A link that exposes
/// its edits delivers what they give, fails only where they say so, and carries nothing there.
pub trait Link: Drop {
    ghost use Rattle.std.specs.Prelude.{◌≡◌, [], ◌∷◌, ℕ, List, Option, OnOk, OnErr};
    ghost use Rattle.sspi_delegate.specs.declared.carried.Carried.{Carried};
    ghost use Rattle.sspi_delegate.specs.declared.edit.Edit.{Edit};
    ghost use Rattle.sspi_delegate.specs.Link.{LinkCause, PieceGives, IsWithin, CarryTold};
    ghost use Rattle.sspi_delegate.specs.Link.{NeverFails, FollowsTold};
    ghost use Rattle.sspi_delegate.specs.Log.{begun};

    /// What was carried, the newest entry first.
    ghost log: { Self → List Carried };

    /// The edits, if the link exposes them.
    ghost edits: { Self → Option (List Edit) };

    ghost faults: { Self → ℕ };

    /// The most bytes of a piece, if the link exposes that.
    ghost most: { Self → Option ℕ };

    /// Gives `sent` to the link, and begins its delivery: what was left of the last one is dropped.
    /// A call that is not `Ok` adds no entry to the log.
    fn carry(&mut self, from: End, sent: &[u8]) -> Result<(), LinkError>
        // What was sent, or why nothing was.
        ensures ok { OnOk result (log self.new ≡ begun from sent.now ∷ log self.old) }
        ensures err { OnErr result (log self.new ≡ log self.old) }
        ensures cause { LinkCause (faults self.old) (faults self.new) result }
        // What stays.
        ensures edits { edits self.new ≡ edits self.old }
        ensures most { most self.new ≡ most self.old }
        // What the edits say about a call.
        ensures told { CarryTold (edits self.old) (log self.old) sent.now (faults self.old)
            (faults self.new) result }
        ensures follows { FollowsTold (edits self.new) (log self.new) };

    /// Writes the next bytes of the newest delivery to the prefix of `into`, and answers their
    /// number. If `into` is not empty, 0 is the end of the delivery. Without an entry the answer is
    /// 0, and nothing changes. A call that is not `Ok` leaves the log unchanged.
    fn piece(&mut self, into: &mut [u8]) -> Result<usize, LinkError>
        // What was received, or why nothing was.
        ensures gives { PieceGives (log self.old) (log self.new) result into.new }
        ensures within { IsWithin (most self.old) result }
        ensures cause { LinkCause (faults self.old) (faults self.new) result }
        // What stays.
        ensures edits { edits self.new ≡ edits self.old }
        ensures most { most self.new ≡ most self.old }
        ensures none { log self.old ≡ [] → (result ≡ Ok 0) × (self.new ≡ self.old) }
        // What the edits say about a call.
        ensures told { NeverFails (edits self.old) (faults self.old) (faults self.new) result }
        ensures follows { FollowsTold (edits self.new) (log self.new) };
}
