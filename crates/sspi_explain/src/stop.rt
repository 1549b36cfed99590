//! Why a walk through a message ends before the message does.
ghost use Rattle.std.specs.Prelude.{◌≡◌};
ghost use Rattle.sspi_explain.specs.Page.{fault_name};
ghost use Rattle.sspi_explain.specs.Told.{fault_of};

use std::alloc::AllocError;

/// The first fault: the bytes end before the piece does, or the piece is not encoded as it must be.
#[derive(Clone, Copy)]
pub(crate) enum Fault {
    Ended,
    Invalid,
}

impl Fault {
    /// The name of its kind.
    pub fn name(self) -> &'static str
        ensures { result.now ≡ fault_name (fault_of self) }
    {
        match self {
            Fault::Ended => "UnexpectedEof",
            Fault::Invalid => "InvalidData",
        }
    }
}

#[derive(Clone, Copy)]
pub(crate) enum Stop {
    /// The message is refused, and the page says where and why.
    Refused(Fault),
    OutOfMemory,
}

impl From<AllocError> for Stop {
    ghost use Rattle.std.specs.Prelude.{◌≡◌};
    ghost use Rattle.sspi_explain.specs.declared.stop.Stop.TheVariants.{OutOfMemory};

    ghost from_gives = { λ _ stop. stop ≡ OutOfMemory };

    fn from(_error: AllocError) -> Stop {
        Stop::OutOfMemory
    }
}
