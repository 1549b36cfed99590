//! Which step of a client waits for a KDC, with what the rest of that step needs.

ghost use Rattle.std.specs.Prelude.{◌≡◌, IfOk};
ghost use Rattle.sspi_mech.specs.Calls.{step_args};
ghost use Rattle.sspi_negotiate.specs.Client.{first_step_of};
ghost use Rattle.sspi_negotiate.specs.Values.{is_waiting};

use sspi_mech::InitializeSecurityContext;
use sspi_tokens::NegTokenTarg;
use sspi_types::{Bytes, ClientRequestFlags, DataRepresentation, Text};
use std::alloc::{AllocError, Global};

/// Which step of a client waits for a KDC, with what the rest of it needs.
#[derive(Drop)]
pub enum Branch {
    /// No step waits.
    Idle,
    /// The first step, which another mechanism may make again.
    Opening(Opening),
    /// A step that took this token from the server.
    Answering(NegTokenTarg),
}

/// What the first step was given, except for the credentials, which the negotiation keeps.
#[derive(Drop)]
pub struct Opening {
    pub context_requirements: ClientRequestFlags,
    pub data_representation: DataRepresentation,
    pub target_name: Option<Text>,
    pub input: Bytes,
}

impl Opening {
    /// A copy of what a step was given.
    pub(crate) fn of(
        alloc: Global,
        args: &InitializeSecurityContext<'_>,
    ) -> Result<Opening, AllocError>
        ensures { IfOk result (λ first. first ≡ first_step_of (step_args args.now)) }
    {
        let target_name = match args.target_name {
            None => None,
            Some(target) => Some(Text::from_text(alloc, target)?),
        };
        Ok(Opening {
            context_requirements: args.context_requirements,
            data_representation: args.target_data_representation,
            target_name,
            input: Bytes::from_slice(alloc, args.input)?,
        })
    }
}

impl Branch {
    pub(crate) fn is_waiting(&self) -> bool
        ensures { result ≡ is_waiting self.now }
    {
        match self {
            Branch::Idle => false,
            Branch::Opening(_) => true,
            Branch::Answering(_) => true,
        }
    }
}
