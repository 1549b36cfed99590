//! What an auditor knows of an end at one turn, from the turns before it.

use sspi_credssp::CredSspState;
use std::marker::Model;

/// What is known of an end at a turn.
#[derive(Drop)]
pub(crate) struct Frame {
    /// Its state before the turn.
    pub state: CredSspState,
    /// Whether it looks at the delivered version.
    pub looks: bool,
    /// The version of its peer that is pinned once the turn is over.
    pub noted: Option<u32>,
    /// Its own version, if that is known.
    pub version: Option<u32>,
}

impl Model for Frame {
    ghost use Rattle.sspi_credssp.specs.Turn.{ShownFrame};

    ghost Value = { ShownFrame };

    ghost view = { λ frame. record {
      state = frame.state;
      looks = frame.looks;
      noted = frame.noted;
      version = frame.version;
    } };
}
