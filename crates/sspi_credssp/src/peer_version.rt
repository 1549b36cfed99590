//! The version that an end pins for its peer. Both ends check a version here, and nowhere else.

ghost use Rattle.std.specs.Prelude.{◌≡◌, None, Some, false, OnOk, OnErr, IfErr};
ghost use Rattle.sspi_credssp.specs.Noted.{differs, is_old, noted_with, VersionStops};

use crate::versions::FIRST_HASHED_VERSION;
use sspi_mech::Refusal;
use sspi_types::{ErrorKind, Reason};

// The least version that an end accepts of its peer unless it is given another.
pub const DEFAULT_LEAST_VERSION: u32 = FIRST_HASHED_VERSION;

// Pins the version of the peer's first request, and requires it of each later request.
pub fn note_version(peer_version: &mut Option<u32>, least: u32, version: u32) -> Result<(), Refusal>
    // What is pinned.
    ensures noted { peer_version.new ≡ noted_with least peer_version.old version }
    ensures ok { OnOk result (peer_version.new ≡ Some version) }
    ensures err { OnErr result (peer_version.new ≡ peer_version.old) }
    // What `Ok` says of the version.
    ensures young { OnOk result (is_old least peer_version.old version ≡ false) }
    ensures passed { OnOk result (differs peer_version.old version ≡ false) }
    // What a refusal says.
    ensures cause { IfErr result (λ error. VersionStops least peer_version.old version
        error.error_type ⊥) }
{
    match *peer_version {
        None if version < least => Err(Refusal::new(ErrorKind::DowngradeDetected, Reason::OldPeer)),
        None => {
            *peer_version = Some(version);
            Ok(())
        }
        Some(noted) if noted == version => Ok(()),
        Some(_) => Err(Refusal::new(ErrorKind::MessageAltered, Reason::PeerVersion)),
    }
}
