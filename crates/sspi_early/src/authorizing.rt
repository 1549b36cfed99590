//! The server asks its policy and tells the client (MS-RDPBCGR 2.2.10.2).

ghost use Rattle.std.specs.Prelude.{◌≡◌, Err};
ghost use Rattle.sspi_delegate.specs.Log.{IsUnread};
ghost use Rattle.sspi_early.specs.Authorizes.{Authorizes, Carries, link_at, told_of};
ghost use Rattle.sspi_early.specs.Hearing.{Hears};
ghost use Rattle.sspi_tsreq.specs.Early.{early_result_text};

use crate::answer::{Authorized, EarlyError};
use crate::hearing::{result_in, take_result};
use crate::policy::{Policy, PolicyError};
use sspi_ber::WireKind;
use sspi_delegate::{End, Link, LinkError};
use sspi_names::AuthIdentity;
use sspi_tsreq::{EARLY_USER_AUTH_RESULT_PDU_SIZE, EarlyUserAuthResult};

/// Has the server tell its client, after a delegation, whether the user of this delegated identity
/// may log on.
///
/// The policy is asked once, about this identity. Its decision is given to the link as one message
/// of the server. The client takes the four bytes of it from its delivery, and no more. The call
/// itself allocates nothing. Refused:
///
/// - `Policy`: the policy failed. The link was not asked.
/// - `LinkFault`: the link failed, to carry the message or to deliver it.
/// - `Read`: what was delivered is not a result: `UnexpectedEof` if it ended before its fourth
///   byte, else `InvalidData`.
/// - `InsufficientMemory`: from the policy or the link.
///
/// In every case the link's log has the message if the link took it.
pub fn authorize<L: Link, P: Policy>(
    link: &mut L,
    policy: &mut P,
    identity: &AuthIdentity,
) -> Result<Authorized, EarlyError>
    ensures authorizes { Authorizes P.meaning identity.now
        (link_at (L.log link.old) (L.edits link.old) (L.faults link.old))
        (link_at (L.log link.new) (L.edits link.new) (L.faults link.new)) policy.old policy.new
        result }
    ensures untouched { result ≡ Err EarlyError.Policy → link.new ≡ link.old }
{
    match policy.admits(identity) {
        Ok(admitted) => carry_result(link, told_of(admitted)),
        Err(PolicyError::Failed) => Err(EarlyError::Policy),
        Err(PolicyError::InsufficientMemory) => Err(EarlyError::InsufficientMemory),
    }
}

fn told_of(admitted: bool) -> EarlyUserAuthResult
    ensures { result ≡ told_of admitted }
{
    if admitted {
        EarlyUserAuthResult::Success
    } else {
        EarlyUserAuthResult::AccessDenied
    }
}

/// Gives this result to the link, and has the client read it.
#[tactic(auto, using(crate::proofs::Heard::honest_answer))]
fn carry_result<L: Link>(link: &mut L, told: EarlyUserAuthResult) -> Result<Authorized, EarlyError>
    ensures { Carries told (link_at (L.log link.old) (L.edits link.old) (L.faults link.old))
        (link_at (L.log link.new) (L.edits link.new) (L.faults link.new)) result }
{
    match link.carry(End::Server, &spelled(told)) {
        Ok(()) => hear(link, told),
        Err(LinkError::Failed) => Err(EarlyError::LinkFault),
        Err(LinkError::InsufficientMemory) => Err(EarlyError::InsufficientMemory),
    }
}

fn spelled(told: EarlyUserAuthResult) -> [u8; EARLY_USER_AUTH_RESULT_PDU_SIZE]
    ensures { result ≡ early_result_text told }
{
    told.to_u32().to_le_bytes()
}

/// What the client hears from the newest delivery, which tells this result.
fn hear<L: Link>(link: &mut L, told: EarlyUserAuthResult) -> Result<Authorized, EarlyError>
    ensures { IsUnread (L.log link.old) →
        Hears told (link_at (L.log link.old) (L.edits link.old) (L.faults link.old))
        (link_at (L.log link.new) (L.edits link.new) (L.faults link.new)) result }
{
    let bytes = match take_result(link) {
        Ok(Some(bytes)) => bytes,
        Ok(None) => return Err(EarlyError::Read(WireKind::UnexpectedEof)),
        Err(LinkError::Failed) => return Err(EarlyError::LinkFault),
        Err(LinkError::InsufficientMemory) => return Err(EarlyError::InsufficientMemory),
    };
    match result_in(bytes) {
        Some(heard) => Ok(Authorized { told, heard }),
        None => Err(EarlyError::Read(WireKind::InvalidData)),
    }
}
