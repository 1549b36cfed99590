//! Laws of the early result, each stated on a function that does nothing.

ghost use Rattle.std.specs.Prelude.{◌≡◌, List, length, Some, Ok, []};
ghost use Rattle.sspi_completeness.specs.Matching.{IsCalm};
ghost use Rattle.sspi_delegate.specs.Link.{FollowsTold};
ghost use Rattle.sspi_early.specs.declared.answer.Authorized.{Authorized};
ghost use Rattle.sspi_early.specs.declared.answer.EarlyError.{EarlyError};
ghost use Rattle.sspi_early.specs.Authorizes.{Authorizes, LinkAt, told_of};
ghost use Rattle.sspi_early.specs.Completes.{IsHonest};
ghost use Rattle.sspi_early.specs.Policy.{is_listed, list_meaning};
ghost use Rattle.sspi_names.specs.declared.identity.AuthIdentity.{AuthIdentity};
ghost use Rattle.sspi_names.specs.Name.{Name};
ghost use Rattle.std.specs.Prelude.{Result};
ghost use Rattle.sspi_tsreq.specs.declared.early.EarlyUserAuthResult.{EarlyUserAuthResult};
ghost use Rattle.sspi_tsreq.specs.declared.early.TheConstants.{EARLY_USER_AUTH_RESULT_PDU_SIZE};
ghost use Rattle.sspi_tsreq.specs.Early.{early_result_text};

use crate::policy::Policy;

/// Over a link that edits nothing a client hears what its server told, if the policy does not fail
/// and memory does not run out.
#[tactic(auto, using(crate::proofs::Honest::honest_link))]
pub fn a_link_without_edits_tells_the_decision<P: Policy>()
    ensures { (identity : AuthIdentity) (before after : LinkAt) (policy policy2 : P)
        (answer : Result Authorized EarlyError) →
        Authorizes P.meaning identity before after policy policy2 answer → before.edits ≡ Some [] →
        FollowsTold before.edits before.log →
        IsCalm (P.meaning.faults policy) (P.meaning.faults policy2) → IsHonest answer }
{}

/// The server tells what a list of names decides: success exactly if the identity's name is one of
/// them.
#[tactic(auto, using(crate::proofs::Honest::told_by_list))]
pub fn a_list_tells_by_its_names()
    ensures { (identity : AuthIdentity) (before after : LinkAt) (names names2 : List Name)
        (authorized : Authorized) →
        Authorizes list_meaning identity before after names names2 (Ok authorized) →
        authorized.told ≡ told_of (is_listed names identity.username) }
{}

/// An Early User Authorization Result PDU has four bytes (MS-RDPBCGR 2.2.10.2), as the declared
/// length says.
pub fn an_early_result_has_four_bytes()
    ensures size { EARLY_USER_AUTH_RESULT_PDU_SIZE ≡ 4 }
    ensures spelled { (result : EarlyUserAuthResult) →
        length (early_result_text result) ≡ EARLY_USER_AUTH_RESULT_PDU_SIZE }
{}
