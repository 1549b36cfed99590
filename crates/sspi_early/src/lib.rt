//! What a server tells its client after a CredSSP delegation: whether the user may log on
//! (MS-RDPBCGR 2.2.10.2, the Early User Authorization Result PDU; MS-CSSP 3.1.5).
//!
//! - `delegate_early`: a delegation, the decision of a policy on the identity that was delegated,
//!   and the message that tells it.
//! - `tell_early`: what follows the delegation, for a caller that has made it already; `authorize`:
//!   the same for an identity.
//! - `laws.rt`: what the client hears over a link that edits nothing, and what a list decides.
//! - `Policy`: who may log on. `ListPolicy` has a list of names, and `FailingPolicy` always fails.
//!
//! `specs/Policy.antt` has what a policy exposes and answers, and `specs/Heard.antt` what a client
//! makes of the entry that it was sent. `specs/Authorizes.antt` has when each answer comes, and
//! `specs/Early.antt` how that follows a delegation.
#![tactic(auto)]

pub mod answer;
pub mod authorizing;
pub mod delegating;
pub mod failing_policy;
mod hearing;
pub mod laws;
pub mod list_policy;
pub mod policy;

pub use answer::{Authorized, Early, EarlyError};
pub use authorizing::authorize;
pub use delegating::{delegate_early, tell_early};
pub use failing_policy::FailingPolicy;
pub use list_policy::ListPolicy;
pub use policy::{Policy, PolicyError};
pub use sspi_tsreq::EarlyUserAuthResult;
