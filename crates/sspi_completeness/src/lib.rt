//! Completeness: what an undisturbed CredSSP delegation between ends of the plain mechanisms comes
//! to (MS-CSSP 3.1.5).
//!
//! `specs/Matching.antt` says which ends match and when a link disturbs nothing, and
//! `specs/Negotiating.antt` which negotiating ends match (MS-SPNG 3.1.5).
#![tactic(auto)]

pub mod last_mic;
pub mod laws;
pub mod plain;
pub mod worked;

pub use plain::delegate_plainly;
