//! The tokens of SPNEGO (RFC 4178, section 4.2, with the profile of MS-SPNG) and the mechanism
//! lists in them.
//!
//! `NegTokenInit` and `NegTokenTarg` (NegTokenResp in RFC 4178) are read from bytes and written to
//! bytes; `Oid` names a mechanism and `MechTypeList` lists mechanisms in the order of preference.
//! `encode_mech_types` encodes a list alone, which is the text that the MICs of a negotiation
//! cover.
//!
//! `decode` reads any bytes that begin with a token and refuses all others; `encode` refuses only
//! when a length passes the limit. Neither allocates before it refuses. The grammar is
//! `specs/Grammar.antt`, the encoding `specs/Spelling.antt`. `laws.rt` has what follows: a token
//! that was written reads back, whatever follows it, and an encoding identifies its list.
#![tactic(auto)]

mod copying;
pub mod laws;
pub mod mech_type_list;
pub mod neg_result;
pub mod neg_token_init;
pub mod neg_token_targ;
pub mod oid;
mod parts;
mod reading;
mod refusal;
mod sizes;
mod tags;
mod writing;

pub use mech_type_list::{MechTypeList, encode_mech_types};
pub use neg_result::NegResult;
pub use neg_token_init::NegTokenInit;
pub use neg_token_targ::NegTokenTarg;
pub use oid::{MechKind, Oid};
