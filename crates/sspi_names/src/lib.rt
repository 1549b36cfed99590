//! Names, texts and credentials of the security packages.
//!
//! - `Utf16Text`: well-formed UTF-16, as identities carry it on the wire.
//! - `Username`: a user principal name or a down-level logon name.
//! - `AuthIdentity`, `KeytabIdentity` and `Credentials`, with their buffers.
//! - `KdcTable`: which KDC serves which realm; `NetworkRequest`: what is asked of a KDC.
//!
//! Names and texts are seen by contracts as values: `specs/Name.antt` has the grammar of names,
//! `specs/Utf16.antt` the two encodings of a text, `specs/Identity.antt` the conversions.
#![tactic(auto)]

pub mod context_names;
mod conversions;
pub mod credentials;
pub mod error;
mod folding;
pub mod format;
pub mod identity;
pub mod kdc_table;
pub mod laws;
pub mod network;
mod parsing;
mod separators;
mod shape;
pub mod username;
pub mod utf16;

pub use context_names::ContextNames;
pub use credentials::{Credentials, CredentialsBuffers};
pub use error::{UsernameError, Utf16Error};
pub use format::UserNameFormat;
pub use identity::{AuthIdentity, AuthIdentityBuffers, KeytabIdentity};
pub use kdc_table::KdcTable;
pub use network::{NetworkProtocol, NetworkRequest};
pub use username::Username;
pub use utf16::Utf16Text;
