//! Security mechanisms: the trait, plain NTLM and plain Kerberos.
//!
//! - `Mechanism`: the calls of a mechanism. `specs/Meaning.antt` names what they do,
//!   `specs/Laws.antt` says what holds for every mechanism, and `specs/Context.antt` what still
//!   holds for a context that chooses among mechanisms.
//! - `laws`: the sum of two mechanisms (`specs/Sum.antt`) is a mechanism, and how often an object
//!   asks a KDC.
//! - `Ntlm`: plain NTLM, made for this port, with the roles of MS-NLMP and SHA-256 in place of its
//!   hashes. `specs/Ntlm.antt` says exactly what each of its calls answers, and `ntlm::laws` what
//!   follows for two ends.
//! - `Kerberos`: plain Kerberos, made for this port, with the roles of RFC 4120 and of user-to-user
//!   authentication, and SHA-256. `specs/Kerberos.antt` says exactly what each of its calls
//!   answers, and `kerberos::laws` what follows for two ends.
//! - `with_passwords`, `first_of`: which of the identities given to a server NTLM and Kerberos
//!   take.
//! - `Refusal`: what the calls inside a mechanism or a negotiation refuse with. It has no NTSTATUS
//!   code; their callers get it as an `Error`.
//! - `Kdc`: where a client's requests go. `PlainKdc` gives keys to its users, as
//!   `specs/PlainKdc.antt` says; `FailingKdc` answers none.
//!
//! A refusal leaves an object as it was and has no NTSTATUS code. Most calls may run out of memory;
//! other refusals occur only where the meaning says so. Nothing is claimed about the secrecy of
//! either mechanism.
#![tactic(auto)]

pub mod args;
pub mod config;
pub mod identities;
pub mod kdc;
pub mod kerberos;
pub mod laws;
pub mod mechanism;
mod named;
pub mod ntlm;
pub mod plain_kdc;
mod protection;
pub mod refusal;
pub mod step;

pub use args::{AcceptSecurityContext, InitializeSecurityContext};
pub use config::{KerberosConfig, KerberosServerConfig, MechConfig, NtlmConfig};
pub use identities::{first_of, with_passwords};
pub use kdc::{FailingKdc, Kdc, KdcError};
pub use kerberos::Kerberos;
pub use mechanism::{Mechanism, mechanism_is_context};
pub use ntlm::Ntlm;
pub use plain_kdc::{PlainKdc, Scripted};
pub use refusal::Refusal;
pub use step::{Answer, Progressing, Reply, Step};
