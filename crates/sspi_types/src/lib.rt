//! The vocabulary of SSPI: the types that the calls of a security package use.
//!
//! A refusal is an `Error` of an `ErrorKind` and a fixed `Reason` (`error`, `error_kind`,
//! `reason`), with the peer's `NStatusCode` if it gave one (`nstatus`). `buffer` has the buffers
//! that callers and packages exchange, and `package` the packages themselves. The modules `*_flags`
//! have what is asked of a context and what it provides. `context`, `connection` and `certificate`
//! have what is known of it.
//!
//! Each value has the number, name and text that its table in `specs/` gives it, and each table is
//! there once. A number outside its table reads as `None`. What follows from the tables is in
//! `laws`. `Bytes`, `Text` and `Rows` are a `Vec<u8>`, a `String` and a vector that contracts see
//! as lists. A `clone(alloc)` call gives an equal value or answers out of memory, which is
//! `InsufficientMemory` everywhere.

#![tactic(auto)]

pub mod as_str;
pub mod buffer;
pub mod buffer_flags;
pub mod buffer_type;
pub mod bytes;
pub mod cert_trust_error_status;
pub mod cert_trust_info_status;
pub mod certificate;
pub mod client_request_flags;
pub mod client_response_flags;
pub mod connection;
pub mod context;
pub mod credential_use;
pub mod data_representation;
pub mod error;
pub mod error_kind;
pub mod laws;
pub mod nstatus;
pub mod package;
pub mod package_capabilities;
pub mod protection_flags;
pub mod reason;
pub mod rows;
pub mod secret;
pub mod security_buffer_type;
pub mod security_status;
pub mod server_request_flags;
pub mod server_response_flags;
pub mod text;

pub use as_str::AsStr;
pub use buffer::SecurityBuffer;
pub use buffer_flags::SecurityBufferFlags;
pub use buffer_type::BufferType;
pub use bytes::Bytes;
pub use cert_trust_error_status::CertTrustErrorStatus;
pub use cert_trust_info_status::CertTrustInfoStatus;
pub use certificate::{CertEncodingType, CertTrustStatus};
pub use client_request_flags::ClientRequestFlags;
pub use client_response_flags::ClientResponseFlags;
pub use connection::{
    ConnectionCipher, ConnectionHash, ConnectionInfo, ConnectionKeyExchange, ConnectionProtocol,
};
pub use context::{ContextSizes, Luid, SessionKeys, StreamSizes};
pub use credential_use::CredentialUse;
pub use data_representation::DataRepresentation;
pub use error::Error;
pub use error_kind::ErrorKind;
pub use nstatus::NStatusCode;
pub use package::{
    PKG_NAME, PackageInfo, SecurityPackageType, enumerate_security_packages,
    negotiate_package_info, query_security_package_info,
};
pub use package_capabilities::PackageCapabilities;
pub use protection_flags::{DecryptionFlags, EncryptionFlags};
pub use reason::Reason;
pub use rows::Rows;
pub use secret::Secret;
pub use security_buffer_type::{SECBUFFER_ATTRMASK, SecurityBufferType};
pub use security_status::SecurityStatus;
pub use server_request_flags::ServerRequestFlags;
pub use server_response_flags::ServerResponseFlags;
pub use text::Text;
