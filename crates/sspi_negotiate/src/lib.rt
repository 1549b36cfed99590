//! SPNEGO negotiation (RFC 4178, MS-SPNG): agreeing on a mechanism, and protecting that agreement.
//!
//! - `Negotiate`: one end of a negotiation over any two mechanisms. Each step is a plan of
//!   questions to the selected mechanism. `specs/Client.antt` and `specs/Server.antt` have a
//!   definition for each row of their tables. `specs/Follows.antt` says where a plan leads, and
//!   `specs/Reaches.antt` what is selected if running out of memory breaks it off.
//!   `specs/Negotiate.antt` says what a negotiation means, `specs/New.antt` what it begins with.
//! - `negotiation_laws`: a negotiation is a context; no package is enabled again, the list stays,
//!   and MICs protect it.
//! - `laws`: a package list means the same whether its names are read at once or one by one.
//! - `PackageListConfig`: which packages a list of names allows; `is_ip_text`: whether a peer is
//!   named by an IP address, for which Kerberos has no name; `ProtocolConfig`, `NegotiateConfig`:
//!   what an end is made of; `NegotiatedProtocol`: the selected mechanism; `FALLBACK_ERROR_KINDS`:
//!   the refusals of Kerberos after which a client tries NTLM.
#![tactic(auto)]

mod acquire;
mod answering;
pub mod branch;
mod client;
mod confirming;
mod context;
pub mod fallback;
mod hand;
pub mod ip_text;
mod known;
pub mod laws;
mod messages;
mod mic;
pub mod negotiate;
pub mod negotiate_config;
pub mod negotiation_laws;
mod new;
mod opening;
pub mod package_list;
pub mod pick;
pub mod protocol;
pub mod protocol_config;
mod queries;
mod refusal;
mod rows;
mod rule;
mod server;
mod settling;
mod spelled;
pub mod state;
mod target;

pub use fallback::FALLBACK_ERROR_KINDS;
pub use ip_text::is_ip_text;
pub use negotiate::Negotiate;
pub use negotiate_config::NegotiateConfig;
pub use package_list::PackageListConfig;
pub use protocol::NegotiatedProtocol;
pub use protocol_config::ProtocolConfig;
pub use state::NegotiateState;
