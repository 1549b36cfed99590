//! Which security context an end authenticates by.

use sspi_mech::NtlmConfig;
use sspi_negotiate::NegotiateConfig;

/// Which security context a client authenticates by.
#[derive(Drop)]
pub enum ClientMode {
    /// SPNEGO, which agrees with the server on one of the mechanisms.
    Negotiate(NegotiateConfig),
    /// NTLM alone, without SPNEGO.
    Ntlm(NtlmConfig),
}

/// Which security context a server authenticates by.
#[derive(Drop)]
pub enum ServerMode {
    /// SPNEGO, over the identities that the server's proxy lists when the context is made.
    Negotiate(NegotiateConfig),
    /// NTLM alone, without SPNEGO.
    Ntlm(NtlmConfig),
}
