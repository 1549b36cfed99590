//! QueryContextAttributes of a security context.

ghost use Rattle.std.specs.Prelude.{◌≡◌, Some, None, IfOk};
ghost use Rattle.sspi_mech.specs.Calls.{ToDescribe, ToShowKey};
ghost use Rattle.sspi_messages.specs.Unsupported.{unsupported};
ghost use Rattle.sspi_credssp.specs.Refusal.{IsRefusedBy};
ghost use Rattle.sspi_credssp.specs.Context.{either};
ghost use Rattle.sspi_credssp.specs.Queries.{negotiated_entry, RefusesNegotiated};

use crate::context::SspiContext;
use sspi_mech::Mechanism;
use sspi_messages::unsupported;
use sspi_types::{
    CertTrustStatus, ConnectionInfo, ContextSizes, Error, PackageInfo, SessionKeys, StreamSizes,
};

impl<N: Mechanism, K: Mechanism> SspiContext<N, K> {
    /// The sizes that users of the selected mechanism must know.
    pub fn query_context_sizes(&self) -> ContextSizes
        ensures { result ≡ (either N.REQUESTS N.meaning K.meaning).sizes self.now }
    {
        match self {
            SspiContext::Negotiate(negotiation) => negotiation.query_context_sizes(),
            SspiContext::Ntlm(mechanism) => mechanism.sizes(),
            SspiContext::Kerberos(mechanism) => mechanism.sizes(),
        }
    }

    /// The session key of the selected mechanism. With the plain mechanisms `OutOfSequence` before
    /// there is one.
    pub fn query_context_session_key(&self) -> Result<SessionKeys, Error>
        ensures key { IfOk result (λ keys.
            (either N.REQUESTS N.meaning K.meaning).session_key self.now ≡ Some
            keys.session_key.value) }
        ensures cause { IsRefusedBy result ((either N.REQUESTS N.meaning K.meaning).refuses self.now
            ToShowKey) }
    {
        match self {
            SspiContext::Negotiate(negotiation) => negotiation.query_context_session_key(),
            SspiContext::Ntlm(mechanism) => mechanism.session_key(),
            SspiContext::Kerberos(mechanism) => mechanism.session_key(),
        }
    }

    /// The entry of the package: that of Negotiate for a negotiation, otherwise that of the
    /// mechanism.
    pub fn query_context_package_info(&self) -> Result<PackageInfo, Error>
        ensures entry { IfOk result (λ info. info ≡ (either N.REQUESTS N.meaning K.meaning).entry
            self.now) }
        ensures cause { IsRefusedBy result ((either N.REQUESTS N.meaning K.meaning).refuses self.now
            ToDescribe) }
    {
        match self {
            SspiContext::Negotiate(negotiation) => negotiation.query_context_package_info(),
            SspiContext::Ntlm(mechanism) => mechanism.package_info(),
            SspiContext::Kerberos(mechanism) => mechanism.package_info(),
        }
    }

    /// The entry of the mechanism that a negotiation has selected. `UnsupportedFunction` if nothing
    /// was negotiated.
    pub fn query_context_negotiation_package(&self) -> Result<PackageInfo, Error>
        ensures entry { IfOk result (λ info. negotiated_entry N.meaning K.meaning self.now ≡ Some
            info) }
        ensures none { negotiated_entry N.meaning K.meaning self.now ≡ None →
            result ≡ Err unsupported }
        ensures cause { IsRefusedBy result (RefusesNegotiated N.meaning K.meaning self.now) }
    {
        match self {
            SspiContext::Negotiate(negotiation) => negotiation.query_context_negotiation_package(),
            SspiContext::Ntlm(_) | SspiContext::Kerberos(_) => Err(unsupported()),
        }
    }

    /// Always `UnsupportedFunction`: no package here has streams.
    pub fn query_context_stream_sizes(&self) -> Result<StreamSizes, Error>
        ensures { result ≡ Err unsupported }
    {
        Err(unsupported())
    }

    /// Always `UnsupportedFunction`: no package here has certificates.
    pub fn query_context_cert_trust_status(&self) -> Result<CertTrustStatus, Error>
        ensures { result ≡ Err unsupported }
    {
        Err(unsupported())
    }

    /// Always `UnsupportedFunction`: no package here has a connection of its own.
    pub fn query_context_connection_info(&self) -> Result<ConnectionInfo, Error>
        ensures { result ≡ Err unsupported }
    {
        Err(unsupported())
    }
}
