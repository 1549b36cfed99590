//! QueryContextAttributes of a negotiation.

ghost use Rattle.std.specs.Prelude.{◌≡◌, ◌≢◌, Some, None, IfOk, IfErr};
ghost use Rattle.sspi_types.specs.Errors.{memory_error};
ghost use Rattle.sspi_types.specs.Packages.{negotiate_entry};
ghost use Rattle.sspi_mech.specs.Calls.{ToDescribe, ToShowKey};
ghost use Rattle.sspi_messages.specs.Unsupported.{unsupported};
ghost use Rattle.sspi_negotiate.specs.Hand.{hand};
ghost use Rattle.sspi_negotiate.specs.Negotiate.{negotiate};

use crate::negotiate::Negotiate;
use crate::protocol::NegotiatedProtocol;
use sspi_mech::Mechanism;
use sspi_messages::unsupported;
use sspi_types::{
    CertTrustStatus, ConnectionInfo, ContextSizes, Error, ErrorKind, PackageInfo, SessionKeys,
    StreamSizes, negotiate_package_info,
};

impl<N: Mechanism, K: Mechanism> Negotiate<N, K> {
    /// The sizes that users of the selected mechanism must know.
    pub fn query_context_sizes(&self) -> ContextSizes
        ensures { result ≡ (negotiate N.REQUESTS N.meaning K.meaning).sizes self.now }
    {
        match &self.protocol {
            NegotiatedProtocol::Ntlm(mechanism) => mechanism.sizes(),
            NegotiatedProtocol::Kerberos(mechanism) => mechanism.sizes(),
        }
    }

    /// The session key of the selected mechanism. With the plain mechanisms, `OutOfSequence` before
    /// there is one.
    pub fn query_context_session_key(&self) -> Result<SessionKeys, Error>
        ensures key { IfOk result (λ keys.
            (negotiate N.REQUESTS N.meaning K.meaning).session_key self.now ≡ Some
            keys.session_key.value) }
        ensures codeless { IfErr result (λ error. error.nstatus ≡ None) }
        ensures cause { IfErr result (λ error. error.error_type ≢ ErrorKind.InsufficientMemory →
            (negotiate N.REQUESTS N.meaning K.meaning).refuses self.now ToShowKey
            error.error_type) }
    {
        match &self.protocol {
            NegotiatedProtocol::Ntlm(mechanism) => mechanism.session_key(),
            NegotiatedProtocol::Kerberos(mechanism) => mechanism.session_key(),
        }
    }

    /// The entry of Negotiate, whichever mechanism is selected. Refused only when out of memory.
    pub fn query_context_package_info(&self) -> Result<PackageInfo, Error>
        ensures entry { IfOk result (λ info. info ≡ (negotiate N.REQUESTS N.meaning K.meaning).entry
            self.now) }
        ensures own { IfOk result (λ info. info ≡ negotiate_entry) }
        ensures memory { IfErr result (λ error. error ≡ memory_error) }
    {
        negotiate_package_info(self.alloc)
    }

    /// The entry of the selected mechanism.
    pub fn query_context_negotiation_package(&self) -> Result<PackageInfo, Error>
        ensures entry { IfOk result (λ info. info ≡ (hand N.meaning K.meaning).entry
            self.now.mech) }
        ensures codeless { IfErr result (λ error. error.nstatus ≡ None) }
        ensures cause { IfErr result (λ error. error.error_type ≢ ErrorKind.InsufficientMemory →
            (hand N.meaning K.meaning).refuses self.now.mech ToDescribe error.error_type) }
    {
        match &self.protocol {
            NegotiatedProtocol::Ntlm(mechanism) => mechanism.package_info(),
            NegotiatedProtocol::Kerberos(mechanism) => mechanism.package_info(),
        }
    }

    /// Always `UnsupportedFunction`: a negotiation has no stream.
    pub fn query_context_stream_sizes(&self) -> Result<StreamSizes, Error>
        ensures { result ≡ Err unsupported }
    {
        Err(unsupported())
    }

    /// Always `UnsupportedFunction`: a negotiation has no certificates.
    pub fn query_context_cert_trust_status(&self) -> Result<CertTrustStatus, Error>
        ensures { result ≡ Err unsupported }
    {
        Err(unsupported())
    }

    /// Always `UnsupportedFunction`: a negotiation has no connection of its own.
    pub fn query_context_connection_info(&self) -> Result<ConnectionInfo, Error>
        ensures { result ≡ Err unsupported }
    {
        Err(unsupported())
    }
}
