//! The selected mechanism of a negotiation.

ghost use Rattle.std.specs.Prelude.{◌≡◌};
ghost use Rattle.sspi_negotiate.specs.Hand.{hand_of, is_kerberos_hand};
ghost use Rattle.sspi_negotiate.specs.Protocol.{is_kerberos, is_ntlm, protocol_name};

/// The selected mechanism.
#[derive(Drop)]
pub enum NegotiatedProtocol<N, K> {
    Kerberos(K),
    Ntlm(N),
}

/// Its name.
#[derive(Clone, Copy, Debug, PartialEq, Eq)]
pub enum Protocol {
    Kerberos,
    Ntlm,
}

impl Protocol {
    pub(crate) fn is_kerberos(self) -> bool
        ensures { result ≡ is_kerberos_hand self }
    {
        match self {
            Protocol::Kerberos => true,
            Protocol::Ntlm => false,
        }
    }
}

impl<N, K> NegotiatedProtocol<N, K> {
    pub(crate) fn protocol(&self) -> Protocol
        ensures { result ≡ hand_of self.now }
    {
        match self {
            NegotiatedProtocol::Kerberos(_) => Protocol::Kerberos,
            NegotiatedProtocol::Ntlm(_) => Protocol::Ntlm,
        }
    }

    /// `Kerberos` or `NTLM`, the name of the selected package.
    pub fn protocol_name(&self) -> &'static str
        ensures { result.now ≡ protocol_name self.now }
    {
        match self {
            NegotiatedProtocol::Kerberos(_) => "Kerberos",
            NegotiatedProtocol::Ntlm(_) => "NTLM",
        }
    }

    /// Whether Kerberos is selected.
    pub fn is_kerberos(&self) -> bool
        ensures { result ≡ is_kerberos self.now }
    {
        match self {
            NegotiatedProtocol::Kerberos(_) => true,
            NegotiatedProtocol::Ntlm(_) => false,
        }
    }

    /// Whether NTLM is selected.
    pub fn is_ntlm(&self) -> bool
        ensures { result ≡ is_ntlm self.now }
    {
        match self {
            NegotiatedProtocol::Kerberos(_) => false,
            NegotiatedProtocol::Ntlm(_) => true,
        }
    }
}
