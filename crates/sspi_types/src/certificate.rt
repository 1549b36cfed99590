//! How certificates are encoded, and what is known of their chain.

ghost use Rattle.std.specs.Prelude.{◌≡◌};
ghost use Rattle.sspi_types.specs.Certificates.{cert_encoding_type_number};
ghost use Rattle.sspi_types.specs.Numbers.{ReadsNumber};

use crate::cert_trust_error_status::CertTrustErrorStatus;
use crate::cert_trust_info_status::CertTrustInfoStatus;

/// How a certificate is encoded (`dwCertEncodingType` of CERT_CONTEXT).
#[derive(Clone, Copy, Debug, PartialEq, Eq)]
pub enum CertEncodingType {
    /// A PKCS #7 message (PKCS_7_ASN_ENCODING).
    Pkcs7AsnEncoding = 0x10000,
    /// An X.509 certificate (X509_ASN_ENCODING).
    X509AsnEncoding = 0x00001,
}

impl CertEncodingType {
    /// The value with this number, or `None` if the table has no such number.
    #[tactic(auto, using(crate::proofs::Numbers::same_cert_encoding_type))]
    pub fn from_u32(number: u32) -> Option<Self>
        ensures { ReadsNumber cert_encoding_type_number number result }
    {
        Some(match number {
            0x10000 => CertEncodingType::Pkcs7AsnEncoding,
            0x00001 => CertEncodingType::X509AsnEncoding,
            _ => return None,
        })
    }

    /// The number of this value.
    pub fn to_u32(self) -> u32
        ensures { result ≡ cert_encoding_type_number self }
    {
        self as u32
    }
}

/// Whether a certificate chain is trusted, and what is known of it (CERT_TRUST_STATUS).
#[derive(Clone, Copy, Debug, PartialEq, Eq)]
pub struct CertTrustStatus {
    /// Why the chain is not trusted; empty if it is.
    pub error_status: CertTrustErrorStatus,
    /// What else is known of it.
    pub info_status: CertTrustInfoStatus,
}
