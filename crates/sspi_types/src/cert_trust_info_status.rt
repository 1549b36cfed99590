//! What is known of a certificate chain.

ghost use Rattle.std.specs.Prelude.{⊤, ◌≡◌};
ghost use Rattle.std.specs.Int.RustNames.{bit_or};
ghost use Rattle.sspi_types.specs.CertTrustFlags.{cert_trust_info_flags};

use bitflags::{Flag, Flags};
use std::ops::BitOr;

/// What is known of a certificate chain (`dwInfoStatus` of CERT_TRUST_STATUS).
#[derive(Clone, Copy, Debug, PartialEq, Eq, PartialOrd, Ord, Hash)]
pub struct CertTrustInfoStatus(u32);

impl CertTrustInfoStatus {
    /// The issuer was found by its name and serial number (CERT_TRUST_HAS_EXACT_MATCH_ISSUER).
    pub const HAS_EXACT_MATCH_ISSUER: CertTrustInfoStatus = CertTrustInfoStatus(0x00000001);

    /// The issuer was found by its key (CERT_TRUST_HAS_KEY_MATCH_ISSUER).
    pub const HAS_KEY_MATCH_ISSUER: CertTrustInfoStatus = CertTrustInfoStatus(0x00000002);

    /// The issuer was found by its name (CERT_TRUST_HAS_NAME_MATCH_ISSUER).
    pub const HAS_NAME_MATCH_ISSUER: CertTrustInfoStatus = CertTrustInfoStatus(0x00000004);

    /// The certificate is signed by its own key (CERT_TRUST_IS_SELF_SIGNED).
    pub const IS_SELF_SIGNED: CertTrustInfoStatus = CertTrustInfoStatus(0x00000008);

    /// The revocation list of an authority was updated (CERT_TRUST_AUTO_UPDATE_CA_REVOCATION).
    pub const AUTO_UPDATE_CA_REVOCATION: CertTrustInfoStatus = CertTrustInfoStatus(0x00000010);

    /// The revocation list of the end certificate was updated
    /// (CERT_TRUST_AUTO_UPDATE_END_REVOCATION).
    pub const AUTO_UPDATE_END_REVOCATION: CertTrustInfoStatus = CertTrustInfoStatus(0x00000020);

    /// When OCSP failed, no revocation list was requested (CERT_TRUST_NO_OCSP_FAILOVER_TO_CRL).
    pub const NO_OCSP_FAILOVER_TO_CRL: CertTrustInfoStatus = CertTrustInfoStatus(0x00000040);

    /// The certificate signs the next key of its holder (CERT_TRUST_IS_KEY_ROLLOVER).
    pub const IS_KEY_ROLLOVER: CertTrustInfoStatus = CertTrustInfoStatus(0x00000080);

    /// The issuer is the preferred one (CERT_TRUST_HAS_PREFERRED_ISSUER).
    pub const HAS_PREFERRED_ISSUER: CertTrustInfoStatus = CertTrustInfoStatus(0x00000100);

    /// The chain has an issuance policy (CERT_TRUST_HAS_ISSUANCE_CHAIN_POLICY).
    pub const HAS_ISSUANCE_CHAIN_POLICY: CertTrustInfoStatus = CertTrustInfoStatus(0x00000200);

    /// The name constraints hold (CERT_TRUST_HAS_VALID_NAME_CONSTRAINTS).
    pub const HAS_VALID_NAME_CONSTRAINTS: CertTrustInfoStatus = CertTrustInfoStatus(0x00000400);

    /// The certificate itself is trusted (CERT_TRUST_IS_PEER_TRUSTED).
    pub const IS_PEER_TRUSTED: CertTrustInfoStatus = CertTrustInfoStatus(0x00000800);

    /// A revocation list is valid past its time (CERT_TRUST_HAS_CRL_VALIDITY_EXTENDED).
    pub const HAS_CRL_VALIDITY_EXTENDED: CertTrustInfoStatus = CertTrustInfoStatus(0x00001000);

    /// The root is from an exclusive trust store (CERT_TRUST_IS_FROM_EXCLUSIVE_TRUST_STORE).
    pub const IS_FROM_EXCLUSIVE_TRUST_STORE: CertTrustInfoStatus = CertTrustInfoStatus(0x00002000);

    /// The authority itself is trusted (CERT_TRUST_IS_CA_TRUSTED).
    pub const IS_CA_TRUSTED: CertTrustInfoStatus = CertTrustInfoStatus(0x00004000);

    /// The settings for weak signatures were updated (CERT_TRUST_HAS_AUTO_UPDATE_WEAK_SIGNATURE).
    pub const HAS_AUTO_UPDATE_WEAK_SIGNATURE: CertTrustInfoStatus = CertTrustInfoStatus(0x00008000);

    /// The chain is more than one simple chain (CERT_TRUST_IS_COMPLEX_CHAIN).
    pub const IS_COMPLEX_CHAIN: CertTrustInfoStatus = CertTrustInfoStatus(0x00010000);

    /// Weak signatures are allowed (CERT_TRUST_HAS_ALLOW_WEAK_SIGNATURE).
    pub const HAS_ALLOW_WEAK_SIGNATURE: CertTrustInfoStatus = CertTrustInfoStatus(0x00020000);

    /// An OCSP response came in the TLS handshake (CERT_TRUST_SSL_HANDSHAKE_OCSP).
    pub const SSL_HANDSHAKE_OCSP: CertTrustInfoStatus = CertTrustInfoStatus(0x00040000);

    /// That response is valid at this time (CERT_TRUST_SSL_TIME_VALID_OCSP).
    pub const SSL_TIME_VALID_OCSP: CertTrustInfoStatus = CertTrustInfoStatus(0x00080000);

    /// That response is from an earlier connection (CERT_TRUST_SSL_RECONNECT_OCSP).
    pub const SSL_RECONNECT_OCSP: CertTrustInfoStatus = CertTrustInfoStatus(0x00100000);

    /// The chain is valid at this time for TLS (CERT_TRUST_SSL_TIME_VALID).
    pub const SSL_TIME_VALID: CertTrustInfoStatus = CertTrustInfoStatus(0x01000000);

    /// Times were not checked (CERT_TRUST_NO_TIME_CHECK).
    pub const NO_TIME_CHECK: CertTrustInfoStatus = CertTrustInfoStatus(0x02000000);

    /// The flags that have a name, in the order of their table.
    pub const FLAGS: &'static [Flag<CertTrustInfoStatus>] = &[
        Flag {
            name: "HAS_EXACT_MATCH_ISSUER",
            value: CertTrustInfoStatus::HAS_EXACT_MATCH_ISSUER,
        },
        Flag {
            name: "HAS_KEY_MATCH_ISSUER",
            value: CertTrustInfoStatus::HAS_KEY_MATCH_ISSUER,
        },
        Flag {
            name: "HAS_NAME_MATCH_ISSUER",
            value: CertTrustInfoStatus::HAS_NAME_MATCH_ISSUER,
        },
        Flag {
            name: "IS_SELF_SIGNED",
            value: CertTrustInfoStatus::IS_SELF_SIGNED,
        },
        Flag {
            name: "AUTO_UPDATE_CA_REVOCATION",
            value: CertTrustInfoStatus::AUTO_UPDATE_CA_REVOCATION,
        },
        Flag {
            name: "AUTO_UPDATE_END_REVOCATION",
            value: CertTrustInfoStatus::AUTO_UPDATE_END_REVOCATION,
        },
        Flag {
            name: "NO_OCSP_FAILOVER_TO_CRL",
            value: CertTrustInfoStatus::NO_OCSP_FAILOVER_TO_CRL,
        },
        Flag {
            name: "IS_KEY_ROLLOVER",
            value: CertTrustInfoStatus::IS_KEY_ROLLOVER,
        },
        Flag {
            name: "HAS_PREFERRED_ISSUER",
            value: CertTrustInfoStatus::HAS_PREFERRED_ISSUER,
        },
        Flag {
            name: "HAS_ISSUANCE_CHAIN_POLICY",
            value: CertTrustInfoStatus::HAS_ISSUANCE_CHAIN_POLICY,
        },
        Flag {
            name: "HAS_VALID_NAME_CONSTRAINTS",
            value: CertTrustInfoStatus::HAS_VALID_NAME_CONSTRAINTS,
        },
        Flag {
            name: "IS_PEER_TRUSTED",
            value: CertTrustInfoStatus::IS_PEER_TRUSTED,
        },
        Flag {
            name: "HAS_CRL_VALIDITY_EXTENDED",
            value: CertTrustInfoStatus::HAS_CRL_VALIDITY_EXTENDED,
        },
        Flag {
            name: "IS_FROM_EXCLUSIVE_TRUST_STORE",
            value: CertTrustInfoStatus::IS_FROM_EXCLUSIVE_TRUST_STORE,
        },
        Flag {
            name: "IS_CA_TRUSTED",
            value: CertTrustInfoStatus::IS_CA_TRUSTED,
        },
        Flag {
            name: "HAS_AUTO_UPDATE_WEAK_SIGNATURE",
            value: CertTrustInfoStatus::HAS_AUTO_UPDATE_WEAK_SIGNATURE,
        },
        Flag {
            name: "IS_COMPLEX_CHAIN",
            value: CertTrustInfoStatus::IS_COMPLEX_CHAIN,
        },
        Flag {
            name: "HAS_ALLOW_WEAK_SIGNATURE",
            value: CertTrustInfoStatus::HAS_ALLOW_WEAK_SIGNATURE,
        },
        Flag {
            name: "SSL_HANDSHAKE_OCSP",
            value: CertTrustInfoStatus::SSL_HANDSHAKE_OCSP,
        },
        Flag {
            name: "SSL_TIME_VALID_OCSP",
            value: CertTrustInfoStatus::SSL_TIME_VALID_OCSP,
        },
        Flag {
            name: "SSL_RECONNECT_OCSP",
            value: CertTrustInfoStatus::SSL_RECONNECT_OCSP,
        },
        Flag {
            name: "SSL_TIME_VALID",
            value: CertTrustInfoStatus::SSL_TIME_VALID,
        },
        Flag {
            name: "NO_TIME_CHECK",
            value: CertTrustInfoStatus::NO_TIME_CHECK,
        },
    ];
}

impl Flags for CertTrustInfoStatus {
    type Bits = u32;

    ghost exact = { ⊤ };

    ghost table = { cert_trust_info_flags };

    ghost set_of = { λ flags. flags.0 };

    fn flags<'a>() -> &'a [Flag<CertTrustInfoStatus>] {
        CertTrustInfoStatus::FLAGS
    }

    fn bits(&self) -> u32 {
        self.0
    }

    fn from_bits_retain(bits: u32) -> CertTrustInfoStatus {
        CertTrustInfoStatus(bits)
    }
}

/// The union: the flags of either side.
impl BitOr for CertTrustInfoStatus {
    type Output = CertTrustInfoStatus;

    ghost bitor_gives = { λ left right both. both.0 ≡ bit_or left.0 right.0 };

    fn bitor(self, other: CertTrustInfoStatus) -> CertTrustInfoStatus {
        self.union(other)
    }
}
