//! Why a certificate chain is not trusted.

ghost use Rattle.std.specs.Prelude.{⊤, ◌≡◌};
ghost use Rattle.std.specs.Int.RustNames.{bit_or};
ghost use Rattle.sspi_types.specs.CertTrustFlags.{cert_trust_error_flags};

use bitflags::{Flag, Flags};
use std::ops::BitOr;

/// Why a certificate chain is not trusted (`dwErrorStatus` of CERT_TRUST_STATUS).
#[derive(Clone, Copy, Debug, PartialEq, Eq, PartialOrd, Ord, Hash)]
pub struct CertTrustErrorStatus(u32);

impl CertTrustErrorStatus {
    /// No fault was found (CERT_TRUST_NO_ERROR).
    pub const NO_ERROR: CertTrustErrorStatus = CertTrustErrorStatus(0x00000000);

    /// A certificate is not valid at this time (CERT_TRUST_IS_NOT_TIME_VALID).
    pub const IS_NOT_TIME_VALID: CertTrustErrorStatus = CertTrustErrorStatus(0x00000001);

    /// A certificate outlives its issuer's (CERT_TRUST_IS_NOT_TIME_NESTED; no longer set).
    pub const IS_NOT_TIME_NESTED: CertTrustErrorStatus = CertTrustErrorStatus(0x00000002);

    /// A certificate was revoked (CERT_TRUST_IS_REVOKED).
    pub const IS_REVOKED: CertTrustErrorStatus = CertTrustErrorStatus(0x00000004);

    /// A signature does not verify (CERT_TRUST_IS_NOT_SIGNATURE_VALID).
    pub const IS_NOT_SIGNATURE_VALID: CertTrustErrorStatus = CertTrustErrorStatus(0x00000008);

    /// A certificate is not for this use (CERT_TRUST_IS_NOT_VALID_FOR_USAGE).
    pub const IS_NOT_VALID_FOR_USAGE: CertTrustErrorStatus = CertTrustErrorStatus(0x00000010);

    /// The root is not trusted (CERT_TRUST_IS_UNTRUSTED_ROOT).
    pub const IS_UNTRUSTED_ROOT: CertTrustErrorStatus = CertTrustErrorStatus(0x00000020);

    /// It is not known whether a certificate was revoked (CERT_TRUST_REVOCATION_STATUS_UNKNOWN).
    pub const REVOCATION_STATUS_UNKNOWN: CertTrustErrorStatus = CertTrustErrorStatus(0x00000040);

    /// A certificate occurs twice in the chain (CERT_TRUST_IS_CYCLIC).
    pub const IS_CYCLIC: CertTrustErrorStatus = CertTrustErrorStatus(0x00000080);

    /// An extension is malformed, or critical and unknown (CERT_TRUST_INVALID_EXTENSION).
    pub const INVALID_EXTENSION: CertTrustErrorStatus = CertTrustErrorStatus(0x00000100);

    /// The policies of the chain do not meet its constraints
    /// (CERT_TRUST_INVALID_POLICY_CONSTRAINTS).
    pub const INVALID_POLICY_CONSTRAINTS: CertTrustErrorStatus = CertTrustErrorStatus(0x00000200);

    /// An issuer is not a CA, or the chain is too long (CERT_TRUST_INVALID_BASIC_CONSTRAINTS).
    pub const INVALID_BASIC_CONSTRAINTS: CertTrustErrorStatus = CertTrustErrorStatus(0x00000400);

    /// The name constraints are malformed (CERT_TRUST_INVALID_NAME_CONSTRAINTS).
    pub const INVALID_NAME_CONSTRAINTS: CertTrustErrorStatus = CertTrustErrorStatus(0x00000800);

    /// A name constraint is of a form that is not supported
    /// (CERT_TRUST_HAS_NOT_SUPPORTED_NAME_CONSTRAINT).
    pub const HAS_NOT_SUPPORTED_NAME_CONSTRAINT: CertTrustErrorStatus = CertTrustErrorStatus(
        0x00001000,
    );

    /// A name has no constraint of its form (CERT_TRUST_HAS_NOT_DEFINED_NAME_CONSTRAINT).
    pub const HAS_NOT_DEFINED_NAME_CONSTRAINT: CertTrustErrorStatus = CertTrustErrorStatus(
        0x00002000,
    );

    /// A name is not among those permitted (CERT_TRUST_HAS_NOT_PERMITTED_NAME_CONSTRAINT).
    pub const HAS_NOT_PERMITTED_NAME_CONSTRAINT: CertTrustErrorStatus = CertTrustErrorStatus(
        0x00004000,
    );

    /// A name is among those excluded (CERT_TRUST_HAS_EXCLUDED_NAME_CONSTRAINT).
    pub const HAS_EXCLUDED_NAME_CONSTRAINT: CertTrustErrorStatus = CertTrustErrorStatus(0x00008000);

    /// The chain does not reach a root (CERT_TRUST_IS_PARTIAL_CHAIN).
    pub const IS_PARTIAL_CHAIN: CertTrustErrorStatus = CertTrustErrorStatus(0x00010000);

    /// A trust list is not valid at this time (CERT_TRUST_CTL_IS_NOT_TIME_VALID).
    pub const CTL_IS_NOT_TIME_VALID: CertTrustErrorStatus = CertTrustErrorStatus(0x00020000);

    /// The signature of a trust list does not verify (CERT_TRUST_CTL_IS_NOT_SIGNATURE_VALID).
    pub const CTL_IS_NOT_SIGNATURE_VALID: CertTrustErrorStatus = CertTrustErrorStatus(0x00040000);

    /// A trust list is not for this use (CERT_TRUST_CTL_IS_NOT_VALID_FOR_USAGE).
    pub const CTL_IS_NOT_VALID_FOR_USAGE: CertTrustErrorStatus = CertTrustErrorStatus(0x00080000);

    /// Revocation could not be checked online (CERT_TRUST_IS_OFFLINE_REVOCATION).
    pub const IS_OFFLINE_REVOCATION: CertTrustErrorStatus = CertTrustErrorStatus(0x01000000);

    /// The chain has no issuance policy, where one is required
    /// (CERT_TRUST_NO_ISSUANCE_CHAIN_POLICY).
    pub const NO_ISSUANCE_CHAIN_POLICY: CertTrustErrorStatus = CertTrustErrorStatus(0x02000000);

    /// The flags that have a name, in the order of their table.
    pub const FLAGS: &'static [Flag<CertTrustErrorStatus>] = &[
        Flag {
            name: "NO_ERROR",
            value: CertTrustErrorStatus::NO_ERROR,
        },
        Flag {
            name: "IS_NOT_TIME_VALID",
            value: CertTrustErrorStatus::IS_NOT_TIME_VALID,
        },
        Flag {
            name: "IS_NOT_TIME_NESTED",
            value: CertTrustErrorStatus::IS_NOT_TIME_NESTED,
        },
        Flag {
            name: "IS_REVOKED",
            value: CertTrustErrorStatus::IS_REVOKED,
        },
        Flag {
            name: "IS_NOT_SIGNATURE_VALID",
            value: CertTrustErrorStatus::IS_NOT_SIGNATURE_VALID,
        },
        Flag {
            name: "IS_NOT_VALID_FOR_USAGE",
            value: CertTrustErrorStatus::IS_NOT_VALID_FOR_USAGE,
        },
        Flag {
            name: "IS_UNTRUSTED_ROOT",
            value: CertTrustErrorStatus::IS_UNTRUSTED_ROOT,
        },
        Flag {
            name: "REVOCATION_STATUS_UNKNOWN",
            value: CertTrustErrorStatus::REVOCATION_STATUS_UNKNOWN,
        },
        Flag {
            name: "IS_CYCLIC",
            value: CertTrustErrorStatus::IS_CYCLIC,
        },
        Flag {
            name: "INVALID_EXTENSION",
            value: CertTrustErrorStatus::INVALID_EXTENSION,
        },
        Flag {
            name: "INVALID_POLICY_CONSTRAINTS",
            value: CertTrustErrorStatus::INVALID_POLICY_CONSTRAINTS,
        },
        Flag {
            name: "INVALID_BASIC_CONSTRAINTS",
            value: CertTrustErrorStatus::INVALID_BASIC_CONSTRAINTS,
        },
        Flag {
            name: "INVALID_NAME_CONSTRAINTS",
            value: CertTrustErrorStatus::INVALID_NAME_CONSTRAINTS,
        },
        Flag {
            name: "HAS_NOT_SUPPORTED_NAME_CONSTRAINT",
            value: CertTrustErrorStatus::HAS_NOT_SUPPORTED_NAME_CONSTRAINT,
        },
        Flag {
            name: "HAS_NOT_DEFINED_NAME_CONSTRAINT",
            value: CertTrustErrorStatus::HAS_NOT_DEFINED_NAME_CONSTRAINT,
        },
        Flag {
            name: "HAS_NOT_PERMITTED_NAME_CONSTRAINT",
            value: CertTrustErrorStatus::HAS_NOT_PERMITTED_NAME_CONSTRAINT,
        },
        Flag {
            name: "HAS_EXCLUDED_NAME_CONSTRAINT",
            value: CertTrustErrorStatus::HAS_EXCLUDED_NAME_CONSTRAINT,
        },
        Flag {
            name: "IS_PARTIAL_CHAIN",
            value: CertTrustErrorStatus::IS_PARTIAL_CHAIN,
        },
        Flag {
            name: "CTL_IS_NOT_TIME_VALID",
            value: CertTrustErrorStatus::CTL_IS_NOT_TIME_VALID,
        },
        Flag {
            name: "CTL_IS_NOT_SIGNATURE_VALID",
            value: CertTrustErrorStatus::CTL_IS_NOT_SIGNATURE_VALID,
        },
        Flag {
            name: "CTL_IS_NOT_VALID_FOR_USAGE",
            value: CertTrustErrorStatus::CTL_IS_NOT_VALID_FOR_USAGE,
        },
        Flag {
            name: "IS_OFFLINE_REVOCATION",
            value: CertTrustErrorStatus::IS_OFFLINE_REVOCATION,
        },
        Flag {
            name: "NO_ISSUANCE_CHAIN_POLICY",
            value: CertTrustErrorStatus::NO_ISSUANCE_CHAIN_POLICY,
        },
    ];
}

impl Flags for CertTrustErrorStatus {
    type Bits = u32;

    ghost exact = { ⊤ };

    ghost table = { cert_trust_error_flags };

    ghost set_of = { λ flags. flags.0 };

    fn flags<'a>() -> &'a [Flag<CertTrustErrorStatus>] {
        CertTrustErrorStatus::FLAGS
    }

    fn bits(&self) -> u32 {
        self.0
    }

    fn from_bits_retain(bits: u32) -> CertTrustErrorStatus {
        CertTrustErrorStatus(bits)
    }
}

/// The union: the flags of either side.
impl BitOr for CertTrustErrorStatus {
    type Output = CertTrustErrorStatus;

    ghost bitor_gives = { λ left right both. both.0 ≡ bit_or left.0 right.0 };

    fn bitor(self, other: CertTrustErrorStatus) -> CertTrustErrorStatus {
        self.union(other)
    }
}
