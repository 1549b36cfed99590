//! Numbers of the headers, under their names.

use bitflags::Flags;
use sspi_types::{
    BufferType, CertEncodingType, CertTrustErrorStatus, CertTrustInfoStatus, ClientRequestFlags,
    ClientResponseFlags, ConnectionCipher, ConnectionHash, ConnectionKeyExchange,
    ConnectionProtocol, CredentialUse, DataRepresentation, DecryptionFlags, EncryptionFlags,
    ErrorKind, NStatusCode, PackageCapabilities, SECBUFFER_ATTRMASK, SecurityBufferFlags,
    SecurityStatus, ServerRequestFlags, ServerResponseFlags,
};
use std::process::Abort;

/// Each number is the one that the header has under its name.
fn are_of_the_header(rt: &impl Abort, table: &[(u32, u32, &str)]) {
    for (number, header, name) in table {
        assert_eq!(rt; number, header, "{name}");
    }
}

/// The error codes of `winerror.h`.
#[test]
fn kinds_have_the_numbers_of_winerror(rt: HostRuntime) {
    let table = [
        (
            ErrorKind::InsufficientMemory.to_u32(),
            0x80090300,
            "SEC_E_INSUFFICIENT_MEMORY",
        ),
        (
            ErrorKind::InvalidToken.to_u32(),
            0x80090308,
            "SEC_E_INVALID_TOKEN",
        ),
        (
            ErrorKind::LogonDenied.to_u32(),
            0x8009030C,
            "SEC_E_LOGON_DENIED",
        ),
        (
            ErrorKind::MessageAltered.to_u32(),
            0x8009030F,
            "SEC_E_MESSAGE_ALTERED",
        ),
        (
            ErrorKind::OutOfSequence.to_u32(),
            0x80090310,
            "SEC_E_OUT_OF_SEQUENCE",
        ),
        (
            ErrorKind::IncompleteMessage.to_u32(),
            0x80090318,
            "SEC_E_INCOMPLETE_MESSAGE",
        ),
        (
            ErrorKind::DecryptFailure.to_u32(),
            0x80090330,
            "SEC_E_DECRYPT_FAILURE",
        ),
        (
            ErrorKind::DowngradeDetected.to_u32(),
            0x80090350,
            "SEC_E_DOWNGRADE_DETECTED",
        ),
        (
            ErrorKind::PolicyNtlmOnly.to_u32(),
            0x8009035F,
            "SEC_E_POLICY_NLTM_ONLY",
        ),
        (
            ErrorKind::ApplicationProtocolMismatch.to_u32(),
            0x80090367,
            "SEC_E_APPLICATION_PROTOCOL_MISMATCH",
        ),
    ];
    are_of_the_header(&rt, &table);
}

/// The statuses of `winerror.h`.
#[test]
fn statuses_have_the_numbers_of_winerror(rt: HostRuntime) {
    let table = [
        (
            SecurityStatus::ContinueNeeded.to_u32(),
            0x00090312,
            "SEC_I_CONTINUE_NEEDED",
        ),
        (
            SecurityStatus::CompleteAndContinue.to_u32(),
            0x00090314,
            "SEC_I_COMPLETE_AND_CONTINUE",
        ),
        (
            SecurityStatus::Renegotiate.to_u32(),
            0x00090321,
            "SEC_I_RENEGOTIATE",
        ),
    ];
    are_of_the_header(&rt, &table);
}

/// The constants of `sspi.h`.
#[test]
fn constants_have_the_numbers_of_sspi(rt: HostRuntime) {
    let table = [
        (BufferType::Token.to_u32(), 2, "SECBUFFER_TOKEN"),
        (
            BufferType::ChannelBindings.to_u32(),
            14,
            "SECBUFFER_CHANNEL_BINDINGS",
        ),
        (
            BufferType::ApplicationProtocol.to_u32(),
            18,
            "SECBUFFER_APPLICATION_PROTOCOLS",
        ),
        (
            BufferType::ReadOnly.to_u32(),
            0x80000000,
            "SECBUFFER_READONLY",
        ),
        (SECBUFFER_ATTRMASK, 0xF0000000, "SECBUFFER_ATTRMASK"),
        (
            DataRepresentation::Native.to_u32(),
            0x10,
            "SECURITY_NATIVE_DREP",
        ),
        (CredentialUse::Outbound.to_u32(), 2, "SECPKG_CRED_OUTBOUND"),
    ];
    are_of_the_header(&rt, &table);
}

/// The constants of `schannel.h` and `wincrypt.h`.
#[test]
fn constants_have_the_numbers_of_schannel_and_wincrypt(rt: HostRuntime) {
    let table = [
        (
            ConnectionProtocol::SpProtTls1_2Client.to_u32(),
            0x800,
            "SP_PROT_TLS1_2_CLIENT",
        ),
        (
            ConnectionProtocol::SpProtTls1_3Server.to_u32(),
            0x1000,
            "SP_PROT_TLS1_3_SERVER",
        ),
        (
            ConnectionCipher::CalgAes256.to_u32(),
            0x6610,
            "CALG_AES_256",
        ),
        (ConnectionCipher::CalgRc4.to_u32(), 0x6801, "CALG_RC4"),
        (ConnectionHash::CalgSha.to_u32(), 0x8004, "CALG_SHA"),
        (
            ConnectionKeyExchange::CalgDhEphem.to_u32(),
            0xAA02,
            "CALG_DH_EPHEM",
        ),
        (
            CertEncodingType::X509AsnEncoding.to_u32(),
            1,
            "X509_ASN_ENCODING",
        ),
    ];
    are_of_the_header(&rt, &table);
}

/// The status codes of `ntstatus.h`.
#[test]
fn status_codes_have_the_numbers_of_ntstatus(rt: HostRuntime) {
    let table = [
        (
            NStatusCode::WRONG_PASSWORD.0,
            0xC000006A,
            "STATUS_WRONG_PASSWORD",
        ),
        (
            NStatusCode::LOGON_TYPE_NOT_GRANTED.0,
            0xC000015B,
            "STATUS_LOGON_TYPE_NOT_GRANTED",
        ),
        (
            NStatusCode::ACCOUNT_LOCKED_OUT.0,
            0xC0000234,
            "STATUS_ACCOUNT_LOCKED_OUT",
        ),
        (
            NStatusCode::NO_QUOTAS_FOR_ACCOUNT.0,
            0x0000010D,
            "STATUS_NO_QUOTAS_FOR_ACCOUNT",
        ),
        (
            NStatusCode::CTX_LOGON_DISABLED.0,
            0xC00A0037,
            "STATUS_CTX_LOGON_DISABLED",
        ),
    ];
    are_of_the_header(&rt, &table);
}

/// The flags of `sspi.h` that a context is asked for or answers with.
#[test]
fn context_flags_have_the_bits_of_sspi(rt: HostRuntime) {
    let table = [
        (
            ClientRequestFlags::MUTUAL_AUTH.bits(),
            0x00000002,
            "ISC_REQ_MUTUAL_AUTH",
        ),
        (
            ClientRequestFlags::EXTENDED_ERROR.bits(),
            0x00004000,
            "ISC_REQ_EXTENDED_ERROR",
        ),
        (
            ClientRequestFlags::UNVERIFIED_TARGET_NAME.bits(),
            0x20000000,
            "ISC_REQ_UNVERIFIED_TARGET_NAME",
        ),
        (
            ServerRequestFlags::EXTENDED_ERROR.bits(),
            0x00008000,
            "ASC_REQ_EXTENDED_ERROR",
        ),
        (
            ServerRequestFlags::ALLOW_MISSING_BINDINGS.bits(),
            0x10000000,
            "ASC_REQ_ALLOW_MISSING_BINDINGS",
        ),
        (
            ClientResponseFlags::INTERMEDIATE_RETURN.bits(),
            0x00001000,
            "ISC_RET_INTERMEDIATE_RETURN",
        ),
        (
            ClientResponseFlags::REAUTHENTICATION.bits(),
            0x08000000,
            "ISC_RET_REAUTHENTICATION",
        ),
        (
            ServerResponseFlags::THIRD_LEG_FAILED.bits(),
            0x00004000,
            "ASC_RET_THIRD_LEG_FAILED",
        ),
    ];
    are_of_the_header(&rt, &table);
}

/// The other flags of `sspi.h`.
#[test]
fn other_flags_have_the_bits_of_sspi(rt: HostRuntime) {
    let table = [
        (
            PackageCapabilities::NEGOTIABLE.bits(),
            0x00000800,
            "SECPKG_FLAG_NEGOTIABLE",
        ),
        (
            PackageCapabilities::APP_CONTAINER_CHECKS.bits(),
            0x00800000,
            "SECPKG_FLAG_APPCONTAINER_CHECKS",
        ),
        (
            EncryptionFlags::WRAP_OOB_DATA.bits(),
            0x40000000,
            "SECQOP_WRAP_OOB_DATA",
        ),
        (
            DecryptionFlags::WRAP_NO_ENCRYPT.bits(),
            0x80000001,
            "SECQOP_WRAP_NO_ENCRYPT",
        ),
        (
            SecurityBufferFlags::SECBUFFER_READONLY_WITH_CHECKSUM.bits(),
            0x10000000,
            "SECBUFFER_READONLY_WITH_CHECKSUM",
        ),
    ];
    are_of_the_header(&rt, &table);
}

/// The flags of `wincrypt.h`.
#[test]
fn flags_have_the_bits_of_wincrypt(rt: HostRuntime) {
    let table = [
        (
            CertTrustErrorStatus::IS_REVOKED.bits(),
            0x00000004,
            "CERT_TRUST_IS_REVOKED",
        ),
        (
            CertTrustErrorStatus::IS_OFFLINE_REVOCATION.bits(),
            0x01000000,
            "CERT_TRUST_IS_OFFLINE_REVOCATION",
        ),
        (
            CertTrustInfoStatus::IS_PEER_TRUSTED.bits(),
            0x00000800,
            "CERT_TRUST_IS_PEER_TRUSTED",
        ),
        (
            CertTrustInfoStatus::IS_COMPLEX_CHAIN.bits(),
            0x00010000,
            "CERT_TRUST_IS_COMPLEX_CHAIN",
        ),
    ];
    are_of_the_header(&rt, &table);
}

/// A union has the bits of both.
#[test]
fn a_union_has_the_bits_of_both(rt: HostRuntime) {
    let both = ClientRequestFlags::STREAM | ClientRequestFlags::DELEGATE;
    assert_eq!(rt; both.bits(), 0x00008001);
}
