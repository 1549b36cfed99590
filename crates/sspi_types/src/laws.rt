//! Laws of the tables. Their functions do nothing: each law is the contract of its function.

ghost use Rattle.std.specs.Prelude.{◌≡◌, ◌≤◌, ◌<◌, ◌^◌, ◌==◌, ◌&&◌, ℕ, Result, Ok, map, codes};
ghost use Rattle.std.specs.Int.RustNames.{bit_and};
ghost use Rattle.sspi_types.specs.declared.buffer_flags.SecurityBufferFlags.{SecurityBufferFlags};
ghost use Rattle.sspi_types.specs.declared.buffer_type.BufferType.TheVariants.{Empty};
ghost use Rattle.sspi_types.specs.declared.error.Error.{Error};
ghost use Rattle.sspi_types.specs.declared.security_buffer_type.SecurityBufferType.{SecurityBufferType};
ghost use Rattle.sspi_types.specs.Numbers.{AreDistinct, AreReadBack, ComparesNumbers, numbers_of};
ghost use Rattle.sspi_types.specs.SecurityBufferTypes.{ReadsBufferType, packed_buffer_type};
ghost use Rattle.sspi_types.specs.Errors.{error_kind_number};
ghost use Rattle.sspi_types.specs.SecurityStatuses.{security_status_number};
ghost use Rattle.sspi_types.specs.BufferTypes.{buffer_type_number};
ghost use Rattle.sspi_types.specs.DataRepresentations.{data_representation_number};
ghost use Rattle.sspi_types.specs.CredentialUses.{credential_use_number};
ghost use Rattle.sspi_types.specs.Connections.{connection_protocol_number};
ghost use Rattle.sspi_types.specs.Connections.{connection_cipher_number};
ghost use Rattle.sspi_types.specs.Connections.{connection_hash_number};
ghost use Rattle.sspi_types.specs.Connections.{connection_key_exchange_number};
ghost use Rattle.sspi_types.specs.Certificates.{cert_encoding_type_number};
ghost use Rattle.sspi_types.specs.RequestFlags.{client_request_flags, server_request_flags};
ghost use Rattle.sspi_types.specs.ResponseFlags.{client_response_flags, server_response_flags};
ghost use Rattle.sspi_types.specs.Capabilities.{package_capabilities};
ghost use Rattle.sspi_types.specs.CertTrustFlags.{cert_trust_error_flags, cert_trust_info_flags};
ghost use Rattle.sspi_types.specs.BufferFlags.{security_buffer_flags};
ghost use Rattle.sspi_types.specs.ProtectionFlags.{encryption_flags, decryption_flags};
ghost use Rattle.sspi_types.specs.StatusCodes.{status_codes};
ghost use Rattle.sspi_types.specs.NamedConstants.{client_request_constants};
ghost use Rattle.sspi_types.specs.NamedConstants.{server_request_constants};
ghost use Rattle.sspi_types.specs.NamedConstants.{client_response_constants};
ghost use Rattle.sspi_types.specs.NamedConstants.{server_response_constants};
ghost use Rattle.sspi_types.specs.NamedConstants.{capability_constants, cert_trust_error_constants};
ghost use Rattle.sspi_types.specs.NamedConstants.{cert_trust_info_constants};
ghost use Rattle.sspi_types.specs.NamedConstants.{security_buffer_constants, encryption_constants};
ghost use Rattle.sspi_types.specs.NamedConstants.{decryption_constants, status_constants};

use crate::buffer_flags::SecurityBufferFlags;
use crate::buffer_type::BufferType;
use crate::certificate::CertEncodingType;
use crate::connection::{
    ConnectionCipher, ConnectionHash, ConnectionKeyExchange, ConnectionProtocol,
};
use crate::credential_use::CredentialUse;
use crate::data_representation::DataRepresentation;
use crate::error_kind::ErrorKind;
use crate::nstatus::NStatusCode;
use crate::package::PKG_NAME;
use crate::security_buffer_type::{SECBUFFER_ATTRMASK, SecurityBufferType};
use crate::security_status::SecurityStatus;

/// No two values of an enum of errors, statuses, buffers or credentials have the same number.
pub fn numbers_are_distinct()
    // Of statuses.
    ensures error_kind { AreDistinct error_kind_number }
    ensures security_status { AreDistinct security_status_number }
    // Of arguments.
    ensures buffer_type { AreDistinct buffer_type_number }
    ensures data_representation { AreDistinct data_representation_number }
    ensures credential_use { AreDistinct credential_use_number }
{}

/// No two values of an enum of connections or certificates have the same number.
pub fn connection_numbers_are_distinct()
    // Of a connection.
    ensures connection_protocol { AreDistinct connection_protocol_number }
    ensures connection_cipher { AreDistinct connection_cipher_number }
    ensures connection_hash { AreDistinct connection_hash_number }
    ensures connection_key_exchange { AreDistinct connection_key_exchange_number }
    // Of a certificate.
    ensures cert_encoding_type { AreDistinct cert_encoding_type_number }
{}

/// For an enum of errors, statuses, buffers or credentials, `from_u32` of a value's number gives
/// that value.
pub fn values_are_read_back()
    // Of statuses.
    ensures error_kind { AreReadBack error_kind_number }
    ensures security_status { AreReadBack security_status_number }
    // Of arguments.
    ensures buffer_type { AreReadBack buffer_type_number }
    ensures data_representation { AreReadBack data_representation_number }
    ensures credential_use { AreReadBack credential_use_number }
{}

/// For an enum of connections or certificates, `from_u32` of a value's number gives that value.
pub fn connection_values_are_read_back()
    // Of a connection.
    ensures connection_protocol { AreReadBack connection_protocol_number }
    ensures connection_cipher { AreReadBack connection_cipher_number }
    ensures connection_hash { AreReadBack connection_hash_number }
    ensures connection_key_exchange { AreReadBack connection_key_exchange_number }
    // Of a certificate.
    ensures cert_encoding_type { AreReadBack cert_encoding_type_number }
{}

/// `==` on an enum of errors, statuses, buffers or credentials, and on `NStatusCode`, compares the
/// numbers.
pub fn equality_is_of_numbers()
    // Of statuses.
    ensures error_kind { ComparesNumbers ⟦<ErrorKind as PartialEq>⟧.eq error_kind_number }
    ensures security_status { ComparesNumbers ⟦<SecurityStatus as PartialEq>⟧.eq
        security_status_number }
    // Of arguments.
    ensures buffer_type { ComparesNumbers ⟦<BufferType as PartialEq>⟧.eq buffer_type_number }
    ensures data_representation { ComparesNumbers ⟦<DataRepresentation as PartialEq>⟧.eq
        data_representation_number }
    ensures credential_use { ComparesNumbers ⟦<CredentialUse as PartialEq>⟧.eq
        credential_use_number }
    // Of NTSTATUS codes.
    ensures status { ComparesNumbers ⟦<NStatusCode as PartialEq>⟧.eq (λ code. code.0) }
{}

/// `==` on an enum of connections or certificates compares the numbers.
pub fn connection_equality_is_of_numbers()
    // Of a connection.
    ensures connection_protocol { ComparesNumbers ⟦<ConnectionProtocol as PartialEq>⟧.eq
        connection_protocol_number }
    ensures connection_cipher { ComparesNumbers ⟦<ConnectionCipher as PartialEq>⟧.eq
        connection_cipher_number }
    ensures connection_hash { ComparesNumbers ⟦<ConnectionHash as PartialEq>⟧.eq
        connection_hash_number }
    ensures connection_key_exchange { ComparesNumbers ⟦<ConnectionKeyExchange as PartialEq>⟧.eq
        connection_key_exchange_number }
    // Of a certificate.
    ensures cert_encoding_type { ComparesNumbers ⟦<CertEncodingType as PartialEq>⟧.eq
        cert_encoding_type_number }
{}

/// The named flags of contexts have the numbers of their tables.
pub fn context_flags_have_their_numbers()
    ensures client_request { map (λ flags. flags.0) client_request_constants
        ≡ numbers_of client_request_flags }
    ensures server_request { map (λ flags. flags.0) server_request_constants
        ≡ numbers_of server_request_flags }
    ensures client_response { map (λ flags. flags.0) client_response_constants
        ≡ numbers_of client_response_flags }
    ensures server_response { map (λ flags. flags.0) server_response_constants
        ≡ numbers_of server_response_flags }
{}

/// Named flags of packages, certificates, buffers and sealed messages have their tables' numbers.
pub fn other_flags_have_their_numbers()
    // Of packages and certificates.
    ensures capability { map (λ flags. flags.0) capability_constants
        ≡ numbers_of package_capabilities }
    ensures cert_trust_error { map (λ flags. flags.0) cert_trust_error_constants
        ≡ numbers_of cert_trust_error_flags }
    ensures cert_trust_info { map (λ flags. flags.0) cert_trust_info_constants
        ≡ numbers_of cert_trust_info_flags }
    // Of buffers and sealed messages.
    ensures security_buffer { map (λ flags. flags.0) security_buffer_constants
        ≡ numbers_of security_buffer_flags }
    ensures encryption { map (λ flags. flags.0) encryption_constants
        ≡ numbers_of encryption_flags }
    ensures decryption { map (λ flags. flags.0) decryption_constants
        ≡ numbers_of decryption_flags }
{}

/// The named NTSTATUS codes have the numbers of their table.
pub fn status_codes_have_their_numbers()
    ensures { map (λ code. code.0) status_constants ≡ numbers_of status_codes }
{}

/// The name of the package that negotiates, and the mask of a buffer's flags.
pub fn name_and_mask_are_fixed()
    ensures name { PKG_NAME.now ≡ codes "Negotiate" }
    ensures mask { SECBUFFER_ATTRMASK ≡ 0xf0000000 }
{}

/// `==` on `SecurityBufferType` compares both fields.
pub fn buffer_types_are_compared_by_both_fields()
    ensures { (a b : SecurityBufferType) → ⟦<SecurityBufferType as PartialEq>⟧.eq a b
        ≡ ((buffer_type_number a.buffer_type == buffer_type_number b.buffer_type)
        && (a.buffer_flags.0 == b.buffer_flags.0)) }
{}

/// The defaults: no flag, and an empty buffer without flags.
pub fn defaults_have_no_flags()
    ensures flags { (flags : SecurityBufferFlags) →
        ⟦<SecurityBufferFlags as Default>⟧.is_default flags
        → flags.0 ≡ 0 }
    ensures buffer_type { (t : SecurityBufferType) → ⟦<SecurityBufferType as Default>⟧.is_default t
        → (t.buffer_type ≡ Empty) × (t.buffer_flags.0 ≡ 0) }
{}

/// A `SecurityBufferType` is read back from its number, if its type is at most 18 and its flags are
/// among the two that have names. A number that can be read is the number of the value read.
pub fn buffer_types_are_read_back()
    ensures there_and_back { (t : SecurityBufferType) → buffer_type_number t.buffer_type ≤ 18
        → bit_and t.buffer_flags.0 0x90000000 ≡ t.buffer_flags.0
        → (read : Result SecurityBufferType Error)
        → ReadsBufferType (packed_buffer_type t) read → read ≡ Ok t }
    ensures back_and_there { (number : ℕ) → number < 2 ^ 32 → (t : SecurityBufferType)
        → ReadsBufferType number (Ok t) → packed_buffer_type t ≡ number }
{}
