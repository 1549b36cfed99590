//! What the ends are made from, as C passes it in.
ghost use Rattle.std.specs.Prelude.{◌≡◌, Some, None, option_copied, if◌then◌else◌};
ghost use Rattle.std.specs.Str.{is_utf8};
ghost use Rattle.newaksu_c.specs.Settings.{challenge_of, delegation_of, identity_of, name_of};
ghost use Rattle.newaksu_c.specs.Settings.{nonce_of, text_of, OrMemory};
ghost use Rattle.newaksu_c.specs.Settings.{check_versions, is_version};

use crate::status::{INSUFFICIENT_MEMORY, INVALID_PARAMETER, kind_status};
use sspi_credssp::CredSspMode;
use sspi_names::{AuthIdentity, Username};
use sspi_types::{Error, Secret, Text};
use std::alloc::Global;

/// The options of a client.
#[repr(C)]
#[derive(Drop)]
pub struct ClientOptions {
    /// 0 for the host's mechanism, 1 for plain NTLM.
    pub mechanism: u32,
    /// The version of CredSSP that it speaks, 2 to 6.
    pub version: u32,
    /// The least version of a server that it accepts, 2 to 6, or 0 for any.
    pub least_version: u32,
    /// 0 if it delegates its credentials, 1 if it delegates empty ones in their place.
    pub delegation: u32,
}

/// The options of a server.
#[repr(C)]
#[derive(Drop)]
pub struct ServerOptions {
    /// 0 for the host's mechanism, 1 for plain NTLM.
    pub mechanism: u32,
    /// The version of CredSSP that it speaks, 2 to 6.
    pub version: u32,
    /// The least version of a client that it accepts, 2 to 6, or 0 for any.
    pub least_version: u32,
    /// Whom it accepts: 0 for the listed identities alone, 1 for anyone whom the host's mechanism
    /// names.
    pub peers: u32,
}

fn is_version(number: u32) -> bool
    ensures { result ≡ is_version number }
{
    2 <= number && number <= 6
}

/// Refuses versions that CredSSP does not have (MS-CSSP 2.2.1). The least may be 0, for any.
pub(crate) fn check_versions(version: u32, least: u32) -> Result<(), u32>
    ensures { result ≡ check_versions version least }
{
    if is_version(version) && (least == 0 || is_version(least)) {
        Ok(())
    } else {
        Err(INVALID_PARAMETER)
    }
}

/// The bytes as a text, if they are UTF-8.
pub(crate) fn utf8_in(bytes: &[u8]) -> Option<&str>
    ensures { option_copied result ≡ (if is_utf8 bytes.now then Some bytes.now else None) }
{
    match str::from_utf8(bytes) {
        Ok(text) => Some(text),
        Err(_) => None,
    }
}

pub(crate) fn text_of(alloc: Global, bytes: &[u8]) -> Result<Text, u32>
    ensures { OrMemory result (text_of bytes.now) }
{
    let Some(text) = utf8_in(bytes) else {
        return Err(INVALID_PARAMETER);
    };
    match Text::from_text(alloc, text) {
        Ok(text) => Ok(text),
        Err(_) => Err(INSUFFICIENT_MEMORY),
    }
}

fn name_of(alloc: Global, bytes: &[u8]) -> Result<Username, u32>
    ensures { OrMemory result (name_of bytes.now) }
{
    let Some(text) = utf8_in(bytes) else {
        return Err(INVALID_PARAMETER);
    };
    match Username::parse(alloc, text) {
        Ok(name) => Ok(name),
        Err(error) => Err(kind_status(Error::from(error).error_type)),
    }
}

pub(crate) fn identity_of(alloc: Global, name: &[u8], password: &[u8]) -> Result<AuthIdentity, u32>
    ensures { OrMemory result (identity_of name.now password.now) }
{
    let username = name_of(alloc, name)?;
    let password = text_of(alloc, password)?;
    Ok(AuthIdentity {
        username,
        password: Secret { value: password },
    })
}

pub(crate) fn delegation_of(number: u32) -> Result<CredSspMode, u32>
    ensures { result ≡ delegation_of number }
{
    match number {
        0 => Ok(CredSspMode::WithCredentials),
        1 => Ok(CredSspMode::CredentialLess),
        _ => Err(INVALID_PARAMETER),
    }
}

pub(crate) fn nonce_of(bytes: &[u8]) -> Result<[u8; 32], u32>
    ensures { result ≡ nonce_of bytes.now }
{
    match bytes.as_array() {
        Some(bytes) => Ok(*bytes),
        None => Err(INVALID_PARAMETER),
    }
}

pub(crate) fn challenge_of(bytes: &[u8]) -> Result<[u8; 8], u32>
    ensures { result ≡ challenge_of bytes.now }
{
    match bytes.as_array() {
        Some(bytes) => Ok(*bytes),
        None => Err(INVALID_PARAMETER),
    }
}
