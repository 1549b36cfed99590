//! TSCredentials with a password (MS-CSSP 2.2.1.2).
ghost use Rattle.std.specs.Prelude.{◌≡◌, ℕ, List, Ok, option_map, Result};
ghost use Rattle.sspi_types.specs.declared.error.Error.{Error as Fault};
ghost use Rattle.sspi_names.specs.Utf16.{bytes_le, decode_le};
ghost use Rattle.sspi_names.specs.declared.credentials.CredentialsBuffers.{CredentialsBuffers as Buffers};
ghost use Rattle.sspi_tsreq.specs.Creds.{creds_of, text_or_refused, texts_of};
ghost use Rattle.sspi_tsreq.specs.CredsAnswers.{IsOrMemory};
ghost use Rattle.newaksu_c.specs.declared.object.Object.TheVariants as objects;
ghost use Rattle.newaksu_c.specs.Credentials.{text_at, text_in, IsWritten, OrMemory};
ghost use Rattle.newaksu_c.specs.Giving.{Answers};
ghost use Rattle.newaksu_c.specs.Told.{items_of};
ghost use Rattle.newaksu_c.specs.Held.{credentials_in};
ghost use Rattle.newaksu_c.specs.Putting.{made, Puts};

use crate::giving::give_all;
use crate::handle::Handle;
use crate::object::{Object, credentials_of};
use crate::putting::put;
use crate::status::{ABSENT, INSUFFICIENT_MEMORY, INVALID_HANDLE, INVALID_PARAMETER, kind_status};
use sspi_names::{AuthIdentityBuffers, CredentialsBuffers, Utf16Text};
use sspi_tsreq::{CredSspMode, read_ts_credentials_from_slice, write_ts_credentials};
use sspi_types::{Error, Secret};
use std::alloc::Global;

fn text(alloc: Global, bytes: &[u8]) -> Result<Utf16Text, Error>
    ensures { IsOrMemory (λ text. text) result (text_or_refused (decode_le bytes.now)) }
{
    Ok(Utf16Text::from_bytes_le(alloc, bytes)?)
}

#[tactic(auto, unfolding(sspi_tsreq::specs::Creds::texts_of))]
fn texts(
    alloc: Global,
    domain: &[u8],
    user: &[u8],
    password: &[u8],
) -> Result<CredentialsBuffers, Error>
    ensures { IsOrMemory (λ buffers. buffers) result
        (texts_of (record { domain = domain.now; user = user.now; password = password.now })) }
{
    let domain = text(alloc, domain)?;
    let user = text(alloc, user)?;
    let password = text(alloc, password)?;
    Ok(CredentialsBuffers::AuthIdentity(AuthIdentityBuffers {
        user,
        domain,
        password: Secret { value: password },
    }))
}

/// The texts of TSCredentials, each in UTF-16 with the low byte first.
#[unsafe(no_mangle)]
pub extern "C" fn newaksu_credentials_new(
    alloc: Global,
    handle: &mut Handle,
    domain: &[u8],
    user: &[u8],
    password: &[u8],
) -> u32
    ensures { (buffers : Result Buffers Fault) ×
        IsOrMemory (λ buffers. buffers) buffers
        (texts_of (record { domain = domain.now; user = user.now; password = password.now })) ×
        Puts handle.old.held handle.new.held (made objects.Credentials buffers) result }
{
    match texts(alloc, domain, user, password) {
        Ok(buffers) => put(alloc, handle, Object::Credentials(buffers)),
        Err(error) => kind_status(error.error_type),
    }
}

/// The texts of the TSCredentials that the bytes begin with.
#[unsafe(no_mangle)]
pub extern "C" fn newaksu_credentials_decode(
    alloc: Global,
    handle: &mut Handle,
    bytes: &[u8],
) -> u32
    ensures { (buffers : Result Buffers Fault) ×
        IsOrMemory (λ buffers. buffers) buffers (creds_of bytes.now) ×
        Puts handle.old.held handle.new.held (made objects.Credentials buffers) result }
{
    match read_ts_credentials_from_slice(alloc, bytes) {
        Ok(buffers) => put(alloc, handle, Object::Credentials(buffers)),
        Err(error) => kind_status(error.error_type),
    }
}

fn written(alloc: Global, object: &Option<Box<Object>>) -> Result<Vec<u8>, u32>
    ensures { IsWritten (credentials_in (option_map (λ b. b.value) object.now)) (items_of result) }
{
    let Some(buffers) = credentials_of(object) else {
        return Err(INVALID_HANDLE);
    };
    match write_ts_credentials(alloc, buffers, CredSspMode::WithCredentials) {
        Ok(text) => Ok(text),
        Err(error) => Err(kind_status(error.error_type)),
    }
}

/// TSCredentials with these texts, in their shortest encoding.
#[unsafe(no_mangle)]
pub extern "C" fn newaksu_credentials_encode(
    alloc: Global,
    handle: &mut Handle,
    out: &mut [u8],
    written: &mut usize,
) -> u32
    ensures kept { handle.new.held ≡ handle.old.held }
    ensures gives { (text : Result (List ℕ) ℕ) × IsWritten (credentials_in handle.old.held) text ×
        Answers text out.old out.new
        written.new result }
{
    let object = handle.take(alloc);
    let text = crate::credentials::written(alloc, &object);
    handle.keep(object);
    give_all(text, out, written)
}

fn bytes_of(alloc: Global, text: &Utf16Text) -> Result<Vec<u8>, u32>
    ensures { OrMemory (items_of result) (Ok (bytes_le text.now)) }
{
    match text.to_bytes_le(alloc) {
        Ok(bytes) => Ok(bytes),
        Err(_) => Err(INSUFFICIENT_MEMORY),
    }
}

fn text_at(alloc: Global, buffers: &AuthIdentityBuffers, which: u32) -> Result<Vec<u8>, u32>
    ensures { OrMemory (items_of result) (text_at which buffers.now) }
{
    match which {
        0 => bytes_of(alloc, &buffers.domain),
        1 => bytes_of(alloc, &buffers.user),
        2 => bytes_of(alloc, &buffers.password.value),
        _ => Err(INVALID_PARAMETER),
    }
}

fn text_in(alloc: Global, object: &Option<Box<Object>>, which: u32) -> Result<Vec<u8>, u32>
    ensures { OrMemory (items_of result)
        (text_in which (credentials_in (option_map (λ b. b.value) object.now))) }
{
    match credentials_of(object) {
        Some(CredentialsBuffers::AuthIdentity(buffers)) => text_at(alloc, buffers, which),
        Some(CredentialsBuffers::Keytab(_)) => Err(ABSENT),
        None => Err(INVALID_HANDLE),
    }
}

/// One of the texts, in UTF-16 with the low byte first.
#[unsafe(no_mangle)]
pub extern "C" fn newaksu_credentials_text(
    alloc: Global,
    handle: &mut Handle,
    which: u32,
    out: &mut [u8],
    written: &mut usize,
) -> u32
    ensures kept { handle.new.held ≡ handle.old.held }
    ensures gives { (text : Result (List ℕ) ℕ) ×
        OrMemory text (text_in which (credentials_in handle.old.held)) × Answers text
        out.old out.new written.new result }
{
    let object = handle.take(alloc);
    let text = text_in(alloc, &object, which);
    handle.keep(object);
    give_all(text, out, written)
}
