//! Decodes TSCredentials with a password (MS-CSSP 2.2.1.2).

ghost use Rattle.std.specs.Prelude.{◌≡◌, Ok, Err, IfErr, IfSome, IsOk};
ghost use Rattle.sspi_ber.specs.Outside.{Gives, LeavesRest, NeedsNoMemory};
ghost use Rattle.sspi_names.specs.Utf16.{decode_le, bad_text};
ghost use Rattle.sspi_tsreq.specs.CredsAnswers.{CredsCause, IsCredsRefusal, IsOrMemory, ReadsCreds};
ghost use Rattle.sspi_tsreq.specs.CredsReading.{refusal_by, Is, IsLate, are_texts};
ghost use Rattle.sspi_tsreq.specs.CredsGrammar.{BeginsSequence, HasPasswords};
ghost use Rattle.sspi_types.specs.Errors.{memory_error};
ghost use Rattle.sspi_tsreq.specs.Creds.{creds_in, creds_of, fields_at, malformed, octets_in};
ghost use Rattle.sspi_tsreq.specs.Creds.{password_type, passwords_at};
ghost use Rattle.sspi_tsreq.specs.Creds.{spelled_or_malformed, text_or_refused, texts_of};

use crate::block::read_content;
use sspi_ber::identifier::{INTEGER, OCTET_STRING, SEQUENCE};
use sspi_ber::{SliceSource, Source, WireKind, read_element, read_header};
use sspi_names::{AuthIdentityBuffers, CredentialsBuffers, Utf16Text};
use sspi_types::{Error, ErrorKind, Reason, Secret};
use std::alloc::Global;

/// Reads TSCredentials (MS-CSSP 2.2.1.2) with a password. Bytes after them stay in the source.
///
/// `InvalidToken` comes for a malformed structure and for a credType without content. Next, the
/// first content byte of credType decides: `UnsupportedFunction` for a smart card (2), and
/// `InvalidToken` for any type other than a password (1). Then `InvalidToken` comes for malformed
/// password credentials, and `InvalidParameter` for a text with an odd number of bytes or an
/// unpaired surrogate. `InternalError` comes only if the source failed. The content is read into
/// memory after its header, so out of memory may come in place of any refusal but that of the
/// header.
#[tactic(auto, using(crate::proofs::Unwanted::header_unwanted, crate::proofs::Unwanted::header_begins))]
pub fn read_ts_credentials<S: Source>(
    alloc: Global,
    source: &mut S,
) -> Result<CredentialsBuffers, Error>
    // What was read.
    ensures read { ReadsCreds (S.left source.old) (S.left source.new) result }
    // What a refusal says.
    ensures kinds { IfErr result IsCredsRefusal }
    ensures memory { IfErr result (λ error. error ≡ memory_error →
        IfSome (S.left source.old) BeginsSequence) }
    // What became of the source.
    ensures cause { CredsCause (S.faults source.old) (S.faults source.new) result }
    ensures rest { LeavesRest (S.left source.old) (S.left source.new) }
{
    let len = match read_header(source, SEQUENCE) {
        Ok(len) => len,
        Err(kind) => return Err(refusal_of(kind)),
    };
    match read_content(alloc, source, len as usize) {
        Ok(body) => read_creds(alloc, &body),
        Err(kind) => Err(refusal_of(kind)),
    }
}

/// The same for bytes in memory, which are read in place. Memory is allocated for the texts alone,
/// once all three are known to be UTF-16. So out of memory comes only when the bytes represent
/// credentials, and never in place of another refusal.
#[tactic(auto, using(crate::proofs::Unwanted::late_has), unfolding(crate::specs::Creds::creds_of))]
pub fn read_ts_credentials_from_slice(
    alloc: Global,
    bytes: &[u8],
) -> Result<CredentialsBuffers, Error>
    ensures read { IsOrMemory (λ buffers. buffers) result (creds_of bytes.now) }
    ensures memory { IfErr result (λ error. error ≡ memory_error → HasPasswords bytes.now) }
    ensures exact { IfErr result (λ error. error ≡ memory_error → IsOk (creds_of bytes.now)) }
{
    match read_element(&mut SliceSource::new(bytes), SEQUENCE) {
        Ok(body) => read_creds(alloc, body),
        Err(_) => Err(not_spelled()),
    }
}

/// The fields of TSCredentials.
#[derive(Clone, Copy)]
struct Fields<'a> {
    /// The content of the INTEGER.
    cred_type: &'a [u8],
    credentials: &'a [u8],
}

/// The fields of TSPasswordCreds, each text as its bytes.
#[derive(Clone, Copy)]
struct Passwords<'a> {
    domain: &'a [u8],
    user: &'a [u8],
    password: &'a [u8],
}

/// The buffers inside TSCredentials.
#[tactic(auto, using(crate::proofs::Unwanted::late, crate::proofs::Unwanted::ok_in), unfolding(crate::specs::Creds::creds_in))]
fn read_creds(alloc: Global, body: &[u8]) -> Result<CredentialsBuffers, Error>
    ensures read { IsOrMemory (λ buffers. buffers) result (creds_in body.now) }
    ensures late { IfErr result (λ error. error ≡ memory_error → IsLate (creds_in body.now)) }
    ensures exact { IfErr result (λ error. error ≡ memory_error → IsOk (creds_in body.now)) }
{
    let fields = spelled_fields(body)?;
    expect_password(fields.cred_type)?;
    let passwords = spelled_passwords(fields.credentials)?;
    read_texts(alloc, &passwords)
}

fn spelled_fields(body: &[u8]) -> Result<Fields<'_>, Error>
    ensures { Is (λ fields. record {
      cred_type = fields.cred_type.now;
      credentials = fields.credentials.now;
    }) result
        (spelled_or_malformed (fields_at body.now)) }
{
    match read_fields(&mut SliceSource::new(body)) {
        Ok(fields) => Ok(fields),
        Err(_) => Err(not_spelled()),
    }
}

fn spelled_passwords(bytes: &[u8]) -> Result<Passwords<'_>, Error>
    ensures { Is (λ passwords. record {
      domain = passwords.domain.now;
      user = passwords.user.now;
      password = passwords.password.now;
    })
        result
        (spelled_or_malformed (passwords_at bytes.now)) }
{
    match read_passwords(&mut SliceSource::new(bytes)) {
        Ok(passwords) => Ok(passwords),
        Err(_) => Err(not_spelled()),
    }
}

#[tactic(auto, unfolding(crate::specs::Creds::fields_at))]
fn read_fields<'a>(source: &mut SliceSource<'a>) -> Result<Fields<'a>, WireKind>
    ensures read { Gives (λ fields. record {
      cred_type = fields.cred_type.now;
      credentials = fields.credentials.now;
    }) source.new result
        (fields_at source.old) }
    ensures memory { NeedsNoMemory result }
{
    let mut field = SliceSource::new(read_element(source, 0xa0)?);
    let cred_type = read_element(&mut field, INTEGER)?;
    let credentials = read_octets(source, 0xa1)?;
    Ok(Fields {
        cred_type,
        credentials,
    })
}

#[tactic(auto, unfolding(crate::specs::Creds::passwords_at))]
fn read_passwords<'a>(source: &mut SliceSource<'a>) -> Result<Passwords<'a>, WireKind>
    ensures read { Gives (λ passwords. record {
      domain = passwords.domain.now;
      user = passwords.user.now;
      password = passwords.password.now;
    })
        source.new result (passwords_at source.old) }
    ensures memory { NeedsNoMemory result }
{
    let mut body = SliceSource::new(read_element(source, SEQUENCE)?);
    let domain = read_octets(&mut body, 0xa0)?;
    let user = read_octets(&mut body, 0xa1)?;
    let password = read_octets(&mut body, 0xa2)?;
    Ok(Passwords {
        domain,
        user,
        password,
    })
}

/// The OCTET STRING inside the field with this tag.
#[tactic(auto, unfolding(crate::specs::Creds::octets_in))]
fn read_octets<'a>(source: &mut SliceSource<'a>, tag: u8) -> Result<&'a [u8], WireKind>
    ensures read { Gives (λ octets. octets.now) source.new result (octets_in tag source.old) }
    ensures memory { NeedsNoMemory result }
{
    let mut field = SliceSource::new(read_element(source, tag)?);
    read_element(&mut field, OCTET_STRING)
}

/// Refuses any type other than a password, by the first content byte.
fn expect_password(cred_type: &[u8]) -> Result<(), Error>
    ensures { Is (λ _. tt) result (password_type cred_type.now) }
{
    match cred_type {
        [1, ..] => Ok(()),
        [2, ..] => Err(Error::new(ErrorKind::UnsupportedFunction, Reason::SmartCard)),
        [] | [_, ..] => Err(Error::new(ErrorKind::InvalidToken, Reason::CredType)),
    }
}

/// Whether each text is UTF-16. Allocates nothing.
fn are_texts(passwords: &Passwords<'_>) -> bool
    ensures { result ≡ are_texts
        (record {
          domain = passwords.now.domain.now;
          user = passwords.now.user.now;
          password = passwords.now.password.now;
        }) }
{
    Utf16Text::is_text_le(passwords.domain)
        && Utf16Text::is_text_le(passwords.user)
        && Utf16Text::is_text_le(passwords.password)
}

#[tactic(auto, using(crate::proofs::Unwanted::judged), unfolding(crate::specs::Creds::texts_of))]
fn read_texts(alloc: Global, passwords: &Passwords<'_>) -> Result<CredentialsBuffers, Error>
    ensures read { IsOrMemory (λ buffers. buffers) result
        (texts_of (record {
          domain = passwords.now.domain.now;
          user = passwords.now.user.now;
          password = passwords.now.password.now;
        })) }
    ensures exact { IfErr result (λ error. error ≡ memory_error → IsOk
        (texts_of (record {
          domain = passwords.now.domain.now;
          user = passwords.now.user.now;
          password = passwords.now.password.now;
        }))) }
{
    if !are_texts(passwords) {
        return Err(no_texts());
    }
    let domain = read_text(alloc, passwords.domain)?;
    let user = read_text(alloc, passwords.user)?;
    let password = read_text(alloc, passwords.password)?;
    Ok(CredentialsBuffers::AuthIdentity(AuthIdentityBuffers {
        user,
        domain,
        password: Secret { value: password },
    }))
}

fn read_text(alloc: Global, bytes: &[u8]) -> Result<Utf16Text, Error>
    ensures { IsOrMemory (λ text. text) result (text_or_refused (decode_le bytes.now)) }
{
    match Utf16Text::from_bytes_le(alloc, bytes) {
        Ok(text) => Ok(text),
        Err(error) => Err(Error::from(error)),
    }
}

/// What a caller sees of a fault of reading: `InternalError` for a failed source, out of memory as
/// such, and a malformed structure otherwise.
fn refusal_of(kind: WireKind) -> Error
    ensures { result ≡ refusal_by kind }
{
    match kind {
        WireKind::UnexpectedEof | WireKind::InvalidData => not_spelled(),
        WireKind::ReadFault | WireKind::WriteFault | WireKind::InsufficientMemory => Error::from(
            kind,
        ),
    }
}

fn no_texts() -> Error
    ensures { result ≡ bad_text }
{
    Error::new(ErrorKind::InvalidParameter, Reason::Utf)
}

fn not_spelled() -> Error
    ensures { result ≡ malformed }
{
    Error::new(ErrorKind::InvalidToken, Reason::TokenForm)
}
