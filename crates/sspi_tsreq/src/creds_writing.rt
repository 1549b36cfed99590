//! Encodes TSCredentials with a password (MS-CSSP 2.2.1.2).

ghost use Rattle.std.specs.Prelude.{◌≡◌, ◌+◌, ◌*◌, ◌≤◌, Ok, IfOk, IfErr, IsOk, length};
ghost use Rattle.sspi_types.specs.Errors.{memory_error};
ghost use Rattle.sspi_ber.specs.Forms.{max_content};
ghost use Rattle.sspi_ber.specs.Outside.{Writes, WriteCause};
ghost use Rattle.sspi_ber.specs.Short.{element, element_size};
ghost use Rattle.sspi_names.specs.Identity.{AreBuffers};
ghost use Rattle.sspi_tsreq.specs.Creds.{buffers_text, delegated_credentials, creds_body, creds_of};
ghost use Rattle.sspi_tsreq.specs.Creds.{creds_text, wrapped_octets};
ghost use Rattle.sspi_tsreq.specs.Creds.{password_fields, password_type_field, spelled_if_fits};
ghost use Rattle.sspi_tsreq.specs.Creds.{too_long};
ghost use Rattle.sspi_tsreq.specs.CredsAnswers.{IsOrMemory, RefusesKeytab};
ghost use Rattle.sspi_tsreq.specs.CredsSizes.{FitTexts, body_size, password_fields_size};
ghost use Rattle.sspi_tsreq.specs.Size.{IsCapped};

use crate::mode::CredSspMode;
use crate::sizes::capped_element;
use sspi_ber::identifier::{OCTET_STRING, SEQUENCE};
use sspi_ber::{
    MAX_CONTENT, Sink, VecSink, WireKind, size_of_element, write_all, write_header,
    write_wrapped_octets,
};
use sspi_names::{AuthIdentityBuffers, CredentialsBuffers};
use sspi_types::{Error, ErrorKind, Reason};
use std::alloc::Global;

/// The bytes of the texts of TSPasswordCreds, as UTF-16 with the low byte first.
#[derive(Clone, Copy)]
struct Texts<'a> {
    domain: &'a [u8],
    user: &'a [u8],
    password: &'a [u8],
}

/// Writes TSCredentials (MS-CSSP 2.2.1.2) with a password, in their shortest encoding. In the mode
/// `CredentialLess`, the three texts are empty.
///
/// `UnsupportedPreAuth` comes exactly for a keytab, in both modes, and then nothing is allocated;
/// `InternalError` exactly when the content exceeds `sspi_ber::MAX_CONTENT`, 1048576 octets, which
/// is measured before the texts are encoded. So out of memory comes only when there is an encoding
/// to write.
pub fn write_ts_credentials(
    alloc: Global,
    credentials: &CredentialsBuffers,
    cred_ssp_mode: CredSspMode,
) -> Result<Vec<u8>, Error>
    ensures text { IsOrMemory (λ text. text.items) result
        (creds_text credentials.now cred_ssp_mode) }
    ensures keytab { RefusesKeytab credentials.now result }
    ensures exact { IfErr result (λ error. error ≡ memory_error →
        IsOk (creds_text credentials.now cred_ssp_mode)) }
    ensures read_back { IfOk result (λ text. creds_of text.items ≡ Ok
        (delegated_credentials cred_ssp_mode credentials.now)) }
{
    match credentials {
        CredentialsBuffers::AuthIdentity(buffers) => match cred_ssp_mode {
            CredSspMode::WithCredentials => write_buffers(alloc, buffers),
            CredSspMode::CredentialLess => write_texts(
                alloc,
                &Texts {
                    domain: &[],
                    user: &[],
                    password: &[],
                },
            ),
        },
        CredentialsBuffers::Keytab(_) => Err(Error::new(
            ErrorKind::UnsupportedPreAuth,
            Reason::Keytab,
        )),
    }
}

#[tactic(auto, using(crate::proofs::Room::fits_buffers, crate::proofs::Room::past_buffers, crate::proofs::Room::long_unwanted), unfolding(crate::specs::Creds::buffers_text))]
fn write_buffers(alloc: Global, buffers: &AuthIdentityBuffers) -> Result<Vec<u8>, Error>
    ensures text { IsOrMemory (λ text. text.items) result (buffers_text buffers.now) }
    ensures exact { IfErr result (λ error. error ≡ memory_error → IsOk (buffers_text buffers.now)) }
    ensures well_formed { IfOk result (λ _. AreBuffers buffers.now) }
{
    let password = buffers.password.value.byte_len();
    let size = capped_body(buffers.domain.byte_len(), buffers.user.byte_len(), password);
    if size > MAX_CONTENT {
        return Err(too_long());
    }
    let domain = buffers.domain.to_bytes_le(alloc)?;
    let user = buffers.user.to_bytes_le(alloc)?;
    let password = buffers.password.value.to_bytes_le(alloc)?;
    write_texts(
        alloc,
        &Texts {
            domain: &domain,
            user: &user,
            password: &password,
        },
    )
}

/// TSCredentials with these texts, if their content fits.
#[tactic(auto, using(crate::proofs::Room::fits_ok, crate::proofs::Room::long_unwanted))]
fn write_texts(alloc: Global, texts: &Texts<'_>) -> Result<Vec<u8>, Error>
    ensures text { IsOrMemory (λ text. text.items) result
        (spelled_if_fits (creds_body texts.now.domain.now texts.now.user.now
        texts.now.password.now)) }
    ensures exact { IfErr result (λ error. error ≡ memory_error →
        IsOk (spelled_if_fits (creds_body texts.now.domain.now texts.now.user.now
        texts.now.password.now))) }
{
    let size = capped_body(texts.domain.len(), texts.user.len(), texts.password.len());
    if size > MAX_CONTENT {
        return Err(too_long());
    }
    let mut sink = VecSink::with_capacity(alloc, size_of_element(size))?;
    match write_creds(&mut sink, texts, size) {
        Ok(()) => Ok(sink.into_inner()),
        Err(kind) => Err(Error::from(kind)),
    }
}

fn too_long() -> Error
    ensures { result ≡ too_long }
{
    Error::new(ErrorKind::InternalError, Reason::TooLong)
}

/// How many bytes the content of TSPasswordCreds takes with texts of these sizes, or a number past
/// the limit.
#[tactic(auto, using(crate::proofs::Room::fields_capped))]
fn capped_fields(domain: usize, user: usize, password: usize) -> usize
    ensures capped { IsCapped result (password_fields_size domain user password) }
    ensures small { result ≤ 3 * (max_content + 5) }
{
    let domain = capped_element(capped_element(domain));
    let user = capped_element(capped_element(user));
    let password = capped_element(capped_element(password));
    domain + (user + password)
}

/// How many bytes the content of TSCredentials takes with texts of these sizes, or a number past
/// the limit.
#[tactic(auto, using(crate::proofs::Room::body_capped))]
fn capped_body(domain: usize, user: usize, password: usize) -> usize
    ensures { IsCapped result (body_size domain user password) }
{
    let sequence = capped_element(capped_fields(domain, user, password));
    5 + capped_element(capped_element(sequence))
}

/// TSCredentials whose content has `size` bytes.
#[tactic(auto, using(sspi_ber::proofs::Written::writing), unfolding(sspi_ber::specs::Short::element))]
fn write_creds<W: Sink>(sink: &mut W, texts: &Texts<'_>, size: usize) -> Result<(), WireKind>
    // What must hold before.
    requires fit { FitTexts (length texts.now.domain.now) (length texts.now.user.now)
        (length texts.now.password.now) }
    requires size { size ≡ length (creds_body texts.now.domain.now texts.now.user.now
        texts.now.password.now) }
    requires small { size ≤ max_content }
    // What was written, and why not all of it.
    ensures wrote { Writes (W.written sink.old) (W.written sink.new) result
        (element 0x30 (creds_body texts.now.domain.now texts.now.user.now texts.now.password.now)) }
    ensures cause { WriteCause (W.faults sink.old) (W.faults sink.new) result }
{
    write_header(sink, SEQUENCE, size)?;
    write_body(sink, texts)
}

/// The content of TSCredentials.
#[tactic(auto, using(sspi_ber::proofs::Written::writing), unfolding(crate::specs::Creds::creds_body, crate::specs::Creds::wrapped_octets))]
fn write_body<W: Sink>(sink: &mut W, texts: &Texts<'_>) -> Result<(), WireKind>
    requires { FitTexts (length texts.now.domain.now) (length texts.now.user.now)
        (length texts.now.password.now) }
    ensures wrote { Writes (W.written sink.old) (W.written sink.new) result
        (creds_body texts.now.domain.now texts.now.user.now texts.now.password.now) }
    ensures cause { WriteCause (W.faults sink.old) (W.faults sink.new) result }
{
    write_password_type(sink)?;
    write_credentials_field(sink, texts)
}

/// The field that says that the credentials are a password.
#[tactic(auto, using(crate::proofs::Room::password_type_bytes))]
fn write_password_type<W: Sink>(sink: &mut W) -> Result<(), WireKind>
    ensures wrote { Writes (W.written sink.old) (W.written sink.new) result password_type_field }
    ensures cause { WriteCause (W.faults sink.old) (W.faults sink.new) result }
{
    write_all(sink, &[0xa0, 0x03, 0x02, 0x01, 0x01])
}

/// The field of the credentials.
#[tactic(auto, using(sspi_ber::proofs::Written::writing, sspi_ber::proofs::Written::lengths), unfolding(sspi_ber::specs::Short::element))]
fn write_credentials_field<W: Sink>(sink: &mut W, texts: &Texts<'_>) -> Result<(), WireKind>
    requires { FitTexts (length texts.now.domain.now) (length texts.now.user.now)
        (length texts.now.password.now) }
    ensures wrote { Writes (W.written sink.old) (W.written sink.new) result
        (element 0xA1 (element 0x04 (element 0x30
        (password_fields texts.now.domain.now texts.now.user.now texts.now.password.now)))) }
    ensures cause { WriteCause (W.faults sink.old) (W.faults sink.new) result }
{
    write_header(sink, 0xa1, size_of_element(sequence_size(texts)))?;
    write_octets(sink, texts)
}

/// The OCTET STRING that holds the credentials.
#[tactic(auto, using(sspi_ber::proofs::Written::writing), unfolding(sspi_ber::specs::Short::element))]
fn write_octets<W: Sink>(sink: &mut W, texts: &Texts<'_>) -> Result<(), WireKind>
    requires { FitTexts (length texts.now.domain.now) (length texts.now.user.now)
        (length texts.now.password.now) }
    ensures wrote { Writes (W.written sink.old) (W.written sink.new) result
        (element 0x04 (element 0x30 (password_fields texts.now.domain.now texts.now.user.now
        texts.now.password.now))) }
    ensures cause { WriteCause (W.faults sink.old) (W.faults sink.new) result }
{
    write_header(sink, OCTET_STRING, sequence_size(texts))?;
    write_password_creds(sink, texts)
}

/// TSPasswordCreds.
#[tactic(auto, using(sspi_ber::proofs::Written::writing), unfolding(sspi_ber::specs::Short::element))]
fn write_password_creds<W: Sink>(sink: &mut W, texts: &Texts<'_>) -> Result<(), WireKind>
    requires { FitTexts (length texts.now.domain.now) (length texts.now.user.now)
        (length texts.now.password.now) }
    ensures wrote { Writes (W.written sink.old) (W.written sink.new) result
        (element 0x30 (password_fields texts.now.domain.now texts.now.user.now
        texts.now.password.now)) }
    ensures cause { WriteCause (W.faults sink.old) (W.faults sink.new) result }
{
    write_header(sink, SEQUENCE, content_size(texts))?;
    write_password_fields(sink, texts)
}

/// The three texts.
#[tactic(auto, using(crate::proofs::Room::writing), unfolding(crate::specs::Creds::password_fields, crate::specs::Creds::wrapped_octets))]
fn write_password_fields<W: Sink>(sink: &mut W, texts: &Texts<'_>) -> Result<(), WireKind>
    requires { FitTexts (length texts.now.domain.now) (length texts.now.user.now)
        (length texts.now.password.now) }
    ensures wrote { Writes (W.written sink.old) (W.written sink.new) result
        (password_fields texts.now.domain.now texts.now.user.now texts.now.password.now) }
    ensures cause { WriteCause (W.faults sink.old) (W.faults sink.new) result }
{
    write_wrapped_octets(sink, 0xa0, texts.domain)?;
    write_wrapped_octets(sink, 0xa1, texts.user)?;
    write_wrapped_octets(sink, 0xa2, texts.password)
}

/// How many bytes the content of TSPasswordCreds takes.
#[tactic(auto, using(crate::proofs::Room::fields_length))]
fn content_size(texts: &Texts<'_>) -> usize
    requires { FitTexts (length texts.now.domain.now) (length texts.now.user.now)
        (length texts.now.password.now) }
    ensures size { result ≡ length (password_fields texts.now.domain.now texts.now.user.now
        texts.now.password.now) }
    ensures small { result ≤ max_content }
{
    let domain = size_of_element(size_of_element(texts.domain.len()));
    let user = size_of_element(size_of_element(texts.user.len()));
    let password = size_of_element(size_of_element(texts.password.len()));
    domain + (user + password)
}

/// How many bytes TSPasswordCreds take.
#[tactic(auto, using(crate::proofs::Room::sequence))]
fn sequence_size(texts: &Texts<'_>) -> usize
    requires { FitTexts (length texts.now.domain.now) (length texts.now.user.now)
        (length texts.now.password.now) }
    ensures size { result ≡ length (element 0x30
        (password_fields texts.now.domain.now texts.now.user.now texts.now.password.now)) }
    ensures small { result ≤ max_content }
    ensures nested { element_size result ≤ max_content }
{
    size_of_element(content_size(texts))
}
