//! What an end is given in place of what was received.
ghost use Rattle.std.specs.Prelude.{◌≡◌, ◌++◌, None, Some, IfOk, OnOk, option_copied};
ghost use Rattle.sspi_credssp.specs.Requests.{unless_empty};
ghost use Rattle.sspi_outside.specs.Hosting.{closed, credentials_opened, handed, proof_opened};
ghost use Rattle.sspi_outside.specs.Hosting.{shown};

use crate::outside::untagged;
use sspi_tsreq::TsRequest;
use sspi_types::Bytes;
use std::alloc::{AllocError, Global};

/// Which sealed field of a message the host's context opened, with the text that was in it.
#[derive(Clone, Copy)]
pub enum Opened<'a> {
    /// It opened none.
    Neither,
    /// The proof of the channel's key (`pubKeyAuth`).
    PubKeyAuth(&'a [u8]),
    /// The credentials (`authInfo`).
    AuthInfo(&'a [u8]),
}

impl<'a> Opened<'a> {
    ghost use Rattle.sspi_outside.specs.Hosting.{credentials_opened, proof_opened};

    fn proof(self) -> Option<&'a [u8]>
        ensures { option_copied result ≡ proof_opened self.entry }
    {
        match self {
            Opened::PubKeyAuth(text) => Some(text),
            Opened::Neither | Opened::AuthInfo(_) => None,
        }
    }

    fn credentials(self) -> Option<&'a [u8]>
        ensures { option_copied result ≡ credentials_opened self.entry }
    {
        match self {
            Opened::AuthInfo(text) => Some(text),
            Opened::Neither | Opened::PubKeyAuth(_) => None,
        }
    }
}

// A blob of at least 16 bytes no longer begins with sixteen zeros.
fn close(blob: &mut Bytes)
    ensures { blob.new ≡ closed blob.old }
{
    if blob.len() >= 16 {
        blob.overwrite(0, &[1]);
    }
}

pub(crate) fn show(
    alloc: Global,
    field: &mut Option<Bytes>,
    text: Option<&[u8]>,
) -> Result<(), AllocError>
    ensures { OnOk result (field.new ≡ shown (option_copied text.entry) field.old) }
{
    match field {
        None => Ok(()),
        Some(blob) => show_in(alloc, blob, text),
    }
}

fn show_in(alloc: Global, blob: &mut Bytes, text: Option<&[u8]>) -> Result<(), AllocError>
    ensures { OnOk result (Some blob.new ≡ shown (option_copied text.entry) (Some blob.old)) }
{
    match text {
        Some(text) => *blob = Bytes::from_vec(untagged(alloc, text)?),
        None => close(blob),
    }
    Ok(())
}

pub(crate) fn token_of(alloc: Global, step: &[u8]) -> Result<Option<Bytes>, AllocError>
    ensures { IfOk result (λ token. token ≡ unless_empty step.now) }
{
    if step.is_empty() {
        return Ok(None);
    }
    Ok(Some(Bytes::from_slice(alloc, step)?))
}

/// The request that an end over `Outside` is given in place of the received one.
///
/// `step` is the envelope of the step that the host's context made with the received token; empty
/// if it made none. The sealed field that was opened has its text. Any other is refused where it is
/// due: as `MessageAltered`, or as `InvalidToken` if it has fewer than 16 bytes. So nothing
/// received is taken for an envelope or an opened text.
pub fn handed(
    alloc: Global,
    request: TsRequest,
    step: &[u8],
    opened: Opened<'_>,
) -> Result<TsRequest, AllocError>
    ensures { IfOk result (λ d. d ≡ handed request step.now (proof_opened opened.entry)
        (credentials_opened opened.entry)) }
{
    let mut request = request;
    request.nego_tokens = token_of(alloc, step)?;
    show(alloc, &mut request.pub_key_auth, opened.proof())?;
    show(alloc, &mut request.auth_info, opened.credentials())?;
    Ok(request)
}
