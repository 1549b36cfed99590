//! The result when a content ends at the reader's position.

ghost use Rattle.std.specs.Prelude.{◌≡◌, ℕ, List, [], Ok, Err};
ghost use Rattle.sspi_ber.specs.Outside.{NeedsNoMemory};
ghost use Rattle.sspi_tsreq.specs.declared.request.TsRequest.{TsRequest};
ghost use Rattle.sspi_tsreq.specs.Walks.{EndsAs, from_field, from_inner};
ghost use Rattle.sspi_tsreq.specs.Places.{answered, from_tag, nonce_from, rest_at};

use crate::place::{Element, Field, Inner, Place};
use crate::request::TsRequest;
use sspi_ber::WireKind;

/// The request without this field and those after it.
fn without(field: Field, request: TsRequest) -> TsRequest
    ensures { answered (from_field field request []) ≡ Ok result }
{
    let mut request = request;
    match field {
        Field::Nego => {
            request.nego_tokens = None;
            request.auth_info = None;
            request.pub_key_auth = None;
            request.error_code = None;
            request.client_nonce = None;
        }
        Field::Auth => {
            request.auth_info = None;
            request.pub_key_auth = None;
            request.error_code = None;
            request.client_nonce = None;
        }
        Field::Key => {
            request.pub_key_auth = None;
            request.error_code = None;
            request.client_nonce = None;
        }
        Field::Code => {
            request.error_code = None;
            request.client_nonce = None;
        }
        Field::Nonce => request.client_nonce = None,
    }
    request
}

/// The result when a content ends where this element may begin.
fn tag_ended(element: Element, request: TsRequest) -> Result<TsRequest, WireKind>
    ensures ends { EndsAs (answered (from_tag element request [])) result }
    ensures memory { NeedsNoMemory result }
{
    match element {
        Element::Optional(field) => Ok(without(field, request)),
        Element::Required(inner) => missing(inner),
    }
}

fn missing(inner: Inner) -> Result<TsRequest, WireKind>
    ensures ends { (request : TsRequest) → EndsAs (answered (from_inner inner request [])) result }
    ensures memory { NeedsNoMemory result }
{
    let _ = inner;
    Err(WireKind::UnexpectedEof)
}

/// The fault of a nonce that ends here.
fn nonce_fault(have: u32) -> WireKind
    ensures ends { (nonce : List ℕ) (r : TsRequest) →
        EndsAs (answered (nonce_from nonce have r [])) (Err result) }
    ensures memory { NeedsNoMemory {X = TsRequest} (Err result) }
{
    if have >= 32 {
        WireKind::InvalidData
    } else {
        WireKind::UnexpectedEof
    }
}

/// The result when a content ends at this place.
pub(crate) fn ended(place: Place, request: TsRequest) -> Result<TsRequest, WireKind>
    ensures ends { (nonce : List ℕ) → EndsAs (answered (rest_at nonce place request [])) result }
    ensures memory { NeedsNoMemory result }
{
    match place {
        Place::AtTag(element) => tag_ended(element, request),
        Place::InLength(_, _) => Err(WireKind::UnexpectedEof),
        Place::InVersion(_, _) => Err(WireKind::UnexpectedEof),
        Place::InCode(_, _) => Err(WireKind::UnexpectedEof),
        Place::InText(_, _) => Err(WireKind::UnexpectedEof),
        Place::InNonce(have) => Err(nonce_fault(have)),
        Place::Whole => Ok(request),
        Place::Faulty => Err(WireKind::InvalidData),
    }
}
