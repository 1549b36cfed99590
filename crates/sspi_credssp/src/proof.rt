//! Sealing, opening and comparing proofs of the public key (pubKeyAuth, MS-CSSP 3.1.5).

ghost use Rattle.std.specs.Prelude.{◌≡◌, ◌≢◌, ◌-◌, None, Some, true, length, nat_lt, IfOk, IfErr};
ghost use Rattle.std.specs.Prelude.{OnErr, OnOk};
ghost use Rattle.sspi_mech.specs.Answered.{IsRefusedAs};
ghost use Rattle.sspi_mech.specs.Calls.{one_sealing, ToSeal, ToUnseal};
ghost use Rattle.sspi_credssp.specs.Context.{either};
ghost use Rattle.sspi_credssp.specs.Exchange.{BlobStops, prescribed};
ghost use Rattle.sspi_credssp.specs.Opened.{IsLongBlob, IsSealedBlob, HasOpened};

use crate::acts::Acts;
use crate::context::SspiContext;
use crate::public_key::{EndpointType, is_prescribed};
use crate::versions::FIRST_HASHED_VERSION;
use sspi_mech::{Mechanism, Refusal};
use sspi_types::{Bytes, ErrorKind, Reason};

// A sealed blob begins with a tag of this many bytes.
const TAG_LENGTH: usize = 16;

// The blob of a field, which must be present.
pub fn present(field: &Option<Bytes>, absent: Reason) -> Result<&Bytes, Refusal>
    ensures there { IfOk result (λ blob. field.now ≡ Some blob.now) }
    ensures absent { OnErr result (field.now ≡ None) }
    ensures kind { IfErr result (λ error. error.error_type ≡ ErrorKind.InvalidToken) }
{
    match field {
        Some(blob) => Ok(blob),
        None => Err(Refusal::new(ErrorKind::InvalidToken, absent)),
    }
}

// The blob's bytes, which must be enough to hold the tag.
pub fn long_enough(blob: &Bytes) -> Result<&[u8], Refusal>
    ensures long { IfOk result (λ bytes. IsLongBlob blob.now bytes.now) }
    ensures short { OnErr result (nat_lt (length blob.now) 16 ≡ true) }
    ensures kind { IfErr result (λ error. error.error_type ≡ ErrorKind.InvalidToken) }
{
    if blob.len() < TAG_LENGTH {
        return Err(Refusal::new(ErrorKind::InvalidToken, Reason::ShortBlob));
    }
    Ok(blob.as_slice())
}

// The blob to be opened.
pub fn sealed_blob(field: &Option<Bytes>, absent: Reason) -> Result<&[u8], Refusal>
    ensures blob { IfOk result (λ blob. IsSealedBlob field.now blob.now) }
    ensures cause { IfErr result (λ error. BlobStops field.now error.error_type (λ _. ⊥)) }
{
    long_enough(present(field, absent)?)
}

// Whether the blob opens to exactly the proof that this end owes. Only opening allocates.
pub fn opens_to<N: Mechanism, K: Mechanism>(
    context: &mut SspiContext<N, K>,
    acts: &mut Acts,
    blob: &[u8],
    end: EndpointType,
    version: u32,
    nonce: &[u8],
    public_key: &[u8],
) -> Result<bool, Refusal>
    // What `Ok` holds.
    ensures opened { IfOk result (HasOpened (either N.REQUESTS N.meaning K.meaning)
        context.old context.new acts.old acts.new blob.now
        (prescribed end version nonce.now public_key.now)) }
    // What a refusal says, and what it leaves.
    ensures err { OnErr result (context.new ≡ context.old) }
    ensures err_acts { OnErr result (acts.new ≡ acts.old) }
    ensures cause { IfErr result (λ error. error.error_type ≢ ErrorKind.InsufficientMemory →
        (either N.REQUESTS N.meaning K.meaning).refuses context.new (ToUnseal blob.now)
        error.error_type) }
    ensures exact { let c = either N.REQUESTS N.meaning K.meaning in IfErr result (λ error.
        IsRefusedAs (c.permits context.new (ToUnseal blob.now))
        (c.refuses context.new (ToUnseal blob.now)) error.error_type) }
{
    let mut text = context.unseal(blob)?;
    acts.checked = true;
    Ok(is_prescribed(&mut text, end, version, nonce, public_key))
}

// Seals a text as the context's next message, and records that it did.
pub fn seal_text<N: Mechanism, K: Mechanism>(
    context: &mut SspiContext<N, K>,
    noted: &mut bool,
    text: &[u8],
) -> Result<Bytes, Refusal>
    // What `Ok` holds.
    ensures blob { let c = either N.REQUESTS N.meaning K.meaning in IfOk result (λ blob.
        c.seals context.new ((c.counts context.new).sealings - 1) text.now blob) }
    ensures noted { OnOk result (noted.new ≡ true) }
    ensures ok { let c = either N.REQUESTS N.meaning K.meaning in
        OnOk result (context.new ≡ c.counted context.old (one_sealing (c.counts context.old))) }
    ensures count { let c = either N.REQUESTS N.meaning K.meaning in
        OnOk result (c.counts context.new ≡ one_sealing (c.counts context.old)) }
    // What a refusal says, and what it leaves.
    ensures err { OnErr result (context.new ≡ context.old) }
    ensures err_noted { OnErr result (noted.new ≡ noted.old) }
    ensures cause { IfErr result (λ error. error.error_type ≢ ErrorKind.InsufficientMemory →
        (either N.REQUESTS N.meaning K.meaning).refuses context.new (ToSeal text.now)
        error.error_type) }
{
    let blob = context.seal(text)?;
    *noted = true;
    Ok(Bytes::from_vec(blob))
}

pub fn altered(version: u32) -> Refusal
    ensures kind { result.error_type ≡ ErrorKind.MessageAltered }
{
    if version < FIRST_HASHED_VERSION {
        Refusal::new(ErrorKind::MessageAltered, Reason::EchoDiffers)
    } else {
        Refusal::new(ErrorKind::MessageAltered, Reason::HashDiffers)
    }
}
