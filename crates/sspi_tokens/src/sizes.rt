//! How many bytes the parts of a token take.

ghost use Rattle.std.specs.Prelude.{◌≡◌, ℕ, ◌<◌, ◌≤◌, length, MatchOption};
ghost use Rattle.std.specs.Option.{option_map, SomeIff};
ghost use Rattle.sspi_ber.specs.Forms.{max_content};
ghost use Rattle.sspi_ber.specs.Short.{element, element_size};
ghost use Rattle.sspi_tokens.specs.Spelling.{field, oids_text, mech_types_text, result_text};
ghost use Rattle.sspi_tokens.specs.Spelling.{init_content, targ_fields, targ_content};
ghost use Rattle.sspi_tokens.specs.Writing.{Measures, list_length, IsInitLengths};

use crate::mech_type_list::MechTypeList;
use crate::neg_result::NegResult;
use crate::neg_token_init::NegTokenInit;
use crate::neg_token_targ::NegTokenTarg;
use crate::oid::Oid;
use sspi_ber::{MAX_CONTENT, size_of_element};
use sspi_types::Bytes;

/// A length, if it fits.
fn short(len: usize) -> Option<usize>
    ensures { Measures result len }
{
    if len > MAX_CONTENT {
        return None;
    }
    Some(len)
}

/// The length of an element, if it fits.
fn around(content: usize) -> Option<usize>
    requires { content ≤ max_content }
    ensures { Measures result (element_size content) }
{
    short(size_of_element(content))
}

/// The length of an element in an element, if it fits.
#[tactic(auto, using(crate::proofs::Lengths::element_size_more))]
fn wrapped(content: usize) -> Option<usize>
    ensures { Measures result (element_size (element_size content)) }
{
    let content = short(content)?;
    let inner = around(content)?;
    around(inner)
}

/// The length of object identifiers one after the other, if it fits.
pub(crate) fn oids_len(oids: &[Oid]) -> Option<usize>
    ensures { Measures result (length (oids_text oids.now)) }
{
    let mut len = 0;
    for oid in oids {
        let oid = around(short(oid.content().len())?)?;
        len = short(len + oid)?;
    }
    Some(len)
}

fn list_len(list: &Option<MechTypeList>) -> Option<usize>
    ensures { Measures result (list_length list.now) }
{
    match list {
        None => Some(0),
        Some(list) => oids_len(list.as_slice()),
    }
}

/// The length of the field of a list whose identifiers have this length, if it fits.
#[tactic(auto, using(crate::proofs::Lengths::sizing))]
fn mech_types_len(list: &Option<MechTypeList>, len: usize) -> Option<usize>
    requires { len ≡ list_length list.now }
    ensures { Measures result (length (field 0xA0 (option_map mech_types_text list.now))) }
{
    match list {
        None => Some(0),
        Some(_) => wrapped(len),
    }
}

#[tactic(auto, using(crate::proofs::Lengths::sizing))]
fn octets_len(octets: &Option<Bytes>) -> Option<usize>
    ensures { (tag : ℕ) → Measures result
        (length (field tag (option_map (element 0x04) octets.now))) }
{
    match octets {
        None => Some(0),
        Some(octets) => wrapped(octets.len()),
    }
}

#[tactic(auto, using(crate::proofs::Lengths::sizing))]
fn oid_len(oid: &Option<Oid>) -> Option<usize>
    ensures { Measures result (length (field 0xA1 (option_map (element 0x06) oid.now))) }
{
    match oid {
        None => Some(0),
        Some(oid) => wrapped(oid.content().len()),
    }
}

#[tactic(auto, using(crate::proofs::Lengths::sizing))]
fn result_len(neg_result: Option<NegResult>) -> usize
    ensures { result ≡ length (field 0xA0 (option_map result_text neg_result)) }
{
    match neg_result {
        None => 0,
        Some(_) => 5,
    }
}

/// The lengths in the headers of a `NegTokenInit`.
#[derive(Clone, Copy)]
pub(crate) struct InitLengths {
    /// of the identifiers in the list
    pub mech_types: usize,
    /// of the fields
    pub fields: usize,
    /// of the content of the outermost frame
    pub content: usize,
}

/// The lengths of a `NegTokenInit`, if they fit.
#[tactic(auto, using(crate::proofs::Lengths::sizing))]
pub(crate) fn init_lengths(token: &NegTokenInit) -> Option<InitLengths>
    ensures { MatchOption result (max_content < length (init_content token.now))
        (λ lengths. IsInitLengths token.now lengths) }
{
    let list = list_len(&token.mech_types)?;
    let mech_types = mech_types_len(&token.mech_types, list)?;
    let mech_token = octets_len(&token.mech_token)?;
    let fields = short(mech_types + mech_token)?;
    let body = wrapped(fields)?;
    let content = short(8 + body)?;
    Some(InitLengths {
        mech_types: list,
        fields,
        content,
    })
}

/// The length of the fields of a `NegTokenTarg`, if the SEQUENCE of them fits.
#[tactic(auto, using(crate::proofs::Lengths::sizing))]
pub(crate) fn targ_fields_len(token: &NegTokenTarg) -> Option<usize>
    ensures { SomeIff result (length (targ_content token.now) ≤ max_content)
        (length (targ_fields token.now)) }
{
    let neg_result = result_len(token.neg_result);
    let supported_mech = oid_len(&token.supported_mech)?;
    let response_token = octets_len(&token.response_token)?;
    let mech_list_mic = octets_len(&token.mech_list_mic)?;
    let fields = short(neg_result + supported_mech + response_token + mech_list_mic)?;
    around(fields)?;
    Some(fields)
}
