//! Mechanism lists (MechTypeList, RFC 4178 4.1).

ghost use Rattle.std.specs.Prelude.{◌≡◌, ◌≤◌, length, IfOk};
ghost use Rattle.sspi_ber.specs.Forms.{max_content};
ghost use Rattle.sspi_ber.specs.Short.{element};
ghost use Rattle.sspi_tokens.specs.Answers.{WritesAs};
ghost use Rattle.sspi_tokens.specs.Spelling.{oids_text, spelled_list};

use crate::oid::Oid;
use crate::refusal::too_long;
use crate::sizes::oids_len;
use crate::writing::put_mech_types;
use sspi_ber::{VecSink, size_of_element};
use sspi_types::Error;
use std::alloc::{AllocError, Global};
use std::marker::Model;

/// Mechanisms in the order of preference (MechTypeList, RFC 4178, section 4.1). Contracts see the
/// list of their identifiers.
#[derive(Drop)]
pub struct MechTypeList {
    list: Vec<Oid>,
}

impl Model for MechTypeList {
    ghost use Rattle.std.specs.Prelude.{ℕ, List};

    ghost Value = { List (List ℕ) };

    ghost view = { λ mech_types. mech_types.list.items };
}

impl PartialEq for MechTypeList {
    ghost use Rattle.std.specs.Prelude.{◌==◌};
    ghost use Rattle.std.specs.Cmp.{partial_equiv_from_equiv};
    ghost use Rattle.std.specs.Cmp.Lexicographic.{pointwise, lists_equiv, nat_list_eq_equiv};

    ghost eq = { pointwise (pointwise ◌==◌) };

    ghost laws = { partial_equiv_from_equiv (lists_equiv nat_list_eq_equiv) };

    fn eq(&self, other: &MechTypeList) -> bool {
        self.list == other.list
    }
}

impl Eq for MechTypeList {
    ghost use Rattle.std.specs.Cmp.Lexicographic.{lists_equiv, nat_list_eq_equiv};

    ghost laws = { lists_equiv nat_list_eq_equiv };
}

impl MechTypeList {
    /// The list of these identifiers, which are moved and not copied.
    pub fn from_vec(list: Vec<Oid>) -> MechTypeList
        ensures { result ≡ list.items }
    {
        MechTypeList { list }
    }

    /// The identifiers, borrowed.
    pub fn as_slice(&self) -> &[Oid]
        ensures { result.now ≡ self.now }
    {
        &self.list
    }

    /// A copy in memory of its own, equal to this list.
    pub fn clone(&self, alloc: Global) -> Result<MechTypeList, AllocError>
        ensures { IfOk result (λ mech_types. mech_types ≡ self.now) }
    {
        let mut copy = Vec::with_capacity(alloc, self.list.len())?;
        for oid in &self.list {
            copy.push(oid.clone(alloc)?)?;
        }
        Ok(MechTypeList { list: copy })
    }
}

/// The list alone as a SEQUENCE, which the MICs of a negotiation cover (RFC 4178, section 5).
///
/// `InternalError` with the reason `TooLong` exactly when its content passes
/// `sspi_ber::MAX_CONTENT`, 1048576 octets.
#[tactic(auto, using(crate::proofs::Encode::refused, crate::proofs::Encode::unwritten, crate::proofs::Encode::written))]
pub fn encode_mech_types(alloc: Global, list: &MechTypeList) -> Result<Vec<u8>, Error>
    ensures { WritesAs (spelled_list list.now) result }
{
    match oids_len(list.as_slice()) {
        None => Err(too_long()),
        Some(len) => Ok(write_list(alloc, list, len)?),
    }
}

fn write_list(alloc: Global, list: &MechTypeList, len: usize) -> Result<Vec<u8>, AllocError>
    requires size { len ≡ length (oids_text list.now) }
    requires fits { len ≤ max_content }
    ensures { IfOk result (λ bytes. bytes.items ≡ element 0x30 (oids_text list.now)) }
{
    let mut sink = VecSink::with_capacity(alloc, size_of_element(len))?;
    put_mech_types(&mut sink, list.as_slice(), len)?;
    Ok(sink.into_inner())
}
