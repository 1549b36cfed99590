//! Object identifiers as numbers separated by dots (X.690 8.19), and the mechanisms that they name.
ghost use Rattle.std.specs.Prelude.{◌≡◌, string_bytes, option_map, Some, IfOk};
ghost use Rattle.sspi_explain.specs.Identifier.{first_text, identifier_text, mech_name, named};
ghost use Rattle.sspi_explain.specs.Identifier.{numbers_text};
ghost use Rattle.sspi_explain.specs.Identifier.{numbers_text_of, subidentifiers_from};

use crate::texts::content_text;
use std::alloc::{AllocError, Global};

/// From this value on, one more octet would be the tenth.
const NINE_OCTETS: u64 = 0x100_0000_0000_0000;

/// An identifier: its numbers, and its name if it has one; or that it is not one.
#[tactic(auto, unfolding(crate::specs::Identifier::identifier_text))]
pub(crate) fn identifier_text(alloc: Global, content: &[u8]) -> Result<String, AllocError>
    ensures { IfOk result (λ text. string_bytes text ≡ identifier_text content.now) }
{
    match numbers_text(alloc, content)? {
        Some(numbers) => match name_of(content) {
            Some(name) => with_name(alloc, &numbers, name),
            None => Ok(numbers),
        },
        None => {
            let content = content_text(alloc, content)?;
            format!(in alloc; "invalid {content}")
        }
    }
}

fn with_name(alloc: Global, numbers: &str, name: &str) -> Result<String, AllocError>
    ensures { IfOk result (λ text. string_bytes text ≡ named numbers.now (Some name.now)) }
{
    let text = format!(in alloc; "{numbers} {name}")?;
    Ok(text)
}

/// The name of a mechanism.
#[tactic(auto, unfolding(crate::specs::Identifier::mech_name))]
fn name_of(content: &[u8]) -> Option<&'static str>
    ensures { option_map (λ name. name.now) result ≡ mech_name content.now }
{
    if content == [0x2b, 0x06, 0x01, 0x05, 0x05, 0x02].as_slice() {
        return Some("SPNEGO");
    }
    if content == [0x2a, 0x86, 0x48, 0x82, 0xf7, 0x12, 0x01, 0x02, 0x02].as_slice() {
        return Some("MS Kerberos");
    }
    if content == [0x2a, 0x86, 0x48, 0x86, 0xf7, 0x12, 0x01, 0x02, 0x02].as_slice() {
        return Some("Kerberos");
    }
    if content == [0x2b, 0x06, 0x01, 0x04, 0x01, 0x82, 0x37, 0x02, 0x02, 0x0a].as_slice() {
        return Some("NTLM");
    }
    None
}

/// The numbers of an identifier, separated by dots.
#[tactic(auto, unfolding(crate::specs::Identifier::numbers_text))]
fn numbers_text(alloc: Global, content: &[u8]) -> Result<Option<String>, AllocError>
    ensures { IfOk result
        (λ text. option_map (λ t. string_bytes t) text ≡ numbers_text content.now) }
{
    match subidentifiers(alloc, content)? {
        None => Ok(None),
        Some(numbers) => dotted(alloc, &numbers),
    }
}

fn dotted(alloc: Global, numbers: &[u64]) -> Result<Option<String>, AllocError>
    ensures { IfOk result
        (λ text. option_map (λ t. string_bytes t) text ≡ numbers_text_of (Some numbers.now)) }
{
    let Some((first, others)) = numbers.split_first() else {
        return Ok(None);
    };
    let mut text = first_text(alloc, *first)?;
    for number in others {
        let number = format!(in alloc; ".{number}")?;
        text.push_str(&number)?;
    }
    Ok(Some(text))
}

/// The first two numbers, encoded as one subidentifier: forty times the first, plus the second.
fn first_text(alloc: Global, first: u64) -> Result<String, AllocError>
    ensures { IfOk result (λ text. string_bytes text ≡ first_text first) }
{
    if first < 40 {
        return format!(in alloc; "0.{first}");
    }
    if first < 80 {
        let second = first - 40;
        return format!(in alloc; "1.{second}");
    }
    let second = first - 80;
    format!(in alloc; "2.{second}")
}

/// The subidentifiers of a content, seven bits an octet; `None` if one is not in its shortest form,
/// has more than nine octets, or does not end.
#[tactic(auto, using(crate::proofs::Subidentifiers::one_more))]
fn subidentifiers(alloc: Global, content: &[u8]) -> Result<Option<Vec<u64>>, AllocError>
    ensures { IfOk result
        (λ numbers. option_map (λ v. v.items) numbers ≡ subidentifiers_from 0 content.now) }
{
    let mut numbers = Vec::new(alloc);
    let mut value = 0u64;
    let mut left = content;
    'octets: while let Some((octet, rest)) = left.split_first() {
        if NINE_OCTETS <= value || (value == 0 && *octet == 0x80) {
            return Ok(None);
        }
        value = value * 128 + u64::from(*octet % 128);
        if *octet < 0x80 {
            numbers.push(value)?;
            value = 0;
        }
        left = rest;
    }
    if value == 0 {
        Ok(Some(numbers))
    } else {
        Ok(None)
    }
}
