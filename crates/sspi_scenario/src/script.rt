//! Reads the script of a KDC.

ghost use Rattle.std.specs.Prelude.{◌≡◌};
ghost use Rattle.sspi_scenario.specs.Scripts.{scripted_of, code_of, code_in, numbered_code};

use crate::lines::parted;
use crate::number::number;
use sspi_mech::Scripted;

/// How a KDC answers one call: as usual, not at all, or with an error code, which is a byte.
#[tactic(auto, using(crate::proofs::Scripting::is_usual, crate::proofs::Scripting::is_fail, crate::proofs::Scripting::is_code))]
pub fn kdc_answer(text: &str) -> Option<Scripted>
    ensures { result ≡ scripted_of text.now }
{
    match text {
        "usual" => Some(Scripted::Usual),
        "fail" => Some(Scripted::Fail),
        _ => code(text),
    }
}

/// The word `code`, a space and a number.
#[tactic(auto, unfolding(crate::specs::Scripts::code_of))]
fn code(text: &str) -> Option<Scripted>
    ensures { result ≡ code_of text.now }
{
    let (word, digits) = parted(text)?;
    code_behind(word, digits)
}

#[tactic(auto, using(crate::proofs::Scripting::is_number, crate::proofs::Scripting::no_code))]
fn code_behind(word: &str, digits: &str) -> Option<Scripted>
    ensures { result ≡ code_in word.now digits.now }
{
    match word {
        "code" => numbered_code(digits),
        _ => None,
    }
}

/// An error code is a byte.
#[tactic(auto, using(crate::proofs::Scripting::codes_in_bytes), unfolding(crate::specs::Scripts::numbered_code))]
fn numbered_code(digits: &str) -> Option<Scripted>
    ensures { result ≡ numbered_code digits.now }
{
    let code = number(digits)?;
    if code > 255 {
        return None;
    }
    Some(Scripted::Code(code as u8))
}
