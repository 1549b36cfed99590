//! The outer header of a request, or as much of it as a piece has.

ghost use Rattle.std.specs.Prelude.{◌≡◌, ◌≤◌, ℕ, List, [], ◌∷◌, ◌++◌, length, take, MatchBool};
ghost use Rattle.sspi_tsreq.specs.declared.request.TsRequest.{TsRequest};
ghost use Rattle.sspi_tsreq.specs.Feeding.{StandsAt};
ghost use Rattle.sspi_tsreq.specs.Walks.{IsOuter, IsPast, stage_of};

use crate::length::next_length;
use crate::place::{Element, Inner, LengthPart, LengthStep, Place, Stage};

/// The stage after one more byte of the outer header.
fn outer_step(stage: Stage, byte: u8) -> Stage
    requires { IsOuter stage }
    ensures stands { (nonce bytes : List ℕ) (r : TsRequest) → StandsAt nonce stage r bytes →
        StandsAt nonce result r (bytes ++ byte ∷ []) }
    ensures past { IsPast stage → IsPast result }
{
    match stage {
        Stage::OuterTag => {
            if byte == 0x30 {
                Stage::OuterLength(LengthPart::First)
            } else {
                Stage::Refused
            }
        }
        Stage::OuterLength(part) => outer_stage(next_length(part, byte)),
        Stage::Content(_, _) => stage,
        Stage::Refused => Stage::Refused,
    }
}

fn outer_stage(step: LengthStep) -> Stage
    ensures { result ≡ stage_of step }
{
    match step {
        LengthStep::Part(part) => Stage::OuterLength(part),
        LengthStep::Known(len) => {
            Stage::Content(len, Place::AtTag(Element::Required(Inner::Version)))
        }
        LengthStep::Bad => Stage::Refused,
    }
}

fn is_outer(stage: Stage) -> bool
    ensures { MatchBool result (IsOuter stage) (IsOuter stage → ⊥) }
{
    match stage {
        Stage::OuterTag => true,
        Stage::OuterLength(_) => true,
        Stage::Content(_, _) => false,
        Stage::Refused => true,
    }
}

/// Reads what the piece has of the outer header; returns the stage and how many bytes were read.
pub(crate) fn read_outer(stage: Stage, piece: &[u8]) -> (Stage, usize)
    ensures stands { (nonce bytes : List ℕ) (r : TsRequest) → StandsAt nonce stage r bytes →
        StandsAt nonce result.0 r (bytes ++ take result.1 piece.now) }
    ensures within { result.1 ≤ length piece.now }
    ensures whole { IsOuter result.0 → result.1 ≡ length piece.now }
    ensures past { IsPast stage → IsPast result.0 }
{
    let mut stage = stage;
    let mut taken = 0;
    while taken < piece.len() {
        if !is_outer(stage) {
            return (stage, taken);
        }
        stage = outer_step(stage, piece[taken]);
        taken += 1;
    }
    (stage, taken)
}
