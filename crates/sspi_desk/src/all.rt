//! Serves a list of calls, one answer each.

ghost use Rattle.std.specs.Prelude.{◌≡◌, IfErr, IfOk, OnErr};
ghost use Rattle.sspi_credssp.specs.Context.{either};
ghost use Rattle.sspi_desk.specs.All.{ServesAll};
ghost use Rattle.sspi_types.specs.Errors.{memory_error};

use crate::answer::{Call, DeskError, Served};
use crate::desk::Desk;
use sspi_credssp::CredentialsProxy;
use sspi_mech::Mechanism;
use sspi_types::Error;
use std::alloc::Global;

/// Serves these calls in order, one answer per call; a call that is not served does not stop the
/// later ones.
///
/// For each session, the answers to its calls are those that its server gives alone, whatever other
/// calls come between them.
///
/// The only refusal is `InsufficientMemory`, without a status, which comes before the first call:
/// the desk is then unchanged. If memory runs out in a call, that is the call's answer.
pub fn serve_all<N: Mechanism, K: Mechanism, C: CredentialsProxy>(
    alloc: Global,
    desk: &mut Desk<N, K, C>,
    calls: &[Call],
) -> Result<Vec<Result<Served, DeskError>>, Error>
    ensures served { IfOk result (λ answers. ServesAll (either N.REQUESTS N.meaning K.meaning)
        C.meaning calls.now answers.items
        desk.old desk.new) }
    ensures only { IfErr result (λ error. error ≡ memory_error) }
    ensures unchanged { OnErr result (desk.new ≡ desk.old) }
{
    let mut answers = Vec::with_capacity(alloc, calls.len())?;
    for call in calls {
        let answer = desk.serve(call.session, call.bytes.as_slice());
        answers.push_reserved(answer);
    }
    Ok(answers)
}
