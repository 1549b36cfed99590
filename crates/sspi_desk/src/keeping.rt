//! Puts a session under a number that no other one has.

ghost use Rattle.std.specs.Prelude.{◌≡◌, ℕ, ◌+◌, None, Some, cond, length, nat_eq, IfErr, OnOk};
ghost use Rattle.std.specs.Map.{lookup};

use std::collections::HashMap;

/// Keeps a session under a number that none has, or hands it back. Generic, since dropping a value
/// of a type parameter is one step.
pub(crate) fn keep<S: Drop>(
    sessions: &mut HashMap<u64, S>,
    number: u64,
    session: S,
) -> Result<(), S>
    requires { lookup (nat_eq number) sessions.old.entries ≡ None }
    ensures count { OnOk result (length sessions.new.entries ≡ length sessions.old.entries + 1) }
    ensures kept { OnOk result ((q : ℕ) → lookup (nat_eq q) sessions.new.entries
        ≡ cond (nat_eq number q) (Some session) (lookup (nat_eq q) sessions.old.entries)) }
    ensures back { IfErr result (λ back. (back ≡ session) ×
        (sessions.new.entries ≡ sessions.old.entries)) }
{
    match sessions.insert(number, session) {
        Ok(_) => Ok(()),
        Err(failed) => Err(failed.value.1),
    }
}
