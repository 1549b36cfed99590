//! What holds for mechanisms taken together, and for other views of one.
ghost use Rattle.std.specs.Prelude.{◌≡◌, ℕ, ◌+◌, ◌≤◌, List, max};
ghost use Rattle.sspi_names.specs.declared.credentials.Credentials.{Credentials};
ghost use Rattle.sspi_mech.specs.Context.{IsContext};
ghost use Rattle.sspi_mech.specs.Laws.{IsMechanism};
ghost use Rattle.sspi_mech.specs.Life.{HasLived};
ghost use Rattle.sspi_mech.specs.Settings.{Setting};
ghost use Rattle.sspi_mech.specs.Sum.{sum, taking, seen};

use crate::mechanism::Mechanism;

/// The sum of two mechanisms is a mechanism, which asks a KDC at most as often as the one that may
/// ask more.
pub fn sum_is_mechanism<N: Mechanism, K: Mechanism>()
    ensures { IsMechanism (max N.REQUESTS K.REQUESTS) (sum N.meaning K.meaning) }
{}

/// The sum of two contexts is a context, whichever identities each is given.
pub fn sum_is_context<N: Mechanism, K: Mechanism>()
    ensures { (first second : List Credentials → List Credentials) →
        IsContext (sum (taking first N.meaning) (taking second K.meaning)) }
{}

/// A type that corresponds one to one to a context is a context, whatever it is made from.
pub fn seen_is_context<M: Mechanism, R, C>()
    ensures { (parts : R → Setting) (view : C → M) (back : M → C) →
        ((m : M) → view (back m) ≡ m) → ((context : C) → back (view context) ≡ context) →
        IsContext (seen parts view back M.meaning) }
{}

/// Whatever its calls, an object asks a KDC at most `REQUESTS` times, and `requests_left` is at
/// most what is left of that.
pub fn object_asks_at_most<M: Mechanism>()
    ensures { (m : M) (n : ℕ) → HasLived M.meaning m n → n + M.meaning.left m ≤ M.REQUESTS }
{}
