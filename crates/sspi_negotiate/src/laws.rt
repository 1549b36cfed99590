//! What follows from the definitions alone. Each law is the contract of a call that does nothing.

ghost use Rattle.std.specs.Prelude.{◌≡◌, ◌↔◌, ℕ, List, true, false, Some, Contains, IsTrue};
ghost use Rattle.sspi_types.specs.declared.error_kind.ErrorKind.{ErrorKind};
ghost use Rattle.sspi_negotiate.specs.declared.fallback.TheConstants.{FALLBACK_ERROR_KINDS};
ghost use Rattle.sspi_negotiate.specs.Fallback.{is_fallback};
ghost use Rattle.sspi_negotiate.specs.PackageList.{names_of, packages_of, in_turn};

/// Reading the names of a package list one by one gives the same. Both packages are allowed at
/// first. The first name without the `!`, whatever it names, disables both before it is applied.
/// Each name then sets its own package.
pub fn names_count_in_turn()
    ensures { (list : List ℕ) → packages_of (Some list) ≡ in_turn false
        (record { ntlm = true; kerberos = true }) (names_of list) }
{}

/// `FALLBACK_ERROR_KINDS` has exactly the kinds after which a client goes on with NTLM.
pub fn fallback_kinds_are_listed()
    ensures { (kind : ErrorKind) → IsTrue (is_fallback kind) ↔ Contains FALLBACK_ERROR_KINDS kind }
{}
