//! Finds identities by name.

ghost use Rattle.std.specs.Prelude.{◌≡◌, IfOk, map};
ghost use Rattle.std.specs.List.{list_any};
ghost use Rattle.sspi_names.specs.declared.credentials.Credentials.TheVariants as credentials;
ghost use Rattle.sspi_negotiate.specs.Known.{is_named, named};

use sspi_names::{AuthIdentity, Credentials, Username};
use std::alloc::{AllocError, Global};

/// Whether one of the identities has this name, ignoring ASCII case.
pub(crate) fn is_known(name: &Username, known: &[AuthIdentity]) -> bool
    ensures { result ≡ list_any (is_named name.now) known.now }
{
    known
        .iter()
        .any(|entry| entry.username.eq_ignore_ascii_case(name))
}

/// Copies of the identities that have this name, ignoring ASCII case.
fn copy_named(
    alloc: Global,
    name: &Username,
    known: &[AuthIdentity],
) -> Result<Vec<AuthIdentity>, AllocError>
    ensures { IfOk result (λ copies. copies.items ≡ named name.now known.now) }
{
    let mut copies = Vec::new(alloc);
    for entry in known {
        if entry.username.eq_ignore_ascii_case(name) {
            copies.push(entry.clone(alloc)?)?;
        }
    }
    Ok(copies)
}

/// The same, as credentials.
pub(crate) fn named(
    alloc: Global,
    name: &Username,
    known: &[AuthIdentity],
) -> Result<Vec<Credentials>, AllocError>
    ensures { IfOk result (λ found. found.items ≡ map credentials.AuthIdentity
        (named name.now known.now)) }
{
    copy_named(alloc, name, known)?
        .into_iter()
        .map(|identity| Credentials::AuthIdentity(identity))
        .collect(alloc)
}
