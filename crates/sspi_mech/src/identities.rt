//! Which of the identities given to a server a mechanism takes.
ghost use Rattle.std.specs.Prelude.{◌≡◌, filter, take};
ghost use Rattle.sspi_mech.specs.NtlmIdentities.{has_password};

use sspi_names::Credentials;

/// Those that NTLM takes: the ones with a password, in their order.
pub fn with_passwords(identities: Vec<Credentials>) -> Vec<Credentials>
    ensures { result.items ≡ filter has_password identities.items }
{
    let mut identities = identities;
    identities.retain(|identity| matches!(identity, Credentials::AuthIdentity(_)));
    identities
}

/// Those that Kerberos takes: the first, if there is one.
pub fn first_of(identities: Vec<Credentials>) -> Vec<Credentials>
    ensures { result.items ≡ take 1 identities.items }
{
    let mut identities = identities;
    identities.truncate(1);
    identities
}
