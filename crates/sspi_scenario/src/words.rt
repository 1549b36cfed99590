//! Reads values that are words.

ghost use Rattle.std.specs.Prelude.{◌≡◌};
ghost use Rattle.sspi_scenario.specs.Words.{mode_of, package_of, delegation_of, accounts_of};
ghost use Rattle.sspi_scenario.specs.Words.{end_of};

use crate::scenario::{Mode, Package};
use sspi_delegate::End;
use sspi_tsreq::CredSspMode;

/// What the proxy's table holds if no line has an `account`.
#[derive(Clone, Copy, Debug, PartialEq, Eq)]
pub enum Accounts {
    /// The client's user and password.
    Own,
    None,
}

#[tactic(auto, using(crate::proofs::Wording::is_ntlm, crate::proofs::Wording::is_negotiate, crate::proofs::Wording::no_mode))]
pub fn mode_named(word: &str) -> Option<Mode>
    ensures { result ≡ mode_of word.now }
{
    match word {
        "ntlm" => Some(Mode::Ntlm),
        "negotiate" => Some(Mode::Negotiate),
        _ => None,
    }
}

#[tactic(auto, using(crate::proofs::Wording::packages_named))]
pub fn package_named(word: &str) -> Option<Package>
    ensures { result ≡ package_of word.now }
{
    match word {
        "ntlm" => Some(Package::Ntlm),
        "kerberos" => Some(Package::Kerberos),
        _ => None,
    }
}

#[tactic(auto, using(crate::proofs::Wording::is_with, crate::proofs::Wording::is_less, crate::proofs::Wording::no_delegation))]
pub fn delegation_named(word: &str) -> Option<CredSspMode>
    ensures { result ≡ delegation_of word.now }
{
    match word {
        "with" => Some(CredSspMode::WithCredentials),
        "less" => Some(CredSspMode::CredentialLess),
        _ => None,
    }
}

#[tactic(auto, using(crate::proofs::Wording::is_own, crate::proofs::Wording::is_none, crate::proofs::Wording::no_accounts))]
pub fn accounts_named(word: &str) -> Option<Accounts>
    ensures { result ≡ accounts_of word.now }
{
    match word {
        "own" => Some(Accounts::Own),
        "none" => Some(Accounts::None),
        _ => None,
    }
}

#[tactic(auto, using(crate::proofs::Wording::is_client, crate::proofs::Wording::is_server, crate::proofs::Wording::no_end))]
pub fn end_named(word: &str) -> Option<End>
    ensures { result ≡ end_of word.now }
{
    match word {
        "client" => Some(End::Client),
        "server" => Some(End::Server),
        _ => None,
    }
}
