//! What acquired credentials are used for.

ghost use Rattle.std.specs.Prelude.{◌≡◌};
ghost use Rattle.sspi_types.specs.CredentialUses.{credential_use_number};
ghost use Rattle.sspi_types.specs.Numbers.{ReadsNumber};

/// What acquired credentials are used for (`fCredentialUse` of AcquireCredentialsHandle).
#[derive(Clone, Copy, Debug, PartialEq, Eq)]
pub enum CredentialUse {
    /// By a server, to accept clients (SECPKG_CRED_INBOUND).
    Inbound = 1,
    /// By a client, to log on (SECPKG_CRED_OUTBOUND).
    Outbound = 2,
    /// By either (SECPKG_CRED_BOTH).
    Both = 3,
    /// The package's default (SECPKG_CRED_DEFAULT).
    Default = 4,
}

impl CredentialUse {
    /// The value with this number, or `None` if the table has no such number.
    #[tactic(auto, using(crate::proofs::Numbers::same_credential_use))]
    pub fn from_u32(number: u32) -> Option<Self>
        ensures { ReadsNumber credential_use_number number result }
    {
        Some(match number {
            1 => CredentialUse::Inbound,
            2 => CredentialUse::Outbound,
            3 => CredentialUse::Both,
            4 => CredentialUse::Default,
            _ => return None,
        })
    }

    /// The number of this value.
    pub fn to_u32(self) -> u32
        ensures { result ≡ credential_use_number self }
    {
        self as u32
    }
}
