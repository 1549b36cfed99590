//! The two forms of a user name.

ghost use Rattle.std.specs.Prelude.{◌≡◌};

/// The two forms of a user name.
#[derive(Clone, Copy, Debug, PartialEq, Eq)]
pub enum UserNameFormat {
    /// `account@domain`, the user principal name (MS-ADTS 5.1.1.1.1).
    UserPrincipalName,
    /// `domain\account`, or an account alone.
    DownLevelLogonName,
}

impl UserNameFormat {
    ghost use Rattle.sspi_names.specs.Name.{same_format};

    /// Whether both are the same form.
    pub(crate) fn is(self, other: UserNameFormat) -> bool
        ensures { result ≡ same_format self other }
    {
        match (self, other) {
            (UserNameFormat::UserPrincipalName, UserNameFormat::UserPrincipalName) => true,
            (UserNameFormat::UserPrincipalName, UserNameFormat::DownLevelLogonName) => false,
            (UserNameFormat::DownLevelLogonName, UserNameFormat::UserPrincipalName) => false,
            (UserNameFormat::DownLevelLogonName, UserNameFormat::DownLevelLogonName) => true,
        }
    }
}
