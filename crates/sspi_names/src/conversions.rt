//! Identities as buffers of UTF-16, and back.

ghost use Rattle.std.specs.Prelude.{◌≡◌, Some, IfOk, is_none};
ghost use Rattle.sspi_names.specs.Identity.{AreBuffers, buffers_of, identity_of, user_text};
ghost use Rattle.sspi_names.specs.Identity.{domain_text, IsIdentified};
ghost use Rattle.sspi_names.specs.Splits.{IsNameOfParts};
ghost use Rattle.sspi_names.specs.Named.{IsNamed};
ghost use Rattle.sspi_names.specs.Name.{new_name, parse_name, has_separator, IsName};
ghost use Rattle.sspi_names.specs.Utf16.{text_of};

use crate::error::UsernameError;
use crate::format::UserNameFormat;
use crate::identity::{AuthIdentity, AuthIdentityBuffers};
use crate::username::Username;
use crate::utf16::Utf16Text;
use sspi_types::{Error, ErrorKind, Reason, Secret, Text};
use std::alloc::{AllocError, Global};

/// The code units of `@` and `\`.
const AT_SIGN: u16 = 0x40;

const BACKSLASH: u16 = 0x5c;

impl AuthIdentity {
    /// The identity as UTF-16. A user principal name becomes the user, as `inner` shows it, with an
    /// empty domain. A down-level name becomes its account and its domain.
    #[tactic(auto, unfolding(crate::specs::Identity::buffers_of))]
    pub fn to_buffers(&self, alloc: Global) -> Result<AuthIdentityBuffers, AllocError>
        ensures buffers { IfOk result (λ buffers. buffers ≡ buffers_of self.now) }
        ensures read_back { IfOk result (λ buffers. identity_of buffers ≡ Some self.now) }
        ensures well_formed { IfOk result (λ buffers. AreBuffers buffers) }
    {
        Ok(AuthIdentityBuffers {
            user: Utf16Text::from_str(alloc, user_part(&self.username))?,
            domain: Utf16Text::from_str(alloc, domain_part(&self.username))?,
            password: Secret {
                value: Utf16Text::from_str(alloc, self.password.value.as_str())?,
            },
        })
    }

    /// The identity in the buffers, named by `Username::new` of the user and the domain.
    /// InvalidParameter exactly when they mix the forms of a name; allocates only if they do not.
    #[tactic(auto, unfolding(crate::specs::Identity::identity_of))]
    pub fn from_buffers(alloc: Global, buffers: &AuthIdentityBuffers) -> Result<AuthIdentity, Error>
        ensures { IsIdentified result (identity_of buffers.now) }
    {
        if mix_forms(&buffers.user, &buffers.domain) {
            return Err(Error::new(ErrorKind::InvalidParameter, Reason::UserName));
        }
        let user = buffers.user.to_string(alloc)?;
        let domain = buffers.domain.to_string(alloc)?;
        let username = name_of_parts(alloc, user.as_str(), domain.as_str())?;
        let password = buffers.password.value.to_string(alloc)?;
        Ok(AuthIdentity {
            username,
            password: Secret {
                value: Text::from_string(password),
            },
        })
    }
}

impl AuthIdentityBuffers {
    /// The name in these buffers: `Username::new` of the user and the domain. `MixedFormat`
    /// exactly when they mix the forms of a name; allocates only if they do not.
    pub fn username(&self, alloc: Global) -> Result<Username, UsernameError>
        ensures { IsNamed result (new_name (text_of self.now.user) (text_of self.now.domain)) }
    {
        if mix_forms(&self.user, &self.domain) {
            return Err(UsernameError::MixedFormat);
        }
        let user = self.user.to_string(alloc)?;
        let domain = self.domain.to_string(alloc)?;
        Username::new(alloc, user.as_str(), Some(domain.as_str()))
    }
}

/// The text that goes into the user buffer.
fn user_part(name: &Username) -> &str
    ensures text { result.now ≡ user_text name.now.format name.now }
    ensures name { IsName name.now }
{
    match name.format() {
        UserNameFormat::UserPrincipalName => name.inner(),
        UserNameFormat::DownLevelLogonName => name.account_name(),
    }
}

/// The text that goes into the domain buffer.
fn domain_part(name: &Username) -> &str
    ensures { result.now ≡ domain_text name.now.format name.now }
{
    match name.format() {
        UserNameFormat::UserPrincipalName => "",
        UserNameFormat::DownLevelLogonName => name.domain_text(),
    }
}

/// Whether a user and a domain mix the forms of a name. Allocates nothing.
fn mix_forms(user: &Utf16Text, domain: &Utf16Text) -> bool
    ensures { result ≡ is_none (new_name (text_of user.now) (text_of domain.now)) }
{
    if domain.is_empty() {
        mixes_forms(user)
    } else {
        has_separator(user) || has_separator(domain)
    }
}

/// Whether a user alone mixes the forms of a name.
fn mixes_forms(user: &Utf16Text) -> bool
    ensures { result ≡ is_none (parse_name (text_of user.now)) }
{
    let backslashes = user.count_of(BACKSLASH);
    1 < backslashes || (0 < backslashes && 0 < user.count_of(AT_SIGN))
}

/// Whether the text contains `@` or `\`.
fn has_separator(text: &Utf16Text) -> bool
    ensures { result ≡ has_separator (text_of text.now) }
{
    0 < text.count_of(AT_SIGN) || 0 < text.count_of(BACKSLASH)
}

/// `Username::new` of a user and a domain; InvalidParameter if they mix the forms of a name.
fn name_of_parts(alloc: Global, user: &str, domain: &str) -> Result<Username, Error>
    ensures { IsNameOfParts result (new_name user.now domain.now) }
{
    match Username::new(alloc, user, Some(domain)) {
        Ok(name) => Ok(name),
        Err(UsernameError::MixedFormat) => Err(Error::new(
            ErrorKind::InvalidParameter,
            Reason::UserName,
        )),
        Err(UsernameError::InsufficientMemory) => Err(Error::new(
            ErrorKind::InsufficientMemory,
            Reason::Memory,
        )),
    }
}
