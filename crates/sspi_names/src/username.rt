//! User names: user principal names and down-level logon names.

ghost use Rattle.std.specs.Prelude.{◌≡◌, ◌<◌, false, length, IfOk, option_copied};

use crate::folding::is_same;
use crate::format::UserNameFormat;
use crate::separators::{after, before};
use crate::shape::Shape;
use std::alloc::{AllocError, Global};
use std::marker::Model;

/// A user name: a user principal name or a down-level logon name.
#[derive(Drop)]
pub struct Username {
    inner: String,
    shape: Shape,
}

impl Model for Username {
    ghost use Rattle.std.specs.Prelude.{string_bytes};
    ghost use Rattle.sspi_names.specs.Name.{Name};

    ghost Value = { Name };

    ghost use Rattle.sspi_names.specs.Username.{name_at, IsHeld};

    ghost view = { λ u. name_at (string_bytes u.inner) u.shape };

    ghost invariant = { λ u. IsHeld (string_bytes u.inner) u.shape };
}

impl PartialEq for Username {
    ghost use Rattle.sspi_names.specs.Name.{name_eq};
    ghost use Rattle.sspi_names.specs.Equality.{name_eq-partial_equiv};

    ghost eq = { name_eq };

    ghost laws = { name_eq-partial_equiv };

    #[tactic(auto, unfolding(crate::specs::Name::name_eq))]
    fn eq(&self, other: &Username) -> bool {
        self.format().is(other.format())
            && self.account_name() == other.account_name()
            && self.domain_text() == other.domain_text()
    }
}

impl Eq for Username {
    ghost use Rattle.sspi_names.specs.Equality.{name_eq-equiv};

    ghost laws = { name_eq-equiv };
}

impl Username {
    ghost use Rattle.sspi_names.specs.Name.{inner_of, domain_of, down_level, equals_ignoring_case};
    ghost use Rattle.sspi_names.specs.Name.{has_separator, IsName};
    ghost use Rattle.sspi_names.specs.Username.{name_at, IsHeld};

    /// The name with this text and shape.
    pub(crate) fn held(alloc: Global, inner: &str, shape: Shape) -> Result<Username, AllocError>
        requires { IsHeld inner.now shape }
        ensures { IfOk result (λ name. name ≡ name_at inner.now shape) }
    {
        Ok(Username {
            inner: String::from_str(alloc, inner)?,
            shape,
        })
    }

    /// The down-level name with this account and domain.
    pub(crate) fn joined(alloc: Global, account: &str, domain: &str) -> Result<Username, AllocError>
        requires some { 0 < length domain.now }
        requires account { has_separator account.now ≡ false }
        requires domain { has_separator domain.now ≡ false }
        ensures { IfOk result (λ name. name ≡ down_level account.now domain.now) }
    {
        let mut inner = String::with_capacity(alloc, domain.len() + 1 + account.len())?;
        inner.push_str(domain)?;
        inner.push('\\')?;
        inner.push_str(account)?;
        Ok(Username {
            inner,
            shape: Shape::Qualified(domain.len()),
        })
    }

    /// The text that shows the name: `account@domain` for a UPN, `domain\account` for a down-level
    /// name (just the account if it has no domain).
    pub fn inner(&self) -> &str
        ensures text { result.now ≡ inner_of self.now }
        ensures name { IsName self.now }
    {
        self.inner.as_str()
    }

    /// The account, without the domain.
    pub fn account_name(&self) -> &str
        ensures text { result.now ≡ self.now.account }
        ensures name { IsName self.now }
    {
        let inner = self.inner.as_str();
        match self.shape {
            Shape::Principal(at) => before(inner, at),
            Shape::Qualified(at) => after(inner, at),
            Shape::Bare => inner,
        }
    }

    /// The domain; `None` exactly when a down-level name has an empty one.
    pub fn domain_name(&self) -> Option<&str>
        ensures { option_copied result ≡ domain_of self.now }
    {
        let inner = self.inner.as_str();
        match self.shape {
            Shape::Principal(at) => Some(after(inner, at)),
            Shape::Qualified(at) => Some(before(inner, at)),
            Shape::Bare => None,
        }
    }

    /// The domain, or an empty text if there is none.
    pub(crate) fn domain_text(&self) -> &str
        ensures { result.now ≡ self.now.domain }
    {
        let inner = self.inner.as_str();
        match self.shape {
            Shape::Principal(at) => after(inner, at),
            Shape::Qualified(at) => before(inner, at),
            Shape::Bare => "",
        }
    }

    /// Which of the two forms the name has.
    pub fn format(&self) -> UserNameFormat
        ensures { result ≡ self.now.format }
    {
        match self.shape {
            Shape::Principal(_) => UserNameFormat::UserPrincipalName,
            Shape::Qualified(_) | Shape::Bare => UserNameFormat::DownLevelLogonName,
        }
    }

    /// Whether form, account and domain are the same, ignoring the case of ASCII letters.
    #[tactic(auto, unfolding(crate::specs::Name::equals_ignoring_case))]
    pub fn eq_ignore_ascii_case(&self, other: &Username) -> bool
        ensures { result ≡ equals_ignoring_case self.now other.now }
    {
        self.format().is(other.format())
            && is_same(self.account_name(), other.account_name())
            && is_same(self.domain_text(), other.domain_text())
    }

    /// A copy in memory of its own, equal to this name.
    pub fn clone(&self, alloc: Global) -> Result<Username, AllocError>
        ensures { IfOk result (λ name. name ≡ self.now) }
    {
        Ok(Username {
            inner: String::from_str(alloc, self.inner.as_str())?,
            shape: self.shape,
        })
    }
}
