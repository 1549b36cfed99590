//! Reads and makes user names (MS-ADTS 5.1.1.1).

ghost use Rattle.std.specs.Prelude.{[], length, ◌<◌, option_copied, unwrap_or};
ghost use Rattle.sspi_names.specs.Name.{parse_name, new_name};
ghost use Rattle.sspi_names.specs.Named.{IsNamed};

use crate::error::UsernameError;
use crate::separators::contains_separator;
use crate::shape::Shape;
use crate::username::Username;
use std::alloc::Global;

impl Username {
    /// Reads a name. A text with `@` is a user principal name, split at the last one. A text with
    /// `\` is a down-level name, whose domain comes first. Any other text is an account alone.
    /// `MixedFormat` exactly when the text contains both, or more than one `\`.
    pub fn parse(alloc: Global, value: &str) -> Result<Username, UsernameError>
        ensures { IsNamed result (parse_name value.now) }
    {
        let Some((inner, shape)) = Shape::split(value) else {
            return Err(UsernameError::MixedFormat);
        };
        Ok(Username::held(alloc, inner, shape)?)
    }

    /// The name of an account and a domain: a down-level name if the domain is not empty, else what
    /// `parse` makes of the account. `MixedFormat` exactly when the account or the domain of a
    /// down-level name contains `@` or `\`, or when `parse` answers it.
    pub fn new(
        alloc: Global,
        account_name: &str,
        domain_name: Option<&str>,
    ) -> Result<Username, UsernameError>
        ensures { IsNamed result (new_name account_name.now
            (unwrap_or (option_copied domain_name.entry) [])) }
    {
        let domain = domain_name.unwrap_or("");
        if domain.is_empty() {
            Username::parse(alloc, account_name)
        } else {
            Username::qualified(alloc, account_name, domain)
        }
    }

    fn qualified(alloc: Global, account: &str, domain: &str) -> Result<Username, UsernameError>
        requires { 0 < length domain.now }
        ensures { IsNamed result (new_name account.now domain.now) }
    {
        if contains_separator(account) {
            return Err(UsernameError::MixedFormat);
        }
        if contains_separator(domain) {
            return Err(UsernameError::MixedFormat);
        }
        Ok(Username::joined(alloc, account, domain)?)
    }
}
