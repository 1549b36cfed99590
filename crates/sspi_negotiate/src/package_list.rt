//! Which packages a negotiation may use, as a list of names.

ghost use Rattle.std.specs.Prelude.{◌≡◌, not, if◌then◌else◌};
ghost use Rattle.std.specs.Option.{option_copied};
ghost use Rattle.sspi_negotiate.specs.PackageList.{packages_of, is_marked, is_name_of};

/// Which packages a negotiation may use.
#[derive(Clone, Copy, PartialEq, Eq)]
pub struct PackageListConfig {
    pub ntlm: bool,
    pub kerberos: bool,
}

impl PackageListConfig {
    /// Reads a list of package names, separated by commas. ASCII case is ignored, and no name is
    /// trimmed.
    ///
    /// A name allows its package, and one that starts with `!` disallows it; of several names of
    /// one package the last counts. A package that is not named is allowed exactly if every name
    /// has the `!`. A name without it, even an unknown or empty one, disables what is not named. No
    /// list at all allows both packages.
    pub fn parse(package_list: Option<&str>) -> PackageListConfig
        ensures { result ≡ packages_of (option_copied package_list.entry) }
    {
        match package_list {
            None => PackageListConfig {
                ntlm: true,
                kerberos: true,
            },
            Some(list) => read_names(list),
        }
    }
}

fn read_names(list: &str) -> PackageListConfig
    ensures { result ≡ packages_of (Some list.now) }
{
    let mut ntlm = None;
    let mut kerberos = None;
    let mut unnamed = true;
    for name in list.split(',') {
        ntlm = heard(ntlm, name, "ntlm");
        kerberos = heard(kerberos, name, "kerberos");
        unnamed &= is_disallowing(name);
    }
    PackageListConfig {
        ntlm: ntlm.unwrap_or(unnamed),
        kerberos: kerberos.unwrap_or(unnamed),
    }
}

// Whether `name` allows the package, if it is the package's name; otherwise what was said before.
fn heard(before: Option<bool>, name: &str, expected: &str) -> Option<bool>
    ensures { result ≡ (if is_name_of expected.now name.now then Some (not (is_marked name.now))
        else before) }
{
    if is_name(name, expected) {
        Some(!is_disallowing(name))
    } else {
        before
    }
}

fn is_disallowing(name: &str) -> bool
    ensures { result ≡ is_marked name.now }
{
    name.starts_with('!')
}

fn is_name(name: &str, expected: &str) -> bool
    ensures { result ≡ is_name_of expected.now name.now }
{
    name.strip_prefix('!')
        .unwrap_or(name)
        .eq_ignore_ascii_case(expected)
}
