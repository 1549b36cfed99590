//! Security packages: their names and entries (SecPkgInfo).

ghost use Rattle.std.specs.Prelude.{◌≡◌, [], ◌∷◌, Some, None, IsSome, IsOk, IfOk, IfErr};
ghost use Rattle.sspi_types.specs.Errors.{memory_error};
ghost use Rattle.sspi_types.specs.Packages.{kerberos_entry, negotiate_entry, ntlm_entry};
ghost use Rattle.sspi_types.specs.Packages.{package_entry, unknown_package};
ghost use Rattle.sspi_types.specs.PackageNames.{package_text, IsOwnName, ReadsName};

use crate::as_str::AsStr;
use crate::error::Error;
use crate::error_kind::ErrorKind;
use crate::package_capabilities::PackageCapabilities;
use crate::reason::Reason;
use crate::text::Text;
use bitflags::Flags;
use std::alloc::{AllocError, Global};
use std::fmt;

/// The name of the package that this library negotiates with.
pub const PKG_NAME: &str = "Negotiate";

/// A security package by its name.
#[derive(Drop, PartialEq, Eq)]
pub enum SecurityPackageType {
    /// NTLM, named `NTLM`.
    Ntlm,
    /// Kerberos, named `Kerberos`.
    Kerberos,
    /// SPNEGO over the others, named `Negotiate` (`PKG_NAME`).
    Negotiate,
    /// A package that this library does not have.
    Other(Text),
}

impl SecurityPackageType {
    /// The package with this name. `NTLM`, `Kerberos` and `Negotiate`, matched exactly, are this
    /// library's and allocate nothing. Any other text names an `Other`.
    pub fn from_str(alloc: Global, name: &str) -> Result<SecurityPackageType, Error>
        ensures read { IfOk result (λ read. ReadsName name.now read) }
        ensures own { IsOwnName name.now → IsOk result }
        ensures memory { IfErr result (λ error. error ≡ memory_error) }
    {
        Ok(match name {
            "NTLM" => SecurityPackageType::Ntlm,
            "Kerberos" => SecurityPackageType::Kerberos,
            PKG_NAME => SecurityPackageType::Negotiate,
            _ => SecurityPackageType::Other(Text::from_text(alloc, name)?),
        })
    }

    /// A copy in memory of its own, equal to this value. Only the name of `Other` is allocated.
    pub fn clone(&self, alloc: Global) -> Result<SecurityPackageType, AllocError>
        ensures same { IfOk result (λ copy. copy ≡ self.now) }
        ensures own { IsSome (package_entry self.now) → IsOk result }
    {
        Ok(match self {
            SecurityPackageType::Ntlm => SecurityPackageType::Ntlm,
            SecurityPackageType::Kerberos => SecurityPackageType::Kerberos,
            SecurityPackageType::Negotiate => SecurityPackageType::Negotiate,
            SecurityPackageType::Other(name) => SecurityPackageType::Other(name.clone(alloc)?),
        })
    }
}

/// The package's name.
impl AsStr for SecurityPackageType {
    ghost text = { package_text };

    fn as_str(&self) -> &str {
        match self {
            SecurityPackageType::Ntlm => "NTLM",
            SecurityPackageType::Kerberos => "Kerberos",
            SecurityPackageType::Negotiate => PKG_NAME,
            SecurityPackageType::Other(name) => name.as_str(),
        }
    }
}

/// Writes the package's name.
impl fmt::Display for SecurityPackageType {
    ghost output = { λ name. Some (package_text name) };

    fn fmt<W: fmt::Write>(&self, f: &mut fmt::Formatter<W>) -> fmt::Result {
        f.write_str(self.as_str())
    }
}

/// What is known of a security package (SecPkgInfo).
#[derive(Drop, PartialEq, Eq)]
pub struct PackageInfo {
    /// What the package can do; nothing is claimed for this library's packages.
    pub capabilities: PackageCapabilities,
    /// The identifier of the package for RPC; 0xFFFF if it has none.
    pub rpc_id: u16,
    /// The maximum number of bytes in a token of this package.
    pub max_token_len: u32,
    /// Which package it is.
    pub name: SecurityPackageType,
    /// A text for human readers.
    pub comment: Text,
}

impl PackageInfo {
    /// A copy in memory of its own, equal to this entry.
    pub fn clone(&self, alloc: Global) -> Result<PackageInfo, AllocError>
        ensures { IfOk result (λ copy. copy ≡ self.now) }
    {
        Ok(PackageInfo {
            capabilities: self.capabilities,
            rpc_id: self.rpc_id,
            max_token_len: self.max_token_len,
            name: self.name.clone(alloc)?,
            comment: self.comment.clone(alloc)?,
        })
    }
}

/// The entry of a package. `Unknown` exactly for a package that this library does not have.
pub fn query_security_package_info(
    alloc: Global,
    package_type: &SecurityPackageType,
) -> Result<PackageInfo, Error>
    ensures found { IfOk result (λ info. package_entry package_type.now ≡ Some info) }
    ensures unknown { package_entry package_type.now ≡ None → result ≡ Err unknown_package }
    ensures memory { IsSome (package_entry package_type.now)
        → IfErr result (λ error. error ≡ memory_error) }
{
    let (max_token_len, name, comment) = match package_type {
        SecurityPackageType::Negotiate => (
            0xbb80,
            SecurityPackageType::Negotiate,
            "Microsoft Package Negotiator",
        ),
        SecurityPackageType::Kerberos => (
            0xbb80,
            SecurityPackageType::Kerberos,
            "Kerberos Security Package",
        ),
        SecurityPackageType::Ntlm => (0xb48, SecurityPackageType::Ntlm, "NTLM Security Package"),
        SecurityPackageType::Other(_) => return Err(Error::new(
            ErrorKind::Unknown,
            Reason::Package,
        )),
    };
    Ok(PackageInfo {
        capabilities: PackageCapabilities::from_bits_retain(0),
        rpc_id: 0xffff,
        max_token_len,
        name,
        comment: Text::from_text(alloc, comment)?,
    })
}

/// The entries of all packages of this library: Negotiate, Kerberos, NTLM.
pub fn enumerate_security_packages(alloc: Global) -> Result<Vec<PackageInfo>, Error>
    ensures all { IfOk result
        (λ infos. infos.items ≡ negotiate_entry ∷ kerberos_entry ∷ ntlm_entry ∷ []) }
    ensures memory { IfErr result (λ error. error ≡ memory_error) }
{
    let mut infos = Vec::with_capacity(alloc, 3)?;
    infos.push(query_security_package_info(alloc, &SecurityPackageType::Negotiate)?)?;
    infos.push(query_security_package_info(alloc, &SecurityPackageType::Kerberos)?)?;
    infos.push(query_security_package_info(alloc, &SecurityPackageType::Ntlm)?)?;
    Ok(infos)
}

/// The entry of Negotiate.
pub fn negotiate_package_info(alloc: Global) -> Result<PackageInfo, Error>
    ensures entry { IfOk result (λ info. info ≡ negotiate_entry) }
    ensures memory { IfErr result (λ error. error ≡ memory_error) }
{
    query_security_package_info(alloc, &SecurityPackageType::Negotiate)
}
