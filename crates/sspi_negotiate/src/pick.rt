//! Which mechanism a server picks from a client's list.

ghost use Rattle.std.specs.Prelude.{◌≡◌, IfOk};
ghost use Rattle.sspi_negotiate.specs.Pick.{oid_of, is_kind, place_of, found_or, picked_or, pick};
ghost use Rattle.sspi_negotiate.specs.Pick.{offered};

use crate::package_list::PackageListConfig;
use crate::protocol::Protocol;
use sspi_tokens::{MechKind, MechTypeList, Oid};
use std::alloc::{AllocError, Global};

/// A mechanism that a server can pick, by its identifier.
#[derive(Clone, Copy, Debug, PartialEq, Eq)]
pub enum Choice {
    MsKerberos,
    Kerberos,
    Ntlm,
}

/// The mechanism that a server picked, and its first position in the client's list.
#[derive(Clone, Copy)]
pub struct Picked {
    pub choice: Choice,
    pub index: usize,
}

impl Choice {
    pub(crate) fn oid(self, alloc: Global) -> Result<Oid, AllocError>
        ensures { IfOk result (λ oid. oid ≡ oid_of self) }
    {
        match self {
            Choice::MsKerberos => Oid::ms_krb5(alloc),
            Choice::Kerberos => Oid::krb5(alloc),
            Choice::Ntlm => Oid::ntlm_ssp(alloc),
        }
    }

    fn is_kind(self, kind: MechKind) -> bool
        ensures { result ≡ is_kind self kind }
    {
        match self {
            Choice::MsKerberos => matches!(kind, MechKind::MsKerberos),
            Choice::Kerberos => matches!(kind, MechKind::Kerberos),
            Choice::Ntlm => matches!(kind, MechKind::Ntlm),
        }
    }

    /// Its first position in a list.
    fn place(self, list: &[Oid]) -> Option<usize>
        ensures { result ≡ place_of self list.now }
    {
        list.iter().position(|oid| self.is_kind(oid.kind()))
    }

    /// This mechanism if it is offered, else `other`.
    fn found(self, list: &[Oid], other: Option<Picked>) -> Option<Picked>
        ensures { result ≡ found_or self (place_of self list.now) other }
    {
        match self.place(list) {
            None => other,
            Some(index) => Some(Picked {
                choice: self,
                index,
            }),
        }
    }

    fn or(self, usable: bool, list: &[Oid], other: Option<Picked>) -> Option<Picked>
        ensures { result ≡ picked_or usable self list.now other }
    {
        if usable {
            self.found(list, other)
        } else {
            other
        }
    }
}

/// The mechanism that a server picks from the client's list.
pub(crate) fn pick(list: &[Oid], packages: PackageListConfig, protocol: Protocol) -> Option<Picked>
    ensures { result ≡ pick list.now packages protocol }
{
    let kerberos = packages.kerberos && protocol.is_kerberos();
    let ntlm = Choice::Ntlm.or(packages.ntlm, list, None);
    let by_oid = Choice::Kerberos.or(kerberos, list, ntlm);
    Choice::MsKerberos.or(kerberos, list, by_oid)
}

/// What a client offers.
pub(crate) fn offered(
    alloc: Global,
    protocol: Protocol,
    packages: PackageListConfig,
) -> Result<MechTypeList, AllocError>
    ensures { IfOk result (λ list. list ≡ offered protocol packages) }
{
    let mut list = Vec::new(alloc);
    if protocol.is_kerberos() {
        list.push(Oid::ms_krb5(alloc)?)?;
        list.push(Oid::krb5(alloc)?)?;
    }
    if packages.ntlm {
        list.push(Oid::ntlm_ssp(alloc)?)?;
    }
    Ok(MechTypeList::from_vec(list))
}
