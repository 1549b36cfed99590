//! Which mechanism of a client's list a server picks, and what a client offers (MS-SPNG 3.1.5).
ghost use Rattle.std.specs.Prelude.{◌≡◌, IfOk};
ghost use Rattle.sspi_negotiate.specs.Pick.{found_or, is_kind, offered, pick, picked_or, place_of};
ghost use Rattle.sspi_negotiate.specs.Hand.{is_kerberos_hand};

use sspi_negotiate::package_list::PackageListConfig;
use sspi_negotiate::pick::{Choice, Picked};
use sspi_negotiate::protocol::Protocol;
use sspi_tokens::{MechKind, MechTypeList, Oid};
use std::alloc::{AllocError, Global};

fn is_kind(choice: Choice, kind: MechKind) -> bool
    ensures { result ≡ is_kind choice kind }
{
    match choice {
        Choice::MsKerberos => matches!(kind, MechKind::MsKerberos),
        Choice::Kerberos => matches!(kind, MechKind::Kerberos),
        Choice::Ntlm => matches!(kind, MechKind::Ntlm),
    }
}

fn place(choice: Choice, list: &[Oid]) -> Option<usize>
    ensures { result ≡ place_of choice list.now }
{
    list.iter().position(|oid| is_kind(choice, oid.kind()))
}

fn found(choice: Choice, list: &[Oid], other: Option<Picked>) -> Option<Picked>
    ensures { result ≡ found_or choice (place_of choice list.now) other }
{
    match place(choice, list) {
        None => other,
        Some(index) => Some(Picked { choice, index }),
    }
}

fn picked(usable: bool, choice: Choice, list: &[Oid], other: Option<Picked>) -> Option<Picked>
    ensures { result ≡ picked_or usable choice list.now other }
{
    if usable {
        found(choice, list, other)
    } else {
        other
    }
}

fn is_kerberos(protocol: Protocol) -> bool
    ensures { result ≡ is_kerberos_hand protocol }
{
    match protocol {
        Protocol::Kerberos => true,
        Protocol::Ntlm => false,
    }
}

/// Kerberos by its Windows 2000 identifier, then by its own, each if it may be used and is
/// selected; then NTLM, if it may be used.
pub fn pick(list: &[Oid], packages: PackageListConfig, selected: Protocol) -> Option<Picked>
    ensures { result ≡ pick list.now packages selected }
{
    let kerberos = packages.kerberos && is_kerberos(selected);
    let ntlm = picked(packages.ntlm, Choice::Ntlm, list, None);
    let by_oid = picked(kerberos, Choice::Kerberos, list, ntlm);
    picked(kerberos, Choice::MsKerberos, list, by_oid)
}

/// Kerberos by both identifiers, if it is selected, and NTLM if it may be used.
pub fn offered(
    alloc: Global,
    selected: Protocol,
    packages: PackageListConfig,
) -> Result<MechTypeList, AllocError>
    ensures { IfOk result (λ list. list ≡ offered selected packages) }
{
    let mut list = Vec::new(alloc);
    if is_kerberos(selected) {
        list.push(Oid::ms_krb5(alloc)?)?;
        list.push(Oid::krb5(alloc)?)?;
    }
    if packages.ntlm {
        list.push(Oid::ntlm_ssp(alloc)?)?;
    }
    Ok(MechTypeList::from_vec(list))
}
