//! Delegations after a SPNEGO negotiation.

use crate::tests::credssp::stage::plays;
use sspi_mech::Ntlm;

const OVER_NTLM: &str = "
ends packages=all fails=2
client new -> reply did=step+ContinueNeeded
server relayed -> reply did=step+ContinueNeeded
client relayed -> reply did=step+ContinueNeeded
server relayed -> reply did=step+Ok
client relayed -> reply did=step+Ok+proved
server relayed -> reply
client relayed -> last
server relayed -> identity:DOM\\ann:pw
";

/// Four messages of the client: the offer, its proof with its MIC, its proof of the key, and the
/// credentials. The server asks its proxy twice: for its list and for the peer.
#[test]
fn over_ntlm(rt: HostRuntime) {
    plays::<Ntlm>(&rt, OVER_NTLM);
}

const AFTER_A_FAILED_LIST: &str = "
ends packages=all fails=0
server new token=text:N1 -> InternalError/Proxy did=nothing
client new -> reply did=step+ContinueNeeded
server relayed -> reply did=step+ContinueNeeded
client relayed -> reply did=step+ContinueNeeded
server relayed -> reply did=step+Ok
client relayed -> reply did=step+Ok+proved
server relayed -> reply
client relayed -> last
server relayed -> identity:DOM\\ann:pw
";

/// If the list fails, the next call asks for it again, and then makes the context.
#[test]
fn after_a_failed_list(rt: HostRuntime) {
    plays::<Ntlm>(&rt, AFTER_A_FAILED_LIST);
}

const BEFORE_A_FAILED_LOOK_UP: &str = "
ends packages=all fails=1
client new -> reply did=step+ContinueNeeded
server relayed -> reply did=step+ContinueNeeded
client relayed -> reply did=step+ContinueNeeded
server relayed -> LogonDenied/Proxy did=step+Ok
";

/// The second call is the look-up of the peer, which fails here.
#[test]
fn before_a_failed_look_up(rt: HostRuntime) {
    plays::<Ntlm>(&rt, BEFORE_A_FAILED_LOOK_UP);
}

const WITHOUT_A_PACKAGE: &str = "
ends packages=!ntlm,!kerberos
client new -> NoCredentials/NoPackage
server new token=text:N1 -> NoCredentials/NoPackage did=nothing
";

/// No package is left to either end.
#[test]
fn without_a_package(rt: HostRuntime) {
    plays::<Ntlm>(&rt, WITHOUT_A_PACKAGE);
}
