//! Whom a server knows, and what it answers if the look-up finds nobody.

use crate::tests::credssp::asks::Asks;
use crate::tests::credssp::stage::plays;
use sspi_mech::Ntlm;
use sspi_testing::Scripted;

const THAT_ARE_UNKNOWN: &str = "
ends account=DOM\\ann:other
server new token=text:N1 -> reply
server third -> LogonDenied/Proof did=step+CompleteNeeded code=C007030C length=103

ends account=ann@DOM:pw
server new token=text:N1 -> reply
server third -> NoCredentials/NoIdentity did=step+CompleteNeeded code=C007030E length=103

ends account=none
server new token=text:N1 -> reply
server third -> NoCredentials/NoIdentity did=step+CompleteNeeded code=C007030E length=103

ends account=none fails=0
server new token=text:N1 -> reply
server third -> LogonDenied/Proxy did=step+CompleteNeeded code=C007030C length=103
";

/// Another password, another account, none, and a look-up that fails.
#[test]
fn that_are_unknown(rt: HostRuntime) {
    plays::<Ntlm>(&rt, THAT_ARE_UNKNOWN);
}

const THAT_HAVE_SEVERAL_PASSWORDS: &str = "
ends account=dom\\Ann:other account=dom\\Ann:pw
server new token=text:N1 -> reply
server third -> reply proof-text=server-proof
";

/// One identity of the client's name with its password is enough.
#[test]
fn that_have_several_passwords(rt: HostRuntime) {
    plays::<Ntlm>(&rt, THAT_HAVE_SEVERAL_PASSWORDS);
}

const THAT_ARE_LOOKED_UP_AGAIN: &str = "
ends fails=0
server new token=text:first -> LogonDenied/Proxy did=step+Ok code=C007030C token=none
server new token=text:first -> reply version=6 token=text:last auth=none proof=none code=none nonce=none

ends account=none
server new token=text:first -> NoCredentials/NoIdentity did=step+Ok code=C007030E token=none
server new token=text:first -> NoCredentials/NoIdentity did=step+Ok code=C007030E token=none
";

/// A look-up that fails ends nothing: the next one finds the peer. The mechanism takes any
/// identities, even none; the server does not.
#[test]
fn that_are_looked_up_again(rt: HostRuntime) {
    plays::<Scripted<Asks, 0>>(&rt, THAT_ARE_LOOKED_UP_AGAIN);
}
