//! Turns that wait for a KDC, and go on with `resume`.

use crate::tests::credssp::asks::Asks;
use crate::tests::credssp::stage::plays;
use sspi_testing::Scripted;

const OF_A_MECHANISM_THAT_ASKS: &str = "
ends
see -> waits=no left=0
client new auth=text:first -> asks:tcp://kdc did=step gave=none waits=yes left=1
client new token=text:other -> OutOfSequence/Sequence did=nothing waits=yes
kdc fails -> NoAuthenticatingAuthority/Kdc did=step waits=yes
client new token=text:other -> OutOfSequence/Sequence did=nothing waits=yes
kdc fails -> NoAuthenticatingAuthority/Kdc did=step waits=yes
kdc answers -> reply version=6 token=text:asked auth=text:first proof=none code=none nonce=none waits=no
see -> did=step+ContinueNeeded gave=text:asked
kdc fails -> OutOfSequence/Sequence
client new -> asks:tcp://kdc did=step gave=none waits=yes left=0
kdc answers -> reply proof-text=client-proof waits=no
client new proof=bare:server-proof nonce=00 -> last auth-length=41
";

/// A suspended turn goes on with its own request, whatever was refused in between.
#[test]
fn of_a_mechanism_that_asks(rt: HostRuntime) {
    plays::<Scripted<Asks, 2>>(&rt, OF_A_MECHANISM_THAT_ASKS);
}

const OF_A_MECHANISM_THAT_ENDS_IN_ITS_FIRST_STEP: &str = "
ends client-least=4
client new -> InternalError/NoVersion did=step+Ok
client new version=4 -> reply token=none proof-text=key did=step+Ok+proved
client new proof=bare:020203 nonce=00 -> MessageAltered/PeerVersion did=nothing
client new version=4 proof=bare:key nonce=00 -> MessageAltered/EchoDiffers did=checked
client new version=4 proof=bare:020203 nonce=00 -> last auth-length=41
";

/// The authentication ends before the server's version is known. The second call pins it, and the
/// client goes on with the credentials that it acquired.
#[test]
fn of_a_mechanism_that_ends_in_its_first_step(rt: HostRuntime) {
    plays::<Scripted<Asks, 0>>(&rt, OF_A_MECHANISM_THAT_ENDS_IN_ITS_FIRST_STEP);
}
