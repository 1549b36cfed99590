//! Peers below and at the least version that an end accepts.

use crate::tests::credssp::stage::plays;
use sspi_mech::Ntlm;

const OF_A_CLIENT: &str = "
ends
client new version=0 -> reply
client new version=4 token=challenge -> DowngradeDetected/OldPeer did=nothing gave=none
client new version=4 token=challenge -> DowngradeDetected/OldPeer did=nothing gave=none
client new version=0 token=challenge -> DowngradeDetected/OldPeer did=nothing gave=none
client new version=5 token=challenge -> reply
client new version=4 token=challenge -> MessageAltered/PeerVersion did=nothing
client new version=6 token=challenge -> MessageAltered/PeerVersion did=nothing
";

/// A version that is too old is not pinned, however often it is sent; the first other one is. The
/// client's first message depends on no version of the server.
#[test]
fn of_a_client(rt: HostRuntime) {
    plays::<Ntlm>(&rt, OF_A_CLIENT);
}

const THAT_A_CLIENT_IS_GIVEN: &str = "
ends client-least=7
client new version=0 -> reply
client new version=6 token=challenge -> DowngradeDetected/OldPeer did=nothing gave=none
client new version=7 token=challenge -> reply

ends client-least=6
client new version=0 -> reply
client new version=5 token=challenge -> DowngradeDetected/OldPeer did=nothing gave=none
client new version=6 token=challenge -> reply

ends client-least=1
client new version=0 -> reply
client new version=0 token=challenge -> DowngradeDetected/OldPeer did=nothing gave=none
client new version=1 token=challenge -> reply

ends client-least=0
client new version=0 -> reply
client new version=0 token=challenge -> reply
";

/// A client that accepts servers from some version on accepts that one, and refuses the one before.
#[test]
fn that_a_client_is_given(rt: HostRuntime) {
    plays::<Ntlm>(&rt, THAT_A_CLIENT_IS_GIVEN);
}

const OF_A_SERVER: &str = "
ends
server new version=4 token=text:N1 -> DowngradeDetected/OldPeer did=nothing gave=none spelled=300da003020104a4060204c0070350
server new version=2 token=text:N1 -> DowngradeDetected/OldPeer did=nothing gave=none version=2 length=7
server new version=5 token=text:N1 -> reply
server new version=4 token=text:N1 -> MessageAltered/PeerVersion did=nothing
server new version=6 token=text:N1 -> MessageAltered/PeerVersion did=nothing
";

/// The code of the refusal goes back in the version that was refused, and a message below version 3
/// carries none.
#[test]
fn of_a_server(rt: HostRuntime) {
    plays::<Ntlm>(&rt, OF_A_SERVER);
}

const THAT_A_SERVER_IS_GIVEN: &str = "
ends server-least=0
server new version=0 token=text:N1 -> reply

ends server-least=7
server new version=6 token=text:N1 -> DowngradeDetected/OldPeer did=nothing gave=none spelled=300da003020106a4060204c0070350
server new version=7 token=text:N1 -> reply
";

#[test]
fn that_a_server_is_given(rt: HostRuntime) {
    plays::<Ntlm>(&rt, THAT_A_SERVER_IS_GIVEN);
}
