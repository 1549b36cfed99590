//! Whole delegations, message by message.

use crate::tests::credssp::stage::plays;
use sspi_mech::Ntlm;

const FIVE_MESSAGES: &str = "
ends
client new -> reply spelled=first did=step+ContinueNeeded gave=text:N1
server relayed -> reply spelled=second did=step+ContinueNeeded gave=challenge
client relayed -> reply spelled=third did=step+Ok+proved gave=third-token
server relayed -> reply spelled=fourth did=step+CompleteNeeded+checked+proved gave=none
client relayed -> last spelled=fifth did=checked+sealed gave=none
server relayed -> identity:DOM\\ann:pw did=opened gave=none
";

#[test]
fn five_messages(rt: HostRuntime) {
    plays::<Ntlm>(&rt, FIVE_MESSAGES);
}

const WITHOUT_CREDENTIALS: &str = "
ends client-version=6 delegation=none
client new -> reply
server relayed -> reply
client relayed -> reply
server relayed -> reply
client relayed -> last auth-text=empty-credentials
server relayed -> identity::
";

/// A client that keeps its credentials seals empty ones.
#[test]
fn without_credentials(rt: HostRuntime) {
    plays::<Ntlm>(&rt, WITHOUT_CREDENTIALS);
}
