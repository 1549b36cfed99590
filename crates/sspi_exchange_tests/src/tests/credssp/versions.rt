//! Proofs of the key by version, and ends on both sides of version 5.

use crate::tests::credssp::stage::plays;
use sspi_mech::Ntlm;

const BELOW_5: &str = "
ends client-version=2 server-version=2 client-least=0 server-least=0 key=key nonce=00
client new -> reply
server relayed -> reply
client relayed -> reply proof-text=key
server relayed -> reply proof-text=020203
client relayed -> last
server relayed -> identity:DOM\\ann:pw

ends client-version=2 server-version=4 client-least=0 server-least=0 key=key nonce=00
client new -> reply
server relayed -> reply
client relayed -> reply proof-text=key
server relayed -> reply proof-text=020203
client relayed -> last
server relayed -> identity:DOM\\ann:pw

ends client-version=4 server-version=2 client-least=0 server-least=0 key=ff nonce=00
client new -> reply
server relayed -> reply
client relayed -> reply proof-text=ff
server relayed -> reply proof-text=00
client relayed -> last
server relayed -> identity:DOM\\ann:pw

ends client-version=4 server-version=4 client-least=0 server-least=0 key=ffff00 nonce=00
client new -> reply
server relayed -> reply
client relayed -> reply proof-text=ffff00
server relayed -> reply proof-text=000001
client relayed -> last
server relayed -> identity:DOM\\ann:pw

ends client-version=4 server-version=4 client-least=0 server-least=0 key= nonce=00
client new -> reply
server relayed -> reply
client relayed -> reply proof-text=
server relayed -> reply proof-text=
client relayed -> last
server relayed -> identity:DOM\\ann:pw
";

/// Below version 5 the client proves the key by sending it, and the server by sending it with one
/// added.
#[test]
fn below_5(rt: HostRuntime) {
    plays::<Ntlm>(&rt, BELOW_5);
}

const FROM_5_ON: &str = "
ends client-version=5 server-version=5 client-least=0 server-least=0 key=key nonce=11
client new -> reply
server relayed -> reply
client relayed -> reply proof-text=client-proof-of-11
server relayed -> reply proof-text=server-proof-of-11
client relayed -> last
server relayed -> identity:DOM\\ann:pw

ends client-version=5 server-version=6 client-least=0 server-least=0 key=key nonce=00
client new -> reply
server relayed -> reply
client relayed -> reply proof-text=client-proof
server relayed -> reply proof-text=server-proof
client relayed -> last
server relayed -> identity:DOM\\ann:pw

ends client-version=6 server-version=5 client-least=0 server-least=0 key=key nonce=00
client new -> reply
server relayed -> reply
client relayed -> reply proof-text=client-proof
server relayed -> reply proof-text=server-proof
client relayed -> last
server relayed -> identity:DOM\\ann:pw

ends client-version=6 server-version=6 client-least=0 server-least=0 key=key nonce=11
client new -> reply
server relayed -> reply
client relayed -> reply proof-text=client-proof-of-11
server relayed -> reply proof-text=server-proof-of-11
client relayed -> last
server relayed -> identity:DOM\\ann:pw
";

/// From version 5 on each end sends a hash of its label, the nonce and the key.
#[test]
fn from_5_on(rt: HostRuntime) {
    plays::<Ntlm>(&rt, FROM_5_ON);
}

const ON_BOTH_SIDES_OF_5: &str = "
ends client-version=4 server-version=6 client-least=0 server-least=0
client new -> reply
server relayed -> reply
client relayed -> reply proof-text=client-proof
server relayed nonce=none -> MessageAltered/EchoDiffers did=step+CompleteNeeded+checked
see -> version=6 token=none proof-text=client-proof code=C007030F length=67

ends client-version=6 server-version=4 client-least=0 server-least=0
client new -> reply
server relayed -> reply
client relayed -> reply proof-text=key
server relayed -> MessageAltered/HashDiffers did=step+CompleteNeeded+checked
see -> version=4 token=none proof-text=key code=C007030F

ends client-version=2 server-version=5 client-least=0 server-least=0
client new -> reply
server relayed -> reply
client relayed -> reply proof-text=client-proof
server relayed nonce=none -> MessageAltered/EchoDiffers did=step+CompleteNeeded+checked
see -> version=5 token=none proof-text=client-proof code=C007030F

ends client-version=5 server-version=2 client-least=0 server-least=0
client new -> reply
server relayed -> reply
client relayed -> reply proof-text=key
server relayed -> MessageAltered/HashDiffers did=step+CompleteNeeded+checked
see -> version=2 token=none proof-text=key code=C007030F
";

/// Each end makes its proof in the form of the other's version. So the proofs differ if one is
/// below 5 and the other is not.
#[test]
fn on_both_sides_of_5(rt: HostRuntime) {
    plays::<Ntlm>(&rt, ON_BOTH_SIDES_OF_5);
}
