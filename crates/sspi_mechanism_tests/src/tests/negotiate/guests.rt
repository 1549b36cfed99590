//! Guests, whose agreement on NTLM needs no MIC: a client goes by the user of the handle, a server
//! by the name of the peer.

use crate::tests::negotiate::script::run_plain;

/// Names with their proofs: of a guest, of one in lower case, of a guest of a domain, and of a user
/// whose name only begins like that; the MICs of a guest and of that user.
const TOKENS: &str = r"
OFFER = 6022 0606 2b0601050502 a018 3016 a00e 300c 060a 2b06010401823702020a a204 0402 4e31
PICK = a123 3021 a003 0a0101 a10c 060a 2b06010401823702020a a20c 040a 4e32 0000000000000000
CHALLENGE = a115 3013 a003 0a0101 a20c 040a 4e32 0000000000000000
BARE-COMPLETE = a107 3005 a003 0a0100
GUEST = a135 3033 a003 0a0100
  a22c 042a 4e33 0600 2f4755455354 40ebe6f82761fe9f6d3c3fe0f07518df5599964f9041c2b9282f25ce3d2c1e5b
SMALL-GUEST = a135 3033 a003 0a0100
  a22c 042a 4e33 0600 2f6775657374 ed1fc1ab3f357503e1f3a12b245a071c185f529787d33db9ef25a33245e18665
DOMAIN-GUEST = a139 3037 a003 0a0100
  a230 042e 4e33 0a00 444f4d5c2f4755455354 f7242dcd7c3438da9402f976fe47feac0680ea9bbcbca9a66f65c895aefcb900
GOING-GUEST = a135 3033 a003 0a0101
  a22c 042a 4e33 0600 2f4755455354 40ebe6f82761fe9f6d3c3fe0f07518df5599964f9041c2b9282f25ce3d2c1e5b
SIGNED-GUEST = a149 3047 a003 0a0101
  a22c 042a 4e33 0600 2f4755455354 40ebe6f82761fe9f6d3c3fe0f07518df5599964f9041c2b9282f25ce3d2c1e5b
  a312 0410 5f479f25a72d24a4a5fc85c3b2f47e50
GUEST-COMPLETE = a11b 3019 a003 0a0100 a312 0410 31de4a357b84e01d33ea2ef3dd38ed34
NO-GUEST = a14b 3049 a003 0a0101
  a22e 042c 4e33 0800 2f47554553544078 3015832c0a92666472773e490bf3f084cea8773b393a64361ed463ad64d06601
  a312 0410 afd9cbea760148e2eeb0d210867e7cd8
";

const CLIENTS: &str = r"
# A choice of NTLM by a guest clears the need, in whatever letters and whatever domain; no other name does.
flags USE_SESSION_KEY
handle - /GUEST pw
client ntlm ntlm
initialize -> ContinueNeeded OFFER
state NTLM, MIC needed
initialize PICK -> Ok GUEST
state NTLM, no MIC
handle - /guest pw
client ntlm ntlm
initialize -> ContinueNeeded OFFER
state NTLM, MIC needed
initialize PICK -> Ok SMALL-GUEST
state NTLM, no MIC
handle DOM /GUEST pw
client ntlm ntlm
initialize -> ContinueNeeded OFFER
state NTLM, MIC needed
initialize PICK -> Ok DOMAIN-GUEST
state NTLM, no MIC
handle - /GUEST@x pw
client ntlm ntlm
initialize -> ContinueNeeded OFFER
state NTLM, MIC needed
initialize PICK -> ContinueNeeded NO-GUEST
state NTLM, MIC needed

# The handle of the choice decides, and not the credentials that were kept.
flags USE_SESSION_KEY
handle - /GUEST pw
client ntlm ntlm
initialize -> ContinueNeeded OFFER
state NTLM, MIC needed
handle none
initialize PICK -> ContinueNeeded SIGNED-GUEST
state NTLM, MIC needed

# Without a choice there is no guest.
flags USE_SESSION_KEY
handle - /GUEST pw
client ntlm ntlm
initialize -> ContinueNeeded OFFER
state NTLM, MIC needed
initialize CHALLENGE -> ContinueNeeded SIGNED-GUEST
state NTLM, MIC needed
";

#[test]
fn clients(rt: HostRuntime) {
    run_plain(&rt, TOKENS, CLIENTS);
}

const SERVERS: &str = r"
# A guest's MIC may be missing beside accept-completed, which clears the need, and nobody needs to know a guest.
server ntlm ntlm
accept OFFER -> ContinueNeeded PICK
accept GUEST -> Ok BARE-COMPLETE
state NTLM, no MIC
accept GUEST -> refuses OutOfSequence Sequence

server ntlm ntlm
accept OFFER -> ContinueNeeded PICK
accept SMALL-GUEST -> Ok BARE-COMPLETE
state NTLM, no MIC
accept SMALL-GUEST -> refuses OutOfSequence Sequence

# It may not be missing beside accept-incomplete.
server ntlm ntlm
accept OFFER -> ContinueNeeded PICK
accept GOING-GUEST -> refuses OutOfSequence Sequence
state NTLM, MIC needed
accept GOING-GUEST -> refuses OutOfSequence Sequence

# A guest of a domain is none here.
known DOM\/GUEST pw
server ntlm ntlm
accept OFFER -> ContinueNeeded PICK
accept DOMAIN-GUEST -> refuses InvalidToken NoMic
state NTLM, MIC needed
accept DOMAIN-GUEST -> refuses OutOfSequence Sequence

# A guest's MIC that is there is verified as any other.
known /GUEST pw
server ntlm ntlm
accept OFFER -> ContinueNeeded PICK
accept SIGNED-GUEST -> Ok GUEST-COMPLETE
state NTLM, MIC needed
accept SIGNED-GUEST -> refuses OutOfSequence Sequence

server ntlm ntlm
accept OFFER -> ContinueNeeded PICK
accept SIGNED-GUEST -> refuses NoCredentials NoIdentity
state NTLM, MIC needed
accept SIGNED-GUEST -> refuses OutOfSequence Sequence
";

#[test]
fn servers(rt: HostRuntime) {
    run_plain(&rt, TOKENS, SERVERS);
}
