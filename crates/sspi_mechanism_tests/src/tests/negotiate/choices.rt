//! Choices of a client and picks of a server where Kerberos may be used, with a mechanism of
//! `told.rt` in its place.

use crate::tests::negotiate::script::{run_beside_told, run_told};

/// Offers of Kerberos by both names and NTLM, of Kerberos alone and of NTLM alone; choices of
/// Kerberos by each of its names.
const CLIENT_TOKENS: &str = r"
THREE-OFFER = 6038 0606 2b0601050502 a02e 302c
  a024 3022 0609 2a864882f712010202 0609 2a864886f712010202 060a 2b06010401823702020a
  a204 0402 'ab'
BOTH-OFFER = 602c 0606 2b0601050502 a022 3020 a018 3016 0609 2a864882f712010202 0609 2a864886f712010202 a204 0402 'ab'
OFFER = 6022 0606 2b0601050502 a018 3016 a00e 300c 060a 2b06010401823702020a a204 0402 4e31
CHOICE = a11b 3019 a003 0a0101 a10b 0609 2a864882f712010202 a205 0403 '1ab'
OTHER-CHOICE = a11b 3019 a003 0a0101 a10b 0609 2a864886f712010202 a205 0403 '1ab'
SIGNED-CHOICE = a12d 302b a003 0a0101 a10b 0609 2a864882f712010202 a205 0403 '0ab'
  a310 040e 300c 060a 2b06010401823702020a
GOING = a10d 300b a003 0a0101 a204 0402 'ab'
SIGNED-COMPLETE = a11f 301d a003 0a0100 a204 0402 'ab' a310 040e 300c 060a 2b06010401823702020a
NTLM-PICK = a115 3013 a003 0a0101 a10c 060a 2b06010401823702020a
NTLM-BEGINNING = a10d 300b a003 0a0101 a204 0402 4e31
NTLM-CHALLENGE = a115 3013 a003 0a0101 a20c 040a 4e32 0000000000000000
NTLM-SIGNED = a14a 3048 a003 0a0101
  a22d 042b 4e33 0700 444f4d5c616e6e 34ddc90ba7ffb071634b466e4d8ecefc8e57189f71f0576ac2bb6e173cf15e3f
  a312 0410 324946d0b68097f769d88cb8c99a58ff
NTLM-COMPLETE = a11b 3019 a003 0a0100 a312 0410 c8cdb644425291178894df95ebfdd786
";

const CHOICES: &str = r"
# Kerberos goes on by either of its names and needs no MIC for that, and then NTLM may not be chosen.
handle DOM ann pw
client kerberos
initialize '1ab' -> ContinueNeeded THREE-OFFER
initialize CHOICE -> ContinueNeeded GOING
initialize NTLM-PICK -> refuses InvalidToken Disabled
state Kerberos, no MIC
client kerberos
initialize '1ab' -> ContinueNeeded THREE-OFFER
initialize OTHER-CHOICE -> ContinueNeeded GOING
initialize NTLM-PICK -> refuses InvalidToken Disabled
state Kerberos, no MIC
client kerberos kerberos
initialize '1ab' -> ContinueNeeded BOTH-OFFER
initialize OTHER-CHOICE -> ContinueNeeded GOING
initialize NTLM-PICK -> refuses InvalidToken Disabled
state Kerberos, no MIC

# A choice of NTLM: it begins anew, with the MICs over all that was offered, and Kerberos may not be chosen any more.
handle DOM ann pw
client kerberos
initialize '1ab' -> ContinueNeeded THREE-OFFER
initialize NTLM-PICK -> ContinueNeeded NTLM-BEGINNING
state NTLM, MIC needed
initialize CHOICE -> refuses InvalidToken Disabled
initialize OTHER-CHOICE -> refuses InvalidToken Disabled
state NTLM, MIC needed
initialize NTLM-CHALLENGE -> ContinueNeeded NTLM-SIGNED
initialize NTLM-COMPLETE -> Ok

# NTLM was offered alone, and the server chooses Kerberos, which the client may use: a new one goes on, and MICs are needed, over what was
# offered.
handle DOM ann pw
client ntlm
initialize '1ab' -> ContinueNeeded OFFER
state NTLM, no MIC
initialize CHOICE -> ContinueNeeded GOING
state Kerberos, MIC needed
questions 3
initialize NTLM-PICK -> refuses InvalidToken Disabled
initialize SIGNED-CHOICE -> Ok SIGNED-COMPLETE
state Kerberos, MIC needed

# The choice stands, although NTLM then refuses to go on without credentials.
client kerberos
initialize '1ab' -> ContinueNeeded THREE-OFFER
initialize NTLM-PICK -> ContinueNeeded NTLM-BEGINNING
initialize NTLM-CHALLENGE -> refuses NoCredentials NoAuthData
initialize CHOICE -> refuses InvalidToken Disabled
state NTLM, MIC needed
";

#[test]
fn choices(rt: HostRuntime) {
    run_beside_told(&rt, CLIENT_TOKENS, CHOICES);
}

/// Offers with a message that ends the authentication: Kerberos by both names and NTLM; by its own
/// name alone; by its own name first; after NTLM; and NTLM alone. Picks: with the message and the
/// end, with the message, and alone.
const SERVER_TOKENS: &str = r"
THREE = 6039 0606 2b0601050502 a02f 302d
  a024 3022 0609 2a864882f712010202 0609 2a864886f712010202 060a 2b06010401823702020a
  a205 0403 '0ab'
OWN-NAME = 6022 0606 2b0601050502 a018 3016 a00d 300b 0609 2a864886f712010202 a205 0403 '0ab'
OWN-NAME-FIRST = 602d 0606 2b0601050502 a023 3021
  a018 3016 0609 2a864886f712010202 0609 2a864882f712010202
  a205 0403 '0ab'
NTLM-FIRST = 602e 0606 2b0601050502 a024 3022
  a019 3017 060a 2b06010401823702020a 0609 2a864882f712010202
  a205 0403 '0ab'
NTLM-ALONE = 6023 0606 2b0601050502 a019 3017 a00e 300c 060a 2b06010401823702020a a205 0403 '0ab'
COMPLETE-PICK = a11a 3018 a003 0a0100 a10b 0609 2a864882f712010202 a204 0402 'ab'
OWN-COMPLETE-PICK = a11a 3018 a003 0a0100 a10b 0609 2a864886f712010202 a204 0402 'ab'
PICK = a11a 3018 a003 0a0101 a10b 0609 2a864882f712010202 a204 0402 'ab'
BARE-PICK = a114 3012 a003 0a0101 a10b 0609 2a864882f712010202
NTLM-PICK = a11b 3019 a003 0a0101 a10c 060a 2b06010401823702020a a204 0402 'ab'
NTLM-BARE-PICK = a115 3013 a003 0a0101 a10c 060a 2b06010401823702020a
";

const PICKS: &str = r"
# The name of Windows 2000 goes before Kerberos's own, and both before NTLM, whatever the client likes best. Where that is what is picked
# its message is taken, and no MIC is needed; else it is dropped.
known DOM\ann pw
server kerberos
state Kerberos, MIC needed
accept THREE -> Ok COMPLETE-PICK
state Kerberos, no MIC
server kerberos
accept OWN-NAME -> Ok OWN-COMPLETE-PICK
state Kerberos, no MIC
server kerberos
accept OWN-NAME-FIRST -> ContinueNeeded BARE-PICK
state Kerberos, MIC needed
server kerberos
accept NTLM-FIRST -> ContinueNeeded BARE-PICK
state Kerberos, MIC needed

# A server that asks for USE_DCE_STYLE needs MICs beside Kerberos too.
known DOM\ann pw
flags USE_DCE_STYLE
server kerberos
accept THREE -> ContinueNeeded PICK
state Kerberos, MIC needed

# NTLM takes the place of a Kerberos that was not offered.
known DOM\ann pw
server kerberos
accept NTLM-ALONE -> ContinueNeeded NTLM-PICK
state NTLM, MIC needed

# Kerberos is not picked where it may not be used, nor where NTLM is in hand.
known DOM\ann pw
server kerberos ntlm
state NTLM, MIC needed
accept THREE -> ContinueNeeded NTLM-BARE-PICK
state NTLM, MIC needed
server ntlm
state NTLM, MIC needed
accept THREE -> ContinueNeeded NTLM-BARE-PICK
state NTLM, MIC needed

# NTLM is not picked where it may not be used, and an offer may still come.
known DOM\ann pw
server kerberos kerberos
accept NTLM-ALONE -> refuses InvalidToken NoSharedMech
state Kerberos, MIC needed
accept THREE -> Ok COMPLETE-PICK
";

#[test]
fn picks(rt: HostRuntime) {
    run_told(&rt, SERVER_TOKENS, PICKS);
}
