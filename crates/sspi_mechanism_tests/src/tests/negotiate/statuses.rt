//! Cases that plain NTLM does not reach, with a mechanism whose status is what its token says, and
//! whose MIC is the list itself.

use crate::tests::negotiate::script::run_told;

/// What a mechanism is told is in quotes; its own token is then `ab`. Tokens after the offer: a
/// token, an empty one; the end's own MIC with a token or without, where the agreement is
/// incomplete and where it is complete; and the MIC alone.
const TOKENS: &str = r"
OFFER = 6022 0606 2b0601050502 a018 3016 a00e 300c 060a 2b06010401823702020a a204 0402 'ab'
EMPTY-OFFER = 6020 0606 2b0601050502 a016 3014 a00e 300c 060a 2b06010401823702020a a202 0400
GOING = a10d 300b a003 0a0101 a204 0402 'ab'
EMPTY-GOING = a10b 3009 a003 0a0101 a202 0400
GOING-SIGNED = a11f 301d a003 0a0101 a204 0402 'ab' a310 040e 300c 060a 2b06010401823702020a
GOING-MIC = a119 3017 a003 0a0101 a310 040e 300c 060a 2b06010401823702020a
COMPLETE-SIGNED = a11f 301d a003 0a0100 a204 0402 'ab' a310 040e 300c 060a 2b06010401823702020a
COMPLETE-MIC = a119 3017 a003 0a0100 a310 040e 300c 060a 2b06010401823702020a
OFFER-GOING = 6023 0606 2b0601050502 a019 3017 a00e 300c 060a 2b06010401823702020a a205 0403 '1ab'
BARE-COMPLETE = a107 3005 a003 0a0100
MIC = a114 3012 a310 040e 300c 060a 2b06010401823702020a
BARE-PICK = a115 3013 a003 0a0101 a10c 060a 2b06010401823702020a
PICK = a11b 3019 a003 0a0101 a10c 060a 2b06010401823702020a a204 0402 'ab'
EMPTY-PICK = a119 3017 a003 0a0101 a10c 060a 2b06010401823702020a a202 0400
PICK-OVER-SIGNED = a12e 302c a003 0a0101 a10c 060a 2b06010401823702020a a205 0403 '0ab'
  a310 040e 300c 060a 2b06010401823702020a
COMPLETE-PICK-OVER-SIGNED = a12e 302c a003 0a0100 a10c 060a 2b06010401823702020a a205 0403 '0ab'
  a310 040e 300c 060a 2b06010401823702020a
FOUR-OFFER = 6045 0606 2b0601050502 a03b 3039
  a030 302e 0609 2a864882f712010202 0609 2a864886f712010202 060a 2b06010401823702021e 060a 2b06010401823702020a
  a205 0403 '0ab'
FOUR-GOING = a141 303f a003 0a0101 a204 0402 'ab' a332 0430
  302e 0609 2a864882f712010202 0609 2a864886f712010202 060a 2b06010401823702021e 060a 2b06010401823702020a
FOUR-MIC = a136 3034 a332 0430
  302e 0609 2a864882f712010202 0609 2a864886f712010202 060a 2b06010401823702021e 060a 2b06010401823702020a
";

const OFFERS: &str = r"
# Only a mechanism that goes on or is over may offer itself; after a refusal the client may still begin.
client ntlm ntlm
initialize '2ab' -> refuses InternalError Status
initialize '3ab' -> refuses InternalError Status
initialize '4ab' -> refuses InternalError Status
initialize 'xab' -> refuses LogonDenied Mechanism
initialize '1ab' -> ContinueNeeded OFFER
client ntlm ntlm
initialize '0ab' -> ContinueNeeded OFFER
client ntlm ntlm
initialize '0' -> ContinueNeeded EMPTY-OFFER
";

#[test]
fn offers(rt: HostRuntime) {
    run_told(&rt, TOKENS, OFFERS);
}

const CLIENTS: &str = r"
# Each status but Ok is passed on with the token, whether or not the server holds the agreement for complete; CompleteNeeded is no end on
# a client.
handle DOM ann pw
client ntlm ntlm
initialize '1ab' -> ContinueNeeded OFFER
initialize a11c 301a a003 0a0101 a10c 060a 2b06010401823702020a a205 0403 '1ab' -> ContinueNeeded GOING
state NTLM, MIC needed
client ntlm ntlm
initialize '1ab' -> ContinueNeeded OFFER
initialize a11c 301a a003 0a0101 a10c 060a 2b06010401823702020a a205 0403 '2ab' -> CompleteNeeded GOING
state NTLM, MIC needed
client ntlm ntlm
initialize '1ab' -> ContinueNeeded OFFER
initialize a11c 301a a003 0a0101 a10c 060a 2b06010401823702020a a205 0403 '3ab' -> CompleteAndContinue GOING
state NTLM, MIC needed
client ntlm ntlm
initialize '1ab' -> ContinueNeeded OFFER
initialize a11c 301a a003 0a0100 a10c 060a 2b06010401823702020a a205 0403 '4ab' -> LocalLogon GOING
state NTLM, MIC needed
client ntlm ntlm
initialize '1ab' -> ContinueNeeded OFFER
initialize BARE-PICK -> ContinueNeeded EMPTY-GOING
state NTLM, MIC needed
client ntlm ntlm
initialize '1ab' -> ContinueNeeded OFFER
initialize a11c 301a a003 0a0101 a10c 060a 2b06010401823702020a a205 0403 'xab' -> refuses LogonDenied Mechanism
state NTLM, MIC needed

# An end of the authentication, by the MIC that came; a token that is empty is left out.
handle DOM ann pw
client ntlm ntlm
initialize '1ab' -> ContinueNeeded OFFER
initialize a11c 301a a003 0a0101 a10c 060a 2b06010401823702020a a205 0403 '0ab' -> ContinueNeeded GOING-SIGNED
state NTLM, MIC needed
client ntlm ntlm
initialize '1ab' -> ContinueNeeded OFFER
initialize a11a 3018 a003 0a0101 a10c 060a 2b06010401823702020a a203 0401 '0' -> ContinueNeeded GOING-MIC
state NTLM, MIC needed
client ntlm ntlm
initialize '1ab' -> ContinueNeeded OFFER
initialize PICK-OVER-SIGNED -> Ok COMPLETE-SIGNED
state NTLM, MIC needed
client ntlm ntlm
initialize '1ab' -> ContinueNeeded OFFER
initialize COMPLETE-PICK-OVER-SIGNED -> Ok
state NTLM, MIC needed

# A choice of NTLM stands for a token that goes on and comes without one, and Kerberos is then no choice any more than before.
handle DOM ann pw
client ntlm ntlm
initialize '1ab' -> ContinueNeeded OFFER
initialize a11c 301a a003 0a0101 a10c 060a 2b06010401823702020a a205 0403 '1ab' -> ContinueNeeded GOING
initialize a10e 300c a003 0a0101 a205 0403 '1ab' -> ContinueNeeded GOING
initialize a114 3012 a003 0a0101 a10b 0609 2a864886f712010202 -> refuses InvalidToken Disabled
initialize a115 3013 a003 0a0101 a10c 060a 2b06010401823702021e -> refuses InvalidToken MechUnknown
initialize -> refuses InvalidToken TokenForm
initialize a10e 300c a003 0a0101 a205 0403 '0ab' -> ContinueNeeded GOING-SIGNED
initialize BARE-COMPLETE -> ContinueNeeded
initialize COMPLETE-MIC -> Ok
initialize COMPLETE-MIC -> refuses OutOfSequence Sequence
";

#[test]
fn clients(rt: HostRuntime) {
    run_told(&rt, TOKENS, CLIENTS);
}

const FIRST_STEPS: &str = r"
# Over with the client's first message: the pick goes with the token, and the client's MIC is to come. It is waited for over refusals:
# no MIC, those over Kerberos alone, without its last byte and of nothing, and other tokens. The end says nothing.
known DOM\ann pw
server ntlm ntlm
accept 6023 0606 2b0601050502 a019 3017 a00e 300c 060a 2b06010401823702020a a205 0403 '0ab' -> ContinueNeeded PICK
accept BARE-COMPLETE -> refuses InvalidToken NoMic
accept a102 3000 -> refuses InvalidToken NoMic
accept a118 3016 a003 0a0100 a30f 040d 300b 0609 2a864886f712010202 -> refuses MessageAltered Tag
accept a118 3016 a003 0a0100 a30f 040d 300c 060a 2b0601040182370202 -> refuses MessageAltered Tag
accept a10b 3009 a003 0a0100 a302 0400 -> refuses MessageAltered Tag
accept -> refuses InvalidToken TokenForm
accept OFFER -> refuses InvalidToken TokenForm
state NTLM, MIC needed
accept MIC -> Ok
accept MIC -> refuses OutOfSequence Sequence

# The same of a step that is to be completed.
known DOM\ann pw
server ntlm ntlm
accept 6023 0606 2b0601050502 a019 3017 a00e 300c 060a 2b06010401823702020a a205 0403 '2ab' -> ContinueNeeded PICK
accept BARE-COMPLETE -> refuses InvalidToken NoMic
accept a102 3000 -> refuses InvalidToken NoMic
accept a118 3016 a003 0a0100 a30f 040d 300b 0609 2a864886f712010202 -> refuses MessageAltered Tag
accept a118 3016 a003 0a0100 a30f 040d 300c 060a 2b0601040182370202 -> refuses MessageAltered Tag
accept a10b 3009 a003 0a0100 a302 0400 -> refuses MessageAltered Tag
accept -> refuses InvalidToken TokenForm
accept OFFER -> refuses InvalidToken TokenForm
state NTLM, MIC needed
accept MIC -> Ok
accept MIC -> refuses OutOfSequence Sequence

# Every other status of the first step goes on as ContinueNeeded, also after a refusal.
known DOM\ann pw
server ntlm ntlm
accept 6023 0606 2b0601050502 a019 3017 a00e 300c 060a 2b06010401823702020a a205 0403 'xab' -> refuses LogonDenied Mechanism
accept 6023 0606 2b0601050502 a019 3017 a00e 300c 060a 2b06010401823702020a a205 0403 '1ab' -> ContinueNeeded PICK
accept a10e 300c a003 0a0101 a205 0403 '1ab' -> ContinueNeeded GOING

known DOM\ann pw
server ntlm ntlm
accept 6023 0606 2b0601050502 a019 3017 a00e 300c 060a 2b06010401823702020a a205 0403 'xab' -> refuses LogonDenied Mechanism
accept 6023 0606 2b0601050502 a019 3017 a00e 300c 060a 2b06010401823702020a a205 0403 '3ab' -> ContinueNeeded PICK
accept a10e 300c a003 0a0101 a205 0403 '1ab' -> ContinueNeeded GOING

known DOM\ann pw
server ntlm ntlm
accept 6023 0606 2b0601050502 a019 3017 a00e 300c 060a 2b06010401823702020a a205 0403 'xab' -> refuses LogonDenied Mechanism
accept 6023 0606 2b0601050502 a019 3017 a00e 300c 060a 2b06010401823702020a a205 0403 '4ab' -> ContinueNeeded PICK
accept a10e 300c a003 0a0101 a205 0403 '1ab' -> ContinueNeeded GOING

known DOM\ann pw
server ntlm ntlm
accept 6023 0606 2b0601050502 a019 3017 a00e 300c 060a 2b06010401823702020a a205 0403 'xab' -> refuses LogonDenied Mechanism
accept EMPTY-OFFER -> ContinueNeeded EMPTY-PICK
accept a10e 300c a003 0a0101 a205 0403 '1ab' -> ContinueNeeded GOING
";

#[test]
fn first_steps(rt: HostRuntime) {
    run_told(&rt, TOKENS, FIRST_STEPS);
}

/// Each status except Ok and CompleteNeeded is passed on with the token. Those two end the
/// authentication, and with a MIC also the negotiation.
const LATER_STEPS: &str = r"
known DOM\ann pw
server ntlm ntlm
accept OFFER-GOING -> ContinueNeeded PICK
accept a10e 300c a003 0a0100 a205 0403 '1ab' -> ContinueNeeded GOING
state NTLM, MIC needed
accept a10e 300c a003 0a0101 a205 0403 '3ab' -> CompleteAndContinue GOING
state NTLM, MIC needed
accept a10e 300c a003 0a0101 a205 0403 '4ab' -> LocalLogon GOING
state NTLM, MIC needed
accept a10e 300c a003 0a0101 a205 0403 'xab' -> refuses LogonDenied Mechanism
state NTLM, MIC needed
accept BARE-COMPLETE -> ContinueNeeded EMPTY-GOING
state NTLM, MIC needed
accept a120 301e a003 0a0101 a205 0403 '0ab' a310 040e 300c 060a 2b06010401823702020a -> Ok COMPLETE-SIGNED
state NTLM, MIC needed

known DOM\ann pw
server ntlm ntlm
accept OFFER-GOING -> ContinueNeeded PICK
accept a11e 301c a003 0a0101 a203 0401 '0' a310 040e 300c 060a 2b06010401823702020a -> Ok COMPLETE-MIC
state NTLM, MIC needed

known DOM\ann pw
server ntlm ntlm
accept OFFER-GOING -> ContinueNeeded PICK
accept a120 301e a003 0a0101 a205 0403 '2ab' a310 040e 300c 060a 2b06010401823702020a -> Ok COMPLETE-SIGNED
state NTLM, MIC needed

known DOM\ann pw
server ntlm ntlm
accept OFFER-GOING -> ContinueNeeded PICK
accept a10e 300c a003 0a0100 a205 0403 '0ab' -> refuses InvalidToken NoMic
state NTLM, MIC needed

# The server's MIC goes first where the client does not hold the agreement for complete and sent none: beside accept-incomplete, without
# a token, and without a result.
known DOM\ann pw
server ntlm ntlm
accept OFFER-GOING -> ContinueNeeded PICK
accept a10e 300c a003 0a0101 a205 0403 '0ab' -> ContinueNeeded GOING-SIGNED
accept BARE-COMPLETE -> refuses InvalidToken NoMic
accept a102 3000 -> refuses InvalidToken NoMic
accept a118 3016 a003 0a0100 a30f 040d 300b 0609 2a864886f712010202 -> refuses MessageAltered Tag
accept a118 3016 a003 0a0100 a30f 040d 300c 060a 2b0601040182370202 -> refuses MessageAltered Tag
accept a10b 3009 a003 0a0100 a302 0400 -> refuses MessageAltered Tag
accept -> refuses InvalidToken TokenForm
accept OFFER -> refuses InvalidToken TokenForm
state NTLM, MIC needed
accept MIC -> Ok
accept MIC -> refuses OutOfSequence Sequence

known DOM\ann pw
server ntlm ntlm
accept OFFER-GOING -> ContinueNeeded PICK
accept a10c 300a a003 0a0101 a203 0401 '2' -> ContinueNeeded GOING-MIC
accept BARE-COMPLETE -> refuses InvalidToken NoMic
accept a102 3000 -> refuses InvalidToken NoMic
accept a118 3016 a003 0a0100 a30f 040d 300b 0609 2a864886f712010202 -> refuses MessageAltered Tag
accept a118 3016 a003 0a0100 a30f 040d 300c 060a 2b0601040182370202 -> refuses MessageAltered Tag
accept a10b 3009 a003 0a0100 a302 0400 -> refuses MessageAltered Tag
accept -> refuses InvalidToken TokenForm
accept OFFER -> refuses InvalidToken TokenForm
state NTLM, MIC needed
accept MIC -> Ok
accept MIC -> refuses OutOfSequence Sequence

known DOM\ann pw
server ntlm ntlm
accept OFFER-GOING -> ContinueNeeded PICK
accept a109 3007 a205 0403 '2ab' -> ContinueNeeded GOING-SIGNED
accept BARE-COMPLETE -> refuses InvalidToken NoMic
accept a102 3000 -> refuses InvalidToken NoMic
accept a118 3016 a003 0a0100 a30f 040d 300b 0609 2a864886f712010202 -> refuses MessageAltered Tag
accept a118 3016 a003 0a0100 a30f 040d 300c 060a 2b0601040182370202 -> refuses MessageAltered Tag
accept a10b 3009 a003 0a0100 a302 0400 -> refuses MessageAltered Tag
accept -> refuses InvalidToken TokenForm
accept OFFER -> refuses InvalidToken TokenForm
state NTLM, MIC needed
accept MIC -> Ok
accept MIC -> refuses OutOfSequence Sequence
";

#[test]
fn later_steps(rt: HostRuntime) {
    run_told(&rt, TOKENS, LATER_STEPS);
}

const IDENTITIES: &str = r"
# A server that knows nobody of the peer's name verifies no MIC, in either place.
known DOM\bob pw
server ntlm ntlm
accept 6023 0606 2b0601050502 a019 3017 a00e 300c 060a 2b06010401823702020a a205 0403 '0ab' -> ContinueNeeded PICK
accept MIC -> refuses NoCredentials NoIdentity

server ntlm ntlm
accept OFFER-GOING -> ContinueNeeded PICK
accept a120 301e a003 0a0101 a205 0403 '0ab' a310 040e 300c 060a 2b06010401823702020a -> refuses NoCredentials NoIdentity
";

#[test]
fn identities(rt: HostRuntime) {
    run_told(&rt, TOKENS, IDENTITIES);
}

const LISTS: &str = r"
# Four mechanisms, NTLM the last, with a token that is dropped. All four are kept, in their order, to the end.
known DOM\ann pw
server ntlm ntlm
accept FOUR-OFFER -> ContinueNeeded BARE-PICK
accept a109 3007 a205 0403 '0ab' -> ContinueNeeded FOUR-GOING
accept BARE-COMPLETE -> refuses InvalidToken NoMic
accept a102 3000 -> refuses InvalidToken NoMic
accept a118 3016 a003 0a0100 a30f 040d 300b 0609 2a864886f712010202 -> refuses MessageAltered Tag
accept a118 3016 a003 0a0100 a30f 040d 300c 060a 2b0601040182370202 -> refuses MessageAltered Tag
accept a10b 3009 a003 0a0100 a302 0400 -> refuses MessageAltered Tag
accept -> refuses InvalidToken TokenForm
accept OFFER -> refuses InvalidToken TokenForm
accept MIC -> refuses MessageAltered Tag
accept FOUR-MIC -> Ok
";

#[test]
fn lists(rt: HostRuntime) {
    run_told(&rt, TOKENS, LISTS);
}
