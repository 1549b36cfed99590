//! The stages of a client over plain NTLM.

use crate::tests::negotiate::script::run_plain;
use crate::tests::negotiate::tokens::NTLM;

const OFFERS: &str = r"
# Two flags ask for MICs, each by itself, and all others together do not.
flags USE_SESSION_KEY
client ntlm ntlm
state NTLM, MIC needed
initialize -> ContinueNeeded OFFER
state NTLM, MIC needed
flags USE_DCE_STYLE
client ntlm ntlm
state NTLM, MIC needed
initialize -> ContinueNeeded OFFER
state NTLM, MIC needed
flags others
client ntlm ntlm
state NTLM, MIC needed
initialize -> ContinueNeeded OFFER
state NTLM, no MIC

# What comes in is not looked at, and an address, which is for NTLM alone, changes nothing where Kerberos may not be used.
target TERMSRV/host.example.com
client ntlm ntlm
initialize 'anything' -> ContinueNeeded OFFER
state NTLM, no MIC
target TERMSRV/10.0.0.1
client ntlm ntlm
initialize 'anything' -> ContinueNeeded OFFER
state NTLM, no MIC
target TERMSRV/::1
client ntlm ntlm
initialize 'anything' -> ContinueNeeded OFFER
state NTLM, no MIC
target TERMSRV/1.2.3
client ntlm ntlm
initialize 'anything' -> ContinueNeeded OFFER
state NTLM, no MIC
target TERMSRV/01.2.3.4
client ntlm ntlm
initialize 'anything' -> ContinueNeeded OFFER
state NTLM, no MIC
target 1::2::3
client ntlm ntlm
initialize 'anything' -> ContinueNeeded OFFER
state NTLM, no MIC
target 192.0.2.16
client ntlm ntlm
initialize 'anything' -> ContinueNeeded OFFER
state NTLM, no MIC
target
client ntlm ntlm
initialize 'anything' -> ContinueNeeded OFFER
state NTLM, no MIC
";

#[test]
fn offers(rt: HostRuntime) {
    run_plain(&rt, NTLM, OFFERS);
}

const CHOICES: &str = r"
# A choice makes MICs needed, and one that is there is verified at once: beside the pick, beside one that holds the agreement for
# complete, and the client's own.
handle DOM ann pw
client ntlm ntlm
initialize -> ContinueNeeded OFFER
state NTLM, no MIC
initialize SIGNED-PICK -> Ok SIGNED-COMPLETE
state NTLM, MIC needed
initialize PICK -> refuses OutOfSequence Sequence
client ntlm ntlm
initialize -> ContinueNeeded OFFER
initialize SIGNED-COMPLETE-PICK -> Ok
state NTLM, MIC needed
initialize PICK -> refuses OutOfSequence Sequence
client ntlm ntlm
initialize -> ContinueNeeded OFFER
initialize REFLECTED-PICK -> refuses MessageAltered Tag
state NTLM, MIC needed
initialize PICK -> refuses OutOfSequence Sequence

# A token that chooses nothing leaves the need as the offer left it. Where no MIC is needed, none is looked at, and none is sent; where
# the server holds the agreement for complete, nothing is sent, not even NTLM's message.
handle DOM ann pw
client ntlm ntlm
initialize -> ContinueNeeded OFFER
initialize CHALLENGE -> Ok COMPLETE-NAME
state NTLM, no MIC
initialize CHALLENGE -> refuses OutOfSequence Sequence
client ntlm ntlm
initialize -> ContinueNeeded OFFER
initialize a110 300e a20c 040a 4e32 00*8 -> Ok COMPLETE-NAME
state NTLM, no MIC
initialize CHALLENGE -> refuses OutOfSequence Sequence
client ntlm ntlm
initialize -> ContinueNeeded OFFER
initialize a129 3027 a003 0a0101 a20c 040a 4e32 00*8 a312 0410 CLIENT-MIC -> Ok COMPLETE-NAME
state NTLM, no MIC
initialize CHALLENGE -> refuses OutOfSequence Sequence
client ntlm ntlm
initialize -> ContinueNeeded OFFER
initialize a115 3013 a003 0a0100 a20c 040a 4e32 00*8 -> Ok
state NTLM, no MIC
initialize CHALLENGE -> refuses OutOfSequence Sequence

# Another challenge has another proof.
handle DOM ann pw
client ntlm ntlm
initialize -> ContinueNeeded OFFER
initialize a123 3021 a003 0a0101 a10c 060a 2b06010401823702020a a20c 040a 4e32 0102030405060708 -> ContinueNeeded OTHER-CHALLENGE-SIGNED

# No choice beside a need.
handle DOM ann pw
client ntlm ntlm
flags USE_SESSION_KEY
initialize -> ContinueNeeded OFFER
flags none
initialize CHALLENGE -> ContinueNeeded SIGNED
initialize COMPLETE -> Ok
";

#[test]
fn choices(rt: HostRuntime) {
    run_plain(&rt, NTLM, CHOICES);
}

const NO_CHOICES: &str = r"
# Neither name of Kerberos, which is disabled, is a choice, nor are NTLM's neighbour, SPNEGO itself, NTLM's identifier cut and none;
# no token, the token of a client and a list that is cut are not read. All this changes nothing.
handle DOM ann pw
client ntlm ntlm
initialize -> ContinueNeeded OFFER
state NTLM, no MIC
initialize a122 3020 a003 0a0101 a10b 0609 2a864882f712010202 a20c 040a 4e32 00*8 -> refuses InvalidToken Disabled
initialize a122 3020 a003 0a0101 a10b 0609 2a864886f712010202 a20c 040a 4e32 00*8 -> refuses InvalidToken Disabled
initialize a123 3021 a003 0a0101 a10c 060a 2b06010401823702021e a20c 040a 4e32 00*8 -> refuses InvalidToken MechUnknown
initialize a11f 301d a003 0a0101 a108 0606 2b0601050502 a20c 040a 4e32 00*8 -> refuses InvalidToken MechUnknown
initialize a122 3020 a003 0a0101 a10b 0609 2b0601040182370202 a20c 040a 4e32 00*8 -> refuses InvalidToken MechUnknown
initialize a119 3017 a003 0a0101 a102 0600 a20c 040a 4e32 00*8 -> refuses InvalidToken MechUnknown
initialize -> refuses InvalidToken TokenForm
initialize OFFER -> refuses InvalidToken TokenForm
initialize a123 3021 a003 0a0101 a10c 060a 2b0601040182370202 -> refuses InvalidToken TokenForm
state NTLM, no MIC
# Where the challenge is missing or cut, NTLM refuses; but the choice beside it stands, so that MICs are needed from then on.
initialize BARE-PICK -> refuses InvalidToken TokenForm
initialize a122 3020 a003 0a0101 a10c 060a 2b06010401823702020a a20b 0409 4e32 00*7 -> refuses InvalidToken TokenForm
state NTLM, MIC needed
initialize CHALLENGE -> ContinueNeeded SIGNED
";

#[test]
fn no_choices(rt: HostRuntime) {
    run_plain(&rt, NTLM, NO_CHOICES);
}

const MICS: &str = r"
# No end comes without the server's MIC, and no other is taken for it; but it may still come after each of these.
handle DOM ann pw
client ntlm ntlm
initialize -> ContinueNeeded OFFER
state NTLM, no MIC
initialize PICK -> ContinueNeeded SIGNED
state NTLM, MIC needed
initialize BARE-COMPLETE -> ContinueNeeded
# Results that do not complete it, beside the right MIC.
initialize a11b 3019 a003 0a0101 a312 0410 SERVER-MIC -> refuses InvalidToken NegResult
initialize a11b 3019 a003 0a0102 a312 0410 SERVER-MIC -> refuses InvalidToken NegResult
initialize a116 3014 a312 0410 SERVER-MIC -> refuses InvalidToken NegResult
initialize a102 3000 -> refuses InvalidToken NegResult
# The client's own MIC, the server's second, those over no mechanism, over three, over the list without its head and with another
# password, one that is cut, one that is too long and an empty one.
initialize a11b 3019 a003 0a0100 a312 0410 CLIENT-MIC -> refuses MessageAltered Tag
initialize a11b 3019 a003 0a0100 a312 0410 daf2b750d35064aa3eec7f5f8cae0f7a -> refuses MessageAltered Tag
initialize a11b 3019 a003 0a0100 a312 0410 75cc63b10453d88cc3d8f246b76f6e26 -> refuses MessageAltered Tag
initialize a11b 3019 a003 0a0100 a312 0410 c8cdb644425291178894df95ebfdd786 -> refuses MessageAltered Tag
initialize a11b 3019 a003 0a0100 a312 0410 2dafa17f275b7ae4a529e97ae0fb643e -> refuses MessageAltered Tag
initialize a11b 3019 a003 0a0100 a312 0410 f74fe19da645f364aae0d800764eaa72 -> refuses MessageAltered Tag
initialize a11a 3018 a003 0a0100 a311 040f 7388f4f863f9ef7566d4e6ab5f8de8 -> refuses MessageAltered Tag
initialize a11c 301a a003 0a0100 a313 0411 SERVER-MIC 00 -> refuses MessageAltered Tag
initialize a10b 3009 a003 0a0100 a302 0400 -> refuses MessageAltered Tag
# Tokens of other forms.
initialize -> refuses InvalidToken TokenForm
initialize OFFER -> refuses InvalidToken TokenForm
initialize a11b 3019 a003 0a0100 a312 0410 7388f4f863f9ef7566d4e6ab5f8de8 -> refuses InvalidToken TokenForm
initialize BARE-COMPLETE -> ContinueNeeded
state NTLM, MIC needed
initialize COMPLETE -> Ok
state NTLM, MIC needed
initialize COMPLETE -> refuses OutOfSequence Sequence
";

#[test]
fn mics(rt: HostRuntime) {
    run_plain(&rt, NTLM, MICS);
}

const ROLES: &str = r"
# In each place a client is asked for no server's step.
handle DOM ann pw
client ntlm ntlm
accept OFFER -> refuses OutOfSequence Sequence
initialize -> ContinueNeeded OFFER
state NTLM, no MIC
accept PICK -> refuses OutOfSequence Sequence
initialize PICK -> ContinueNeeded SIGNED
accept COMPLETE -> refuses OutOfSequence Sequence
initialize COMPLETE -> Ok

# A server is asked for no client's step.
known DOM\ann pw
handle DOM ann pw
server ntlm ntlm
initialize -> refuses OutOfSequence Sequence
accept OFFER -> ContinueNeeded PICK
initialize PICK -> refuses OutOfSequence Sequence
accept SIGNED -> Ok COMPLETE
initialize COMPLETE -> refuses OutOfSequence Sequence
";

#[test]
fn roles(rt: HostRuntime) {
    run_plain(&rt, NTLM, ROLES);
}
