//! Names of 65535 bytes, the longest whose length fits the two bytes before it in a plain
//! mechanism's message, and of one byte more.

use crate::tests::negotiate::script::run_plain;

/// With a name of 65535 letters: the tokens of NTLM, and the offer and the pick of Kerberos. The
/// hashes were computed separately.
const TOKENS: &str = r"
OFFER = 6022 0606 2b0601050502 a018 3016 a00e 300c 060a 2b06010401823702020a a204 0402 'N1'
PICK = a123 3021 a003 0a0101 a10c 060a 2b06010401823702020a a20c 040a 'N2' 00*8
SIGNED = a18301004b 3083010046 a003 0a0101
  a283010028 0483010023 'N3' ffff 61*65535 cf0000c47f6da810a86e2a62b03af5e6834f6153143d40c57d6265e908eb51a6
  a312 0410 7dd04004b55a041d1d4f60591f58bfce
COMPLETE = a11b 3019 a003 0a0100 a312 0410 068fa2c30b0887180765cc8b687cf4d5
KERBEROS-OFFER = 6083010065 0606 2b0601050502 a083010058 3083010053
  a024 3022 0609 2a864882f712010202 0609 2a864886f712010202 060a 2b06010401823702020a
  a283010028 0483010023 'K3' ffff 61*65535 22*32
KERBEROS-PICK = a13a 3038 a003 0a0100 a10b 0609 2a864882f712010202
  a224 0422 'K4' 5a7ad06e4da8e3668deb27cef9ebe043735d30afad72e09f2f3df4ccda15956e
";

const NAMES: &str = r"
# Over NTLM, from both ends.
handle - a*65535 pw
client ntlm ntlm
initialize -> ContinueNeeded OFFER
initialize PICK -> ContinueNeeded SIGNED
initialize COMPLETE -> Ok
names -> gives 61*65535
handle - a*65536 pw
client ntlm ntlm
initialize -> ContinueNeeded OFFER
initialize PICK -> refuses InternalError TooLong
handle - a*65535 pw
initialize PICK -> ContinueNeeded SIGNED

known a*65535 pw
server ntlm ntlm
accept OFFER -> ContinueNeeded PICK
accept SIGNED -> Ok COMPLETE
names -> gives 61*65535

# Over Kerberos, which refuses a name that is too long before it asks a KDC; that is no reason to fall back.
handle - a*65535 pw
kdc-url tcp://kdc
client kerberos
initialize -> asks Tcp 'tcp://kdc' 'KA' 61*65535
resume 'KB' 11*32 -> asks Tcp 'tcp://kdc' 'KT' 11*32 00*32
resume 'KS' 22*32 -> ContinueNeeded KERBEROS-OFFER
initialize KERBEROS-PICK -> Ok
handle - a*65536 pw
client kerberos
initialize -> refuses InternalError TooLong
state Kerberos, no MIC
questions 2

server kerberos
accept KERBEROS-OFFER -> Ok KERBEROS-PICK
names -> gives 61*65535
";

#[test]
fn names(rt: HostRuntime) {
    run_plain(&rt, TOKENS, NAMES);
}
