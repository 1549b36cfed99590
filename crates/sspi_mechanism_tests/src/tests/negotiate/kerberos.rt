//! Negotiations over plain Kerberos, for `ann@example.com`. The KDC's replies are written by hand:
//! a first key of `11` 32 times, and a session key of `22` 32 times. The server's ticket is `07` 32
//! times. docs/WIRE.md derives the tokens; the blobs and the proof of another key were computed
//! separately in the same way.

use crate::tests::negotiate::script::run_plain;

/// The questions for a first key, and for a session key with the server's ticket and without one;
/// the replies; the tokens of a user-to-user exchange, and of one with a service.
const TOKENS: &str = r"
FIRST-QUESTION = 'KA' 'ann@example.com'
TICKET-QUESTION = 'KT' 11*32 07*32
OTHER-QUESTION = 'KT' 11*32 00*32
FIRST-REPLY = 'KB' 11*32
KEY-REPLY = 'KS' 22*32
THREE-OFFER = 6038 0606 2b0601050502 a02e 302c
  a024 3022 0609 2a864882f712010202 0609 2a864886f712010202 060a 2b06010401823702020a
  a204 0402 'K1'
OFFER = 6022 0606 2b0601050502 a018 3016 a00e 300c 060a 2b06010401823702020a a204 0402 'N1'
PICK = a13a 3038 a003 0a0101 a10b 0609 2a864882f712010202 a224 0422 'K2' 07*32
NAME = a13e 303c a003 0a0101 a235 0433 'K3' 0f00 'ann@example.com' 22*32
SIGNED-REPLY = a141 303f a003 0a0101 a224 0422 'K4' 5a7ad06e4da8e3668deb27cef9ebe043735d30afad72e09f2f3df4ccda15956e
  a312 0410 a2eb1a5481844916e91bf0c2f88fcbfd
COMPLETE = a11b 3019 a003 0a0100 a312 0410 b2dcbfa6a6071fdfef4ee924ec4bc034
NAME-OFFER = 6069 0606 2b0601050502 a05f 305d
  a024 3022 0609 2a864882f712010202 0609 2a864886f712010202 060a 2b06010401823702020a
  a235 0433 'K3' 0f00 'ann@example.com' 22*32
COMPLETE-PICK = a13a 3038 a003 0a0100 a10b 0609 2a864882f712010202
  a224 0422 'K4' 5a7ad06e4da8e3668deb27cef9ebe043735d30afad72e09f2f3df4ccda15956e
PICK-REPLY = a13a 3038 a003 0a0101 a10b 0609 2a864882f712010202
  a224 0422 'K4' 5a7ad06e4da8e3668deb27cef9ebe043735d30afad72e09f2f3df4ccda15956e
OTHER-REPLY-PICK = a13a 3038 a003 0a0100 a10b 0609 2a864882f712010202
  a224 0422 'K4' cdea68bcc4d7f340c2fa82458c6cbf66b737c0d8712727867afff74bbd556bdf
CLIENT-BLOB = ff0adb1767fa4d472a2324cd13db5564 'a_text'
SERVER-BLOB = 91d2adfbc0140fc865cf3026111c50bb 'another'
CHOICE = a10f 300d a10b 0609 2a864882f712010202
OTHER-CHOICE = a10f 300d a10b 0609 2a864886f712010202
";

const USER_TO_USER: &str = r"
# The client asks twice, once in its first step and once for the server's ticket; the server's MIC goes first.
handle - ann@example.com pw
flags USE_SESSION_KEY
kdc-url tcp://kdc
client kerberos
questions 2
initialize -> asks Tcp 'tcp://kdc' FIRST-QUESTION
questions 1, one waits
resume FIRST-REPLY -> ContinueNeeded THREE-OFFER
initialize PICK -> asks Tcp 'tcp://kdc' TICKET-QUESTION
resume KEY-REPLY -> ContinueNeeded NAME
questions 0
state Kerberos, MIC needed
initialize SIGNED-REPLY -> Ok COMPLETE
initialize COMPLETE -> refuses OutOfSequence Sequence
names -> gives 'ann@example.com'
seal 'a_text' -> gives CLIENT-BLOB
unseal SERVER-BLOB -> gives 'another'

# The server of the same.
known Ann@Example.com pw
server kerberos+ticket
accept THREE-OFFER -> ContinueNeeded PICK
state Kerberos, MIC needed
accept NAME -> ContinueNeeded SIGNED-REPLY
accept COMPLETE -> Ok
accept COMPLETE -> refuses OutOfSequence Sequence
names -> gives 'ann@example.com'
complete -> Ok
unseal CLIENT-BLOB -> gives 'a_text'
seal 'another' -> gives SERVER-BLOB

# Without a ticket a server takes no such offer; and it verifies no MIC of a peer that it does not know.
known ann@example.com pw
server kerberos
accept THREE-OFFER -> refuses InvalidToken TokenForm

known bob@example.com pw
server kerberos+ticket
accept THREE-OFFER -> ContinueNeeded PICK
accept NAME -> ContinueNeeded SIGNED-REPLY
accept COMPLETE -> refuses NoCredentials NoIdentity
";

#[test]
fn user_to_user(rt: HostRuntime) {
    run_plain(&rt, TOKENS, USER_TO_USER);
}

const SERVICES: &str = r"
# Both questions come in the first step, no MIC is needed, and one message of each end is all.
handle - ann@example.com pw
kdc-url tcp://kdc
client kerberos
initialize -> asks Tcp 'tcp://kdc' FIRST-QUESTION
resume FIRST-REPLY -> asks Tcp 'tcp://kdc' OTHER-QUESTION
questions 0, one waits
resume KEY-REPLY -> ContinueNeeded NAME-OFFER
initialize COMPLETE-PICK -> Ok
state Kerberos, no MIC
questions 0

known ann@example.com pw
server kerberos
accept NAME-OFFER -> Ok COMPLETE-PICK
state Kerberos, no MIC

# The same in DCE style, which needs MICs: each end has come to its end, and waits for the other's MIC.
handle - ann@example.com pw
flags USE_DCE_STYLE
kdc-url tcp://kdc
client kerberos
initialize -> asks Tcp 'tcp://kdc' FIRST-QUESTION
resume FIRST-REPLY -> asks Tcp 'tcp://kdc' OTHER-QUESTION
resume KEY-REPLY -> ContinueNeeded NAME-OFFER
state Kerberos, MIC needed
initialize PICK-REPLY -> ContinueNeeded a11b 3019 a003 0a0101 a312 0410 b2dcbfa6a6071fdfef4ee924ec4bc034
initialize a107 3005 a003 0a0100 -> ContinueNeeded
initialize a11b 3019 a003 0a0100 a312 0410 a2eb1a5481844916e91bf0c2f88fcbfd -> Ok

known ann@example.com pw
flags USE_DCE_STYLE
server kerberos
accept NAME-OFFER -> ContinueNeeded PICK-REPLY
state Kerberos, MIC needed
accept a107 3005 a003 0a0100 -> refuses InvalidToken NoMic
accept a11b 3019 a003 0a0101 a312 0410 b2dcbfa6a6071fdfef4ee924ec4bc034 -> Ok

# A server that proves another session key.
handle - ann@example.com pw
kdc-url tcp://kdc
client kerberos
initialize -> asks Tcp 'tcp://kdc' FIRST-QUESTION
resume FIRST-REPLY -> asks Tcp 'tcp://kdc' OTHER-QUESTION
resume KEY-REPLY -> ContinueNeeded NAME-OFFER
initialize OTHER-REPLY-PICK -> refuses MutualAuthFailed Tag
initialize COMPLETE-PICK -> Ok
";

#[test]
fn services(rt: HostRuntime) {
    run_plain(&rt, TOKENS, SERVICES);
}

const KDCS: &str = r"
# The KDC of the user's domain is the one that is asked, whatever the letters.
kdc EXAMPLE.ORG tcp://other
kdc EXAMPLE.COM tcp://kdc
handle - ann@example.com pw
flags USE_SESSION_KEY
client ntlm
initialize -> asks Tcp 'tcp://kdc' FIRST-QUESTION
questions 1, one waits
state Kerberos, MIC needed

# A Kerberos that the client begins with asks the KDC of its own table, and before that the one URL that it was given.
kdc EXAMPLE.ORG tcp://other
kdc EXAMPLE.COM tcp://kdc
handle - ann@example.com pw
client kerberos
initialize -> asks Tcp 'tcp://kdc' FIRST-QUESTION

kdc EXAMPLE.COM tcp://other
kdc-url tcp://kdc
handle - ann@example.com pw
client kerberos
initialize -> asks Tcp 'tcp://kdc' FIRST-QUESTION

# A Kerberos that takes the place of an NTLM which may not be used has no URL of its own, and without NTLM there is no fallback.
handle - ann@example.com pw
client ntlm kerberos
initialize -> refuses NoAuthenticatingAuthority Kdc
state Kerberos, no MIC

# Kerberos takes the handle and not what was acquired, and a want of credentials is no reason to fall back. A want of a KDC is.
client kerberos
acquire outbound ann@example.com pw -> gives-others
initialize -> refuses NoCredentials NoAuthData
state Kerberos, no MIC
handle - ann@example.com pw
initialize -> ContinueNeeded OFFER
state NTLM, no MIC

# A key table is as good as a password.
kdc-url tcp://kdc
handle key-table ann@example.com
client kerberos
acquire outbound key-table ann@example.com -> gives-handle
initialize -> asks Tcp 'tcp://kdc' FIRST-QUESTION
resume FIRST-REPLY -> asks Tcp 'tcp://kdc' OTHER-QUESTION
";

#[test]
fn kdcs(rt: HostRuntime) {
    run_plain(&rt, TOKENS, KDCS);
}

/// The KDC's refusals, by the number after `KE`: 1 to 4 mean that Kerberos is unavailable, so the
/// client offers only NTLM and no longer takes a choice of Kerberos; 5 is a refusal of the user,
/// which leaves the question waiting.
const FALLBACK: &str = r"
handle - ann@example.com pw
kdc-url tcp://kdc
client kerberos
initialize -> asks Tcp 'tcp://kdc' FIRST-QUESTION
resume 'KE' 01 -> ContinueNeeded OFFER
state NTLM, no MIC
questions 0
initialize CHOICE -> refuses InvalidToken Disabled
initialize OTHER-CHOICE -> refuses InvalidToken Disabled

handle - ann@example.com pw
kdc-url tcp://kdc
client kerberos
initialize -> asks Tcp 'tcp://kdc' FIRST-QUESTION
resume 'KE' 02 -> ContinueNeeded OFFER
state NTLM, no MIC
questions 0
initialize CHOICE -> refuses InvalidToken Disabled
initialize OTHER-CHOICE -> refuses InvalidToken Disabled

handle - ann@example.com pw
kdc-url tcp://kdc
client kerberos
initialize -> asks Tcp 'tcp://kdc' FIRST-QUESTION
resume 'KE' 03 -> ContinueNeeded OFFER
state NTLM, no MIC
questions 0
initialize CHOICE -> refuses InvalidToken Disabled
initialize OTHER-CHOICE -> refuses InvalidToken Disabled

handle - ann@example.com pw
kdc-url tcp://kdc
client kerberos
initialize -> asks Tcp 'tcp://kdc' FIRST-QUESTION
resume 'KE' 04 -> ContinueNeeded OFFER
state NTLM, no MIC
questions 0
initialize CHOICE -> refuses InvalidToken Disabled
initialize OTHER-CHOICE -> refuses InvalidToken Disabled

handle - ann@example.com pw
kdc-url tcp://kdc
client kerberos
initialize -> asks Tcp 'tcp://kdc' FIRST-QUESTION
resume FIRST-REPLY -> asks Tcp 'tcp://kdc' OTHER-QUESTION
resume 'KE' 01 -> ContinueNeeded OFFER
state NTLM, no MIC
questions 0
initialize CHOICE -> refuses InvalidToken Disabled
initialize OTHER-CHOICE -> refuses InvalidToken Disabled

handle - ann@example.com pw
kdc-url tcp://kdc
client kerberos
initialize -> asks Tcp 'tcp://kdc' FIRST-QUESTION
resume FIRST-REPLY -> asks Tcp 'tcp://kdc' OTHER-QUESTION
resume 'KE' 02 -> ContinueNeeded OFFER
state NTLM, no MIC
questions 0
initialize CHOICE -> refuses InvalidToken Disabled
initialize OTHER-CHOICE -> refuses InvalidToken Disabled

handle - ann@example.com pw
kdc-url tcp://kdc
client kerberos
initialize -> asks Tcp 'tcp://kdc' FIRST-QUESTION
resume FIRST-REPLY -> asks Tcp 'tcp://kdc' OTHER-QUESTION
resume 'KE' 03 -> ContinueNeeded OFFER
state NTLM, no MIC
questions 0
initialize CHOICE -> refuses InvalidToken Disabled
initialize OTHER-CHOICE -> refuses InvalidToken Disabled

handle - ann@example.com pw
kdc-url tcp://kdc
client kerberos
initialize -> asks Tcp 'tcp://kdc' FIRST-QUESTION
resume FIRST-REPLY -> asks Tcp 'tcp://kdc' OTHER-QUESTION
resume 'KE' 04 -> ContinueNeeded OFFER
state NTLM, no MIC
questions 0
initialize CHOICE -> refuses InvalidToken Disabled
initialize OTHER-CHOICE -> refuses InvalidToken Disabled

# No reply, to either question.
handle - ann@example.com pw
kdc-url tcp://kdc
client kerberos
initialize -> asks Tcp 'tcp://kdc' FIRST-QUESTION
fail -> ContinueNeeded OFFER
state NTLM, no MIC
questions 0
initialize CHOICE -> refuses InvalidToken Disabled
initialize OTHER-CHOICE -> refuses InvalidToken Disabled

handle - ann@example.com pw
kdc-url tcp://kdc
client kerberos
initialize -> asks Tcp 'tcp://kdc' FIRST-QUESTION
resume FIRST-REPLY -> asks Tcp 'tcp://kdc' OTHER-QUESTION
fail -> ContinueNeeded OFFER
state NTLM, no MIC
questions 0
initialize CHOICE -> refuses InvalidToken Disabled
initialize OTHER-CHOICE -> refuses InvalidToken Disabled

# The fifth number.
handle - ann@example.com pw
kdc-url tcp://kdc
client kerberos
initialize -> asks Tcp 'tcp://kdc' FIRST-QUESTION
resume 'KE' 05 -> refuses LogonDenied Kdc
questions 1, one waits
resume FIRST-REPLY -> asks Tcp 'tcp://kdc' OTHER-QUESTION
resume 'KE' 05 -> refuses LogonDenied Kdc
questions 0, one waits
resume KEY-REPLY -> ContinueNeeded NAME-OFFER
state Kerberos, no MIC
";

#[test]
fn fallback(rt: HostRuntime) {
    run_plain(&rt, TOKENS, FALLBACK);
}

const NO_FALLBACK: &str = r"
# Where NTLM may not be used a refusal of the KDC is the client's, and its question waits.
handle - ann@example.com pw
kdc-url tcp://kdc
client kerberos kerberos
initialize -> asks Tcp 'tcp://kdc' FIRST-QUESTION
resume 'KE' 01 -> refuses TimeSkew Kdc
resume 'KE' 02 -> refuses NoAuthenticatingAuthority Kdc
resume 'KE' 03 -> refuses CertificateUnknown Kdc
resume 'KE' 04 -> refuses UnknownCredentials Kdc
fail -> refuses NoAuthenticatingAuthority Kdc
questions 1, one waits
resume FIRST-REPLY -> asks Tcp 'tcp://kdc' OTHER-QUESTION

# Past the first step there is no fallback either, and the question waits.
handle - ann@example.com pw
flags USE_SESSION_KEY
kdc-url tcp://kdc
client kerberos
initialize -> asks Tcp 'tcp://kdc' FIRST-QUESTION
resume FIRST-REPLY -> ContinueNeeded THREE-OFFER
initialize PICK -> asks Tcp 'tcp://kdc' TICKET-QUESTION
resume 'KE' 01 -> refuses TimeSkew Kdc
resume 'KE' 02 -> refuses NoAuthenticatingAuthority Kdc
resume 'KE' 03 -> refuses CertificateUnknown Kdc
resume 'KE' 04 -> refuses UnknownCredentials Kdc
resume 'KE' 05 -> refuses LogonDenied Kdc
fail -> refuses NoAuthenticatingAuthority Kdc
questions 0, one waits
state Kerberos, MIC needed
resume KEY-REPLY -> ContinueNeeded NAME

# A name of no form is no reason to fall back.
handle D@M ann pw
client kerberos
initialize -> refuses InvalidParameter UserName
state Kerberos, MIC needed
";

#[test]
fn no_fallback(rt: HostRuntime) {
    run_plain(&rt, TOKENS, NO_FALLBACK);
}

const MALFORMED: &str = r"
# Replies that are none: nothing, too little, too much, the reply to the other question and to none, a refusal without a number, with
# those beside the five and with two. Each leaves the question waiting as it was, and no other step is taken meanwhile.
handle - ann@example.com pw
kdc-url tcp://kdc
client kerberos
initialize -> asks Tcp 'tcp://kdc' FIRST-QUESTION
resume -> refuses InvalidToken TokenForm
resume 'K' -> refuses InvalidToken TokenForm
resume 'KB' -> refuses InvalidToken TokenForm
resume 'KB' 11*31 -> refuses InvalidToken TokenForm
resume 'KB' 11*33 -> refuses InvalidToken TokenForm
resume 'KS' 11*32 -> refuses InvalidToken TokenForm
resume 'KA' 'ann@example.com' -> refuses InvalidToken TokenForm
resume 'KE' -> refuses InvalidToken TokenForm
resume 'KE' 00 -> refuses InvalidToken TokenForm
resume 'KE' 06 -> refuses InvalidToken TokenForm
resume 'KE' 01 01 -> refuses InvalidToken TokenForm
initialize -> refuses OutOfSequence Sequence
initialize PICK -> refuses OutOfSequence Sequence
accept THREE-OFFER -> refuses OutOfSequence Sequence
questions 1, one waits
state Kerberos, no MIC
resume FIRST-REPLY -> asks Tcp 'tcp://kdc' OTHER-QUESTION
resume FIRST-REPLY -> refuses InvalidToken TokenForm
resume 'KS' 22*31 -> refuses InvalidToken TokenForm
resume 'KS' 22*33 -> refuses InvalidToken TokenForm
questions 0, one waits
resume KEY-REPLY -> ContinueNeeded NAME-OFFER
resume KEY-REPLY -> refuses OutOfSequence Sequence
fail -> refuses OutOfSequence Sequence
questions 0

# Answers of a server that are none, to a client that waits for its ticket: no message, a ticket that is too short or too long, the reply
# that is to come later. The client has not asked then, and still may.
handle - ann@example.com pw
flags USE_SESSION_KEY
kdc-url tcp://kdc
client kerberos
initialize -> asks Tcp 'tcp://kdc' FIRST-QUESTION
resume FIRST-REPLY -> ContinueNeeded THREE-OFFER
initialize a114 3012 a003 0a0101 a10b 0609 2a864882f712010202 -> refuses InvalidToken TokenForm
initialize a139 3037 a003 0a0101 a10b 0609 2a864882f712010202 a223 0421 'K2' 07*31 -> refuses InvalidToken TokenForm
initialize a13b 3039 a003 0a0101 a10b 0609 2a864882f712010202 a225 0423 'K2' 07*33 -> refuses InvalidToken TokenForm
initialize COMPLETE-PICK -> refuses InvalidToken TokenForm
questions 1
state Kerberos, MIC needed
initialize PICK -> asks Tcp 'tcp://kdc' TICKET-QUESTION
";

#[test]
fn malformed(rt: HostRuntime) {
    run_plain(&rt, TOKENS, MALFORMED);
}

/// A client that begins with Kerberos and comes to NTLM, whose MICs are then over all three names.
/// The server may use only NTLM, so the pick is the third, and the message of Kerberos is dropped.
const NTLM_TOKENS: &str = r"
THREE-OFFER = 6038 0606 2b0601050502 a02e 302c
  a024 3022 0609 2a864882f712010202 0609 2a864886f712010202 060a 2b06010401823702020a
  a204 0402 'K1'
PICK = a115 3013 a003 0a0101 a10c 060a 2b06010401823702020a
CLIENT-BEGINNING = a10d 300b a003 0a0101 a204 0402 'N1'
CHALLENGE = a115 3013 a003 0a0101 a20c 040a 'N2' 00*8
SIGNED = a14a 3048 a003 0a0101
  a22d 042b 'N3' 0700 'DOM\ann' 34ddc90ba7ffb071634b466e4d8ecefc8e57189f71f0576ac2bb6e173cf15e3f
  a312 0410 324946d0b68097f769d88cb8c99a58ff
COMPLETE = a11b 3019 a003 0a0100 a312 0410 c8cdb644425291178894df95ebfdd786
";

const TO_NTLM: &str = r"
handle DOM ann pw
flags USE_SESSION_KEY
kdc-url tcp://kdc
client kerberos
initialize -> asks Tcp 'tcp://kdc' 'KA' 'DOM\ann'
resume 'KB' 11*32 -> ContinueNeeded THREE-OFFER
initialize PICK -> ContinueNeeded CLIENT-BEGINNING
state NTLM, MIC needed
questions 0
initialize a10f 300d a10b 0609 2a864882f712010202 -> refuses InvalidToken Disabled
initialize CHALLENGE -> ContinueNeeded SIGNED
initialize COMPLETE -> Ok
names -> gives 'DOM\ann'

known DOM\ann pw
server ntlm ntlm
accept THREE-OFFER -> ContinueNeeded PICK
accept CLIENT-BEGINNING -> ContinueNeeded CHALLENGE
accept SIGNED -> Ok COMPLETE
names -> gives 'DOM\ann'

# The same server with a Kerberos that may not be used.
known DOM\ann pw
server kerberos+ticket ntlm
accept THREE-OFFER -> ContinueNeeded PICK
accept CLIENT-BEGINNING -> ContinueNeeded CHALLENGE
accept SIGNED -> Ok COMPLETE
";

#[test]
fn to_ntlm(rt: HostRuntime) {
    run_plain(&rt, NTLM_TOKENS, TO_NTLM);
}
