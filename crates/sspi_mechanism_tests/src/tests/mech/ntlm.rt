//! Plain NTLM: `DOM\ann` with the password `pw`, and a challenge of zeros. The hashes were computed
//! separately.

use crate::tests::mech::script::run_ntlm;

const TOKENS: &str = r"
CHALLENGE = 'N2' 00*8
AUTHENTICATE = 'N3' 0700 'DOM\ann' 34ddc90ba7ffb071634b466e4d8ecefc8e57189f71f0576ac2bb6e173cf15e3f
KEY = a30f440ea5d4fad9989e2e7dab3de7e0cf9ed7c3e4506b346e382439f6b556a8
CLIENT-FIRST = 8f128727c5ca77b794ea7bf7cbabf27a 'first'
CLIENT-SECOND = 185755b072fc61c021bc110a8c28b5b2 'second'
CLIENT-THIRD = 3b987a99022816efd9eb1f51e903d01b 'third'
CLIENT-TEXT = f38b328539acd46051260d222c412211 'text'
CLIENT-FIRST-MIC = 6ccaf63cab0d79b827c47697ef4e8aa5
CLIENT-SECOND-MIC = 6ecebe5b919063da7ad3c5590cd22c58
SERVER-FIRST = a93609c0177d6d7441245c249fbd2009 'first'
SERVER-SECOND = 7900c543553c0e46d5dbcbcef6b520a6 'second'
SERVER-FIRST-MIC = 5028c234759fe08693484982f3f012d8
SERVER-SECOND-MIC = 51a8f34114fd20de977393e4c2ee58f2
";

const MESSAGES: &str = r"
# What one end sends is what the other takes here.
handle DOM ann pw
make ntlm
initialize 'anything' -> ContinueNeeded 'N1'
initialize CHALLENGE -> Ok AUTHENTICATE
names -> gives 'DOM\ann'
key -> gives KEY
complete -> Ok

# The first identity whose password fits is taken, whatever its name; and a server may be told again.
make ntlm
accept 'N1' -> ContinueNeeded CHALLENGE
accept AUTHENTICATE -> CompleteNeeded
identify DOM\ann other; x pw -> takes
names -> gives 'DOM\ann'
key -> gives KEY
complete -> Ok
identify DOM\ann other; x pw -> takes
names -> gives 'DOM\ann'
key -> gives KEY
complete -> Ok
";

#[test]
fn messages(rt: HostRuntime) {
    run_ntlm(&rt, TOKENS, MESSAGES);
}

const QUERIES: &str = r"
make ntlm
package NTLM 2888
sizes 2010 16 0 16
state 0 left
handle DOM ann pw
acquire outbound DOM\ann pw -> gives-handle
acquire inbound none -> gives-none
";

#[test]
fn queries(rt: HostRuntime) {
    run_ntlm(&rt, TOKENS, QUERIES);
}

/// Each message has the next number in its own sequence: blobs or MICs, made or taken. What was
/// taken is not taken again.
const CLIENT_SEALS: &str = r"
handle DOM ann pw
make ntlm
initialize -> ContinueNeeded 'N1'
initialize CHALLENGE -> Ok AUTHENTICATE
seal 'first' -> gives CLIENT-FIRST
sign 'first' -> gives CLIENT-FIRST-MIC
seal 'second' -> gives CLIENT-SECOND
sign 'second' -> gives CLIENT-SECOND-MIC
unseal SERVER-FIRST -> gives 'first'
unseal SERVER-FIRST -> refuses MessageAltered Tag
verify SERVER-FIRST-MIC : 'first' -> takes
verify SERVER-FIRST-MIC : 'first' -> refuses MessageAltered Tag
unseal SERVER-SECOND -> gives 'second'
unseal SERVER-SECOND -> refuses MessageAltered Tag
verify SERVER-SECOND-MIC : 'second' -> takes
verify SERVER-SECOND-MIC : 'second' -> refuses MessageAltered Tag

# In turn.
handle DOM ann pw
make ntlm
initialize -> ContinueNeeded 'N1'
initialize CHALLENGE -> Ok AUTHENTICATE
seal 'first' -> gives CLIENT-FIRST
sign 'first' -> gives CLIENT-FIRST-MIC
seal 'second' -> gives CLIENT-SECOND
unseal SERVER-FIRST -> gives 'first'
seal 'third' -> gives CLIENT-THIRD
unseal SERVER-SECOND -> gives 'second'
sign 'second' -> gives CLIENT-SECOND-MIC
verify SERVER-FIRST-MIC : 'first' -> takes

handle DOM ann pw
make ntlm
initialize -> ContinueNeeded 'N1'
initialize CHALLENGE -> Ok AUTHENTICATE
seal 'text' -> gives CLIENT-TEXT
";

#[test]
fn client_seals(rt: HostRuntime) {
    run_ntlm(&rt, TOKENS, CLIENT_SEALS);
}

const SERVER_SEALS: &str = r"
make ntlm
accept 'N1' -> ContinueNeeded CHALLENGE
accept AUTHENTICATE -> CompleteNeeded
identify DOM\ann pw -> takes
unseal CLIENT-FIRST -> gives 'first'
unseal CLIENT-FIRST -> refuses MessageAltered Tag
verify CLIENT-FIRST-MIC : 'first' -> takes
verify CLIENT-FIRST-MIC : 'first' -> refuses MessageAltered Tag
unseal CLIENT-SECOND -> gives 'second'
unseal CLIENT-SECOND -> refuses MessageAltered Tag
verify CLIENT-SECOND-MIC : 'second' -> takes
verify CLIENT-SECOND-MIC : 'second' -> refuses MessageAltered Tag
seal 'first' -> gives SERVER-FIRST
sign 'first' -> gives SERVER-FIRST-MIC
seal 'second' -> gives SERVER-SECOND
sign 'second' -> gives SERVER-SECOND-MIC

# What is no blob, and what is no MIC.
make ntlm
accept 'N1' -> ContinueNeeded CHALLENGE
accept AUTHENTICATE -> CompleteNeeded
identify DOM\ann pw -> takes
unseal 78*15 -> refuses InvalidToken ShortBlob
unseal 78*16 -> refuses MessageAltered Tag
verify : 'text' -> refuses MessageAltered Tag
";

#[test]
fn server_seals(rt: HostRuntime) {
    run_ntlm(&rt, TOKENS, SERVER_SEALS);
}

const CREDENTIALS: &str = r"
make ntlm
acquire outbound none -> refuses NoCredentials NoAuthData
acquire inbound key-table ann -> refuses UnknownCredentials Keytab

# The form of a challenge is looked at before the credentials; and a name that mixes the two forms is refused for that, also where it is
# too long.
make ntlm
initialize -> ContinueNeeded 'N1'
initialize 'N2' -> refuses InvalidToken TokenForm
initialize CHALLENGE -> refuses NoCredentials NoAuthData
handle key-table ann
initialize 'N2' -> refuses InvalidToken TokenForm
initialize CHALLENGE -> refuses UnknownCredentials Keytab
handle - a*65536 pw
initialize 'N2' -> refuses InvalidToken TokenForm
initialize CHALLENGE -> refuses InternalError TooLong
handle D@M a*65536 pw
initialize 'N2' -> refuses InvalidToken TokenForm
initialize CHALLENGE -> refuses UnknownCredentials UserName
handle DOM ann pw
initialize CHALLENGE -> Ok AUTHENTICATE
";

#[test]
fn credentials(rt: HostRuntime) {
    run_ntlm(&rt, TOKENS, CREDENTIALS);
}

const FORMS: &str = r"
# What is no challenge: nothing, one of none, of 7 and of 9 bytes, and another letter.
handle DOM ann pw
make ntlm
initialize -> ContinueNeeded 'N1'
initialize -> refuses InvalidToken TokenForm
initialize 'N2' -> refuses InvalidToken TokenForm
initialize 'N2' 78*7 -> refuses InvalidToken TokenForm
initialize 'N2' 78*9 -> refuses InvalidToken TokenForm
initialize 'N3' 78*8 -> refuses InvalidToken TokenForm

# What is no first message.
make ntlm
accept -> refuses InvalidToken TokenForm
accept 'N' -> refuses InvalidToken TokenForm
accept 'N1.' -> refuses InvalidToken TokenForm
accept 'N2' -> refuses InvalidToken TokenForm

# What is no last message: cut before the length, in it and in the proof, too long, a name that is no UTF-8, and one that mixes the two
# forms.
make ntlm
accept 'N1' -> ContinueNeeded CHALLENGE
accept -> refuses InvalidToken TokenForm
accept 'N3' -> refuses InvalidToken TokenForm
accept 'N3' 01 -> refuses InvalidToken TokenForm
accept 'N3' 0100 'a' 78*31 -> refuses InvalidToken TokenForm
accept 'N3' 0100 'a' 78*33 -> refuses InvalidToken TokenForm
accept 'N3' 0100 ff 78*32 -> refuses InvalidToken Utf
accept 'N3' 0300 'a\@' 78*32 -> refuses UnknownCredentials UserName
accept AUTHENTICATE -> CompleteNeeded

# Lists without an identity, without a password and without the right one.
make ntlm
accept 'N1' -> ContinueNeeded CHALLENGE
accept AUTHENTICATE -> CompleteNeeded
identify none -> refuses NoCredentials NoCandidate
identify key-table ann -> refuses NoCredentials NotPassword
identify DOM\ann other -> refuses LogonDenied Proof
";

#[test]
fn forms(rt: HostRuntime) {
    run_ntlm(&rt, TOKENS, FORMS);
}

const SEQUENCE: &str = r"
# Before the first step: neither key nor name.
make ntlm
seal -> refuses OutOfSequence Sequence
unseal -> refuses OutOfSequence Sequence
sign -> refuses OutOfSequence Sequence
verify : -> refuses OutOfSequence Sequence
complete -> refuses OutOfSequence Sequence
key -> refuses OutOfSequence Sequence
names -> refuses OutOfSequence Sequence
identify none -> refuses OutOfSequence Sequence
fail -> refuses OutOfSequence Sequence
resume -> refuses OutOfSequence Sequence

# After the first step of a client.
make ntlm
initialize -> ContinueNeeded 'N1'
seal -> refuses OutOfSequence Sequence
unseal -> refuses OutOfSequence Sequence
sign -> refuses OutOfSequence Sequence
verify : -> refuses OutOfSequence Sequence
complete -> refuses OutOfSequence Sequence
key -> refuses OutOfSequence Sequence
names -> refuses OutOfSequence Sequence
identify none -> refuses OutOfSequence Sequence
accept 'N1' -> refuses OutOfSequence Sequence

# After the first step of a server.
make ntlm
accept 'N1' -> ContinueNeeded CHALLENGE
seal -> refuses OutOfSequence Sequence
unseal -> refuses OutOfSequence Sequence
sign -> refuses OutOfSequence Sequence
verify : -> refuses OutOfSequence Sequence
complete -> refuses OutOfSequence Sequence
key -> refuses OutOfSequence Sequence
names -> refuses OutOfSequence Sequence
identify none -> refuses OutOfSequence Sequence
initialize -> refuses OutOfSequence Sequence

# After the last step of a client, which has its key.
handle DOM ann pw
make ntlm
initialize -> ContinueNeeded 'N1'
initialize CHALLENGE -> Ok AUTHENTICATE
initialize CHALLENGE -> refuses OutOfSequence Sequence
accept 'N1' -> refuses OutOfSequence Sequence
identify none -> refuses OutOfSequence Sequence

# After the last step of a server, which has none before it is told who its peer is.
make ntlm
accept 'N1' -> ContinueNeeded CHALLENGE
accept AUTHENTICATE -> CompleteNeeded
seal -> refuses OutOfSequence Sequence
unseal -> refuses OutOfSequence Sequence
sign -> refuses OutOfSequence Sequence
verify : -> refuses OutOfSequence Sequence
complete -> refuses OutOfSequence Sequence
key -> refuses OutOfSequence Sequence
accept AUTHENTICATE -> refuses OutOfSequence Sequence
initialize -> refuses OutOfSequence Sequence
";

#[test]
fn sequence(rt: HostRuntime) {
    run_ntlm(&rt, TOKENS, SEQUENCE);
}
