//! What plain Kerberos refuses, and in which order: replies of a KDC, names, the messages of a
//! peer, and calls out of sequence.

use crate::tests::mech::kerberos::TOKENS;
use crate::tests::mech::script::run_kerberos;

const REPLIES: &str = r"
# The codes, a code too few and too many, and all that is no reply, at each question; after all refusals the right one still goes on.
kdc EXAMPLE.COM tcp://kdc
handle - ann@example.com pw
flags USE_SESSION_KEY
make kerberos
initialize -> asks Tcp 'tcp://kdc' KA
resume 'KE' 01 -> refuses TimeSkew Kdc
resume 'KE' 02 -> refuses NoAuthenticatingAuthority Kdc
resume 'KE' 03 -> refuses CertificateUnknown Kdc
resume 'KE' 04 -> refuses UnknownCredentials Kdc
resume 'KE' 05 -> refuses LogonDenied Kdc
resume 'KE' 00 -> refuses InvalidToken TokenForm
resume 'KE' 06 -> refuses InvalidToken TokenForm
resume 'KE' -> refuses InvalidToken TokenForm
resume 'KE' 01 01 -> refuses InvalidToken TokenForm
resume -> refuses InvalidToken TokenForm
resume 'K' -> refuses InvalidToken TokenForm
resume 'KB' 78*31 -> refuses InvalidToken TokenForm
resume 'KS' 78*33 -> refuses InvalidToken TokenForm
resume 'K5' 78*31 -> refuses InvalidToken TokenForm
fail -> refuses NoAuthenticatingAuthority Kdc
state 1 left, waits
resume KS -> refuses InvalidToken TokenForm
resume KB -> ContinueNeeded 'K1'
initialize K2 -> asks Tcp 'tcp://kdc' KT
resume 'KE' 01 -> refuses TimeSkew Kdc
resume 'KE' 02 -> refuses NoAuthenticatingAuthority Kdc
resume 'KE' 03 -> refuses CertificateUnknown Kdc
resume 'KE' 04 -> refuses UnknownCredentials Kdc
resume 'KE' 05 -> refuses LogonDenied Kdc
resume 'KE' 00 -> refuses InvalidToken TokenForm
resume 'KE' 06 -> refuses InvalidToken TokenForm
resume 'KE' -> refuses InvalidToken TokenForm
resume 'KE' 01 01 -> refuses InvalidToken TokenForm
resume -> refuses InvalidToken TokenForm
resume 'K' -> refuses InvalidToken TokenForm
resume 'KB' 78*31 -> refuses InvalidToken TokenForm
resume 'KS' 78*33 -> refuses InvalidToken TokenForm
resume 'K5' 78*31 -> refuses InvalidToken TokenForm
fail -> refuses NoAuthenticatingAuthority Kdc
state 0 left, waits
resume KB -> refuses InvalidToken TokenForm
resume KS -> ContinueNeeded K3

# The same where no session key is asked for.
kdc EXAMPLE.COM tcp://kdc
handle - ann@example.com pw
make kerberos
initialize -> asks Tcp 'tcp://kdc' KA
resume 'KE' 01 -> refuses TimeSkew Kdc
resume 'KE' 02 -> refuses NoAuthenticatingAuthority Kdc
resume 'KE' 03 -> refuses CertificateUnknown Kdc
resume 'KE' 04 -> refuses UnknownCredentials Kdc
resume 'KE' 05 -> refuses LogonDenied Kdc
resume 'KE' 00 -> refuses InvalidToken TokenForm
resume 'KE' 06 -> refuses InvalidToken TokenForm
resume 'KE' -> refuses InvalidToken TokenForm
resume 'KE' 01 01 -> refuses InvalidToken TokenForm
resume -> refuses InvalidToken TokenForm
resume 'K' -> refuses InvalidToken TokenForm
resume 'KB' 78*31 -> refuses InvalidToken TokenForm
resume 'KS' 78*33 -> refuses InvalidToken TokenForm
resume 'K5' 78*31 -> refuses InvalidToken TokenForm
fail -> refuses NoAuthenticatingAuthority Kdc
state 1 left, waits
resume KB -> asks Tcp 'tcp://kdc' KT-ALONE
resume 'KE' 01 -> refuses TimeSkew Kdc
resume 'KE' 02 -> refuses NoAuthenticatingAuthority Kdc
resume 'KE' 03 -> refuses CertificateUnknown Kdc
resume 'KE' 04 -> refuses UnknownCredentials Kdc
resume 'KE' 05 -> refuses LogonDenied Kdc
resume 'KE' 00 -> refuses InvalidToken TokenForm
resume 'KE' 06 -> refuses InvalidToken TokenForm
resume 'KE' -> refuses InvalidToken TokenForm
resume 'KE' 01 01 -> refuses InvalidToken TokenForm
resume -> refuses InvalidToken TokenForm
resume 'K' -> refuses InvalidToken TokenForm
resume 'KB' 78*31 -> refuses InvalidToken TokenForm
resume 'KS' 78*33 -> refuses InvalidToken TokenForm
resume 'K5' 78*31 -> refuses InvalidToken TokenForm
fail -> refuses NoAuthenticatingAuthority Kdc
state 0 left, waits
resume KS-ALONE -> ContinueNeeded K3-ALONE
";

#[test]
fn replies(rt: HostRuntime) {
    run_kerberos(&rt, TOKENS, REPLIES);
}

const NAMES: &str = r"
# No credentials, and names whose realm no KDC serves.
kdc EXAMPLE.COM tcp://kdc
make kerberos
flags USE_SESSION_KEY
initialize -> refuses NoCredentials NoAuthData
flags none
initialize -> refuses NoCredentials NoAuthData
state 2 left

kdc EXAMPLE.COM tcp://kdc
handle - ann@example.org pw
make kerberos
flags USE_SESSION_KEY
initialize -> refuses NoAuthenticatingAuthority Kdc
flags none
initialize -> refuses NoAuthenticatingAuthority Kdc
state 2 left

kdc EXAMPLE.COM tcp://kdc
handle - ann@ pw
make kerberos
flags USE_SESSION_KEY
initialize -> refuses NoAuthenticatingAuthority Kdc
flags none
initialize -> refuses NoAuthenticatingAuthority Kdc
state 2 left

# A mixed name is refused for that, then a name without a KDC, then one that is too long.
kdc EXAMPLE.COM tcp://kdc
handle D@M a*65536 pw
make kerberos
flags USE_SESSION_KEY
initialize -> refuses UnknownCredentials UserName
flags none
initialize -> refuses UnknownCredentials UserName
state 2 left

kdc EXAMPLE.COM tcp://kdc
handle - a*65536 pw
make kerberos
flags USE_SESSION_KEY
initialize -> refuses NoAuthenticatingAuthority Kdc
flags none
initialize -> refuses NoAuthenticatingAuthority Kdc
state 2 left

kdc EXAMPLE.COM tcp://kdc
kdc-url tcp://one
handle - a*65536 pw
make kerberos
flags USE_SESSION_KEY
initialize -> refuses InternalError TooLong
flags none
initialize -> refuses InternalError TooLong
state 2 left

# The longest name that a message carries: both bytes of its length are 255.
kdc-url tcp://one
handle - a*65535 pw
flags USE_SESSION_KEY
make kerberos
initialize -> asks Tcp 'tcp://one' 'KA' 61*65535
resume KB -> ContinueNeeded 'K1'
initialize K2 -> asks Tcp 'tcp://one' KT
resume KS -> ContinueNeeded 'K3' ffff 61*65535 KEY
";

#[test]
fn names(rt: HostRuntime) {
    run_kerberos(&rt, TOKENS, NAMES);
}

const TICKETS: &str = r"
# The form of the server's message is looked at before the credentials.
kdc EXAMPLE.COM tcp://kdc
handle - ann@example.com pw
flags USE_SESSION_KEY
make kerberos
initialize -> asks Tcp 'tcp://kdc' KA
resume KB -> ContinueNeeded 'K1'
handle none
initialize -> refuses InvalidToken TokenForm
initialize 'K1' -> refuses InvalidToken TokenForm
initialize 'K2' 78*31 -> refuses InvalidToken TokenForm
initialize 'K2' 78*33 -> refuses InvalidToken TokenForm
initialize 'K4' 78*32 -> refuses InvalidToken TokenForm
initialize K2 -> refuses NoCredentials NoAuthData
handle D@M ann pw
initialize K2 -> refuses UnknownCredentials UserName
";

#[test]
fn tickets(rt: HostRuntime) {
    run_kerberos(&rt, TOKENS, TICKETS);
}

const PROOFS: &str = r"
# After other proofs the right one is still taken.
kdc EXAMPLE.COM tcp://kdc
handle - ann@example.com pw
flags USE_SESSION_KEY
make kerberos
initialize -> asks Tcp 'tcp://kdc' KA
resume KB -> ContinueNeeded 'K1'
initialize K2 -> asks Tcp 'tcp://kdc' KT
resume KS -> ContinueNeeded K3
handle none
initialize -> refuses InvalidToken TokenForm
initialize 'K4' -> refuses InvalidToken TokenForm
initialize 'K4' 78*31 -> refuses InvalidToken TokenForm
initialize 'K4' 78*33 -> refuses InvalidToken TokenForm
initialize 'K4' 78*32 -> refuses MutualAuthFailed Tag
initialize K4 -> Ok
";

#[test]
fn proofs(rt: HostRuntime) {
    run_kerberos(&rt, TOKENS, PROOFS);
}

const SESSION_KEYS: &str = r"
# A question for the ticket is malformed where there is none, and once it was sent.
make kerberos
accept -> refuses InvalidToken TokenForm
accept 'K' -> refuses InvalidToken TokenForm
accept 'K1.' -> refuses InvalidToken TokenForm
accept 'K2' -> refuses InvalidToken TokenForm
accept 'K3' -> refuses InvalidToken TokenForm
accept 'K3' 01 -> refuses InvalidToken TokenForm
accept 'K3' 0100 'a' 78*31 -> refuses InvalidToken TokenForm
accept 'K3' 0100 'a' 78*33 -> refuses InvalidToken TokenForm
accept 'K3' 0100 ff 78*32 -> refuses InvalidToken Utf
accept 'K3' 0300 'a\@' 78*32 -> refuses UnknownCredentials UserName
accept 'K1' -> refuses InvalidToken TokenForm

make kerberos+ticket
accept 'K1' -> ContinueNeeded K2
accept -> refuses InvalidToken TokenForm
accept 'K' -> refuses InvalidToken TokenForm
accept 'K1.' -> refuses InvalidToken TokenForm
accept 'K2' -> refuses InvalidToken TokenForm
accept 'K3' -> refuses InvalidToken TokenForm
accept 'K3' 01 -> refuses InvalidToken TokenForm
accept 'K3' 0100 'a' 78*31 -> refuses InvalidToken TokenForm
accept 'K3' 0100 'a' 78*33 -> refuses InvalidToken TokenForm
accept 'K3' 0100 ff 78*32 -> refuses InvalidToken Utf
accept 'K3' 0300 'a\@' 78*32 -> refuses UnknownCredentials UserName
accept 'K1' -> refuses InvalidToken TokenForm
";

#[test]
fn session_keys(rt: HostRuntime) {
    run_kerberos(&rt, TOKENS, SESSION_KEYS);
}

const SEQUENCE: &str = r"
# Before the first step.
make kerberos
fail -> refuses OutOfSequence Sequence
resume -> refuses OutOfSequence Sequence
seal -> refuses OutOfSequence Sequence
unseal -> refuses OutOfSequence Sequence
sign -> refuses OutOfSequence Sequence
verify : -> refuses OutOfSequence Sequence
complete -> refuses OutOfSequence Sequence
key -> refuses OutOfSequence Sequence
names -> refuses OutOfSequence Sequence

# While a question waits, with a session key asked for and without one.
kdc EXAMPLE.COM tcp://kdc
handle - ann@example.com pw
flags USE_SESSION_KEY
make kerberos
initialize -> asks Tcp 'tcp://kdc' KA
initialize -> refuses OutOfSequence Sequence
accept -> refuses OutOfSequence Sequence
identify none -> refuses OutOfSequence Sequence
seal -> refuses OutOfSequence Sequence
unseal -> refuses OutOfSequence Sequence
sign -> refuses OutOfSequence Sequence
verify : -> refuses OutOfSequence Sequence
complete -> refuses OutOfSequence Sequence
key -> refuses OutOfSequence Sequence
names -> refuses OutOfSequence Sequence

kdc EXAMPLE.COM tcp://kdc
handle - ann@example.com pw
make kerberos
initialize -> asks Tcp 'tcp://kdc' KA
initialize -> refuses OutOfSequence Sequence
accept -> refuses OutOfSequence Sequence
identify none -> refuses OutOfSequence Sequence
seal -> refuses OutOfSequence Sequence
unseal -> refuses OutOfSequence Sequence
sign -> refuses OutOfSequence Sequence
verify : -> refuses OutOfSequence Sequence
complete -> refuses OutOfSequence Sequence
key -> refuses OutOfSequence Sequence
names -> refuses OutOfSequence Sequence

# A client that waits for a ticket, and a server that sent one.
kdc EXAMPLE.COM tcp://kdc
handle - ann@example.com pw
flags USE_SESSION_KEY
make kerberos
initialize -> asks Tcp 'tcp://kdc' KA
resume KB -> ContinueNeeded 'K1'
accept -> refuses OutOfSequence Sequence
identify none -> refuses OutOfSequence Sequence
fail -> refuses OutOfSequence Sequence

make kerberos+ticket
accept 'K1' -> ContinueNeeded K2
initialize -> refuses OutOfSequence Sequence
identify none -> refuses OutOfSequence Sequence
seal -> refuses OutOfSequence Sequence
unseal -> refuses OutOfSequence Sequence
sign -> refuses OutOfSequence Sequence
verify : -> refuses OutOfSequence Sequence
complete -> refuses OutOfSequence Sequence
key -> refuses OutOfSequence Sequence
names -> refuses OutOfSequence Sequence

# At the end of a client, and of a server.
kdc EXAMPLE.COM tcp://kdc
handle - ann@example.com pw
flags USE_SESSION_KEY
make kerberos
initialize -> asks Tcp 'tcp://kdc' KA
resume KB -> ContinueNeeded 'K1'
initialize K2 -> asks Tcp 'tcp://kdc' KT
resume KS -> ContinueNeeded K3
accept -> refuses OutOfSequence Sequence
identify none -> refuses OutOfSequence Sequence
fail -> refuses OutOfSequence Sequence
initialize K4 -> Ok
initialize -> refuses OutOfSequence Sequence

make kerberos+ticket
accept K3 -> Ok K4
initialize -> refuses OutOfSequence Sequence
fail -> refuses OutOfSequence Sequence
accept K3 -> refuses OutOfSequence Sequence
identify none -> refuses NoCredentials NoCandidate
";

#[test]
fn sequence(rt: HostRuntime) {
    run_kerberos(&rt, TOKENS, SEQUENCE);
}
