//! Plain Kerberos: `ann@example.com`, a KDC for the realm EXAMPLE.COM, and a server whose ticket is
//! the bytes `40` to `5f`. What the KDC and the ends send was computed separately, with another
//! SHA-256; docs/WIRE.md derives it.

use crate::tests::mech::script::run_kerberos;

/// The messages of an exchange with the server's ticket and of one without, named by the letters
/// that they begin with.
pub const TOKENS: &str = r"
KA = 'KAann@example.com'
KB = 'KB' d4260e4d04178ee096ed5e5e0046a4dd7c4f3947f0ea99e78ebd779f56c51124
K2 = 'K2' 404142434445464748494a4b4c4d4e4f505152535455565758595a5b5c5d5e5f
KT = 'KT' d4260e4d04178ee096ed5e5e0046a4dd7c4f3947f0ea99e78ebd779f56c51124
  404142434445464748494a4b4c4d4e4f505152535455565758595a5b5c5d5e5f
KEY = 39c283f8d904c44a2e4c2591cf7953ce8fd02b7d07437d4d2c317189cdba63a5
KS = 'KS' 39c283f8d904c44a2e4c2591cf7953ce8fd02b7d07437d4d2c317189cdba63a5
K3 = 'K3' 0f00 'ann@example.com' 39c283f8d904c44a2e4c2591cf7953ce8fd02b7d07437d4d2c317189cdba63a5
K4 = 'K4' df61e9d0355bfa4a5e48a7338b87bb334c148c5dd2168dd315161ef1ba774c1d
KT-ALONE = 'KT' d4260e4d04178ee096ed5e5e0046a4dd7c4f3947f0ea99e78ebd779f56c51124 00*32
KS-ALONE = 'KS' d6f008d75bfabadf4e205537f79fd6ae4ef0d72d99f7ec659d2e403e24d96456
K3-ALONE = 'K3' 0f00 'ann@example.com' d6f008d75bfabadf4e205537f79fd6ae4ef0d72d99f7ec659d2e403e24d96456
K4-ALONE = 'K4' be1db4cc4dbdfb35468e797f5bd2e93ef6855dbe3ff136d0346bdcb1eed7e421
CLIENT-BLOB = 45c82b1227b6d187f0d8fe830cb65552 'text'
SERVER-BLOB = e7cb1cb05006639b8b18388d8f896207 'text'
CLIENT-MIC = 20902e9654af4613b599e9b4d5cc4f21
SERVER-MIC = a29e6c704a7ce59c41aa2b9c5b31bc36
";

const USER_TO_USER: &str = r"
# Two suspensions and four messages: what one end sends is what the other takes here.
kdc EXAMPLE.COM tcp://kdc
handle - ann@example.com pw
flags USE_SESSION_KEY
make kerberos
state 2 left
initialize 'anything' -> asks Tcp 'tcp://kdc' KA
state 1 left, waits
resume KB -> ContinueNeeded 'K1'
state 1 left
flags none
initialize K2 -> asks Tcp 'tcp://kdc' KT
state 0 left, waits
resume KS -> ContinueNeeded K3
state 0 left
initialize K4 -> Ok

make kerberos+ticket
state 2 left
accept 'K1' -> ContinueNeeded K2
state 0 left, user to user
accept K3 -> Ok K4
state 0 left, user to user
";

#[test]
fn user_to_user(rt: HostRuntime) {
    run_kerberos(&rt, TOKENS, USER_TO_USER);
}

const WITHOUT_A_TICKET: &str = r"
kdc EXAMPLE.COM tcp://kdc
handle - ann@example.com pw
make kerberos
initialize -> asks Tcp 'tcp://kdc' KA
resume KB -> asks Tcp 'tcp://kdc' KT-ALONE
state 0 left, waits
resume KS-ALONE -> ContinueNeeded K3-ALONE
handle none
initialize K4-ALONE -> Ok

# A server without a ticket, one with a ticket, and one of a configuration of NTLM take a session key without being asked for a ticket.
make kerberos
accept K3-ALONE -> Ok K4-ALONE
state 0 left

make kerberos+ticket
accept K3-ALONE -> Ok K4-ALONE
state 0 left

make ntlm
accept K3-ALONE -> Ok K4-ALONE
state 0 left
";

#[test]
fn without_a_ticket(rt: HostRuntime) {
    run_kerberos(&rt, TOKENS, WITHOUT_A_TICKET);
}

const KEYED: &str = r"
kdc EXAMPLE.COM tcp://kdc
handle - ann@example.com pw
flags USE_SESSION_KEY
make kerberos
initialize -> asks Tcp 'tcp://kdc' KA
resume KB -> ContinueNeeded 'K1'
initialize K2 -> asks Tcp 'tcp://kdc' KT
resume KS -> ContinueNeeded K3
names -> gives 'ann@example.com'
key -> gives KEY
complete -> Ok
seal 'text' -> gives CLIENT-BLOB
sign 'text' -> gives CLIENT-MIC
unseal SERVER-BLOB -> gives 'text'
verify SERVER-MIC : 'text' -> takes

# A server that is told who its peer may be is as it was.
make kerberos+ticket
accept K3 -> Ok K4
identify key-table ann -> takes
names -> gives 'ann@example.com'
key -> gives KEY
complete -> Ok
unseal CLIENT-BLOB -> gives 'text'
verify CLIENT-MIC : 'text' -> takes
seal 'text' -> gives SERVER-BLOB
sign 'text' -> gives SERVER-MIC
";

#[test]
fn keyed(rt: HostRuntime) {
    run_kerberos(&rt, TOKENS, KEYED);
}

/// The URL gives the transport, TCP if it names none. The URL of the configuration goes before that
/// of the table.
const URLS: &str = r"
kdc EXAMPLE.COM udp://k
handle - ann@example.com pw
flags USE_SESSION_KEY
make kerberos
initialize -> asks Udp 'udp://k' KA

kdc EXAMPLE.COM http://k
handle - ann@example.com pw
flags USE_SESSION_KEY
make kerberos
initialize -> asks Http 'http://k' KA

kdc EXAMPLE.COM https://k
handle - ann@example.com pw
flags USE_SESSION_KEY
make kerberos
initialize -> asks Https 'https://k' KA

kdc EXAMPLE.COM tcp://k
handle - ann@example.com pw
flags USE_SESSION_KEY
make kerberos
initialize -> asks Tcp 'tcp://k' KA

kdc EXAMPLE.COM udp:/k
handle - ann@example.com pw
flags USE_SESSION_KEY
make kerberos
initialize -> asks Tcp 'udp:/k' KA

kdc EXAMPLE.COM
handle - ann@example.com pw
flags USE_SESSION_KEY
make kerberos
initialize -> asks Tcp '' KA

kdc EXAMPLE.COM udp://k
kdc-url tcp://one
handle - ann@example.com pw
flags USE_SESSION_KEY
make kerberos
initialize -> asks Tcp 'tcp://one' KA

kdc EXAMPLE.COM udp://k
kdc-url
handle - ann@example.com pw
flags USE_SESSION_KEY
make kerberos
initialize -> asks Tcp '' KA

# The name of a keytab is asked for as that of a password is.
kdc-url http://k
handle key-table ann
flags USE_SESSION_KEY
make kerberos
initialize -> asks Http 'http://k' 'KAann'
";

#[test]
fn urls(rt: HostRuntime) {
    run_kerberos(&rt, TOKENS, URLS);
}

const QUERIES: &str = r"
make kerberos
package Kerberos 48000
sizes 48000 16 0 16
acquire inbound none -> gives-none
acquire outbound none -> refuses NoCredentials NoAuthData
handle DOM ann pw
acquire outbound DOM\ann pw -> gives-handle

# Of a configuration of NTLM it knows no KDC and has no ticket.
handle - ann@example.com pw
flags USE_SESSION_KEY
make ntlm
acquire outbound none -> refuses NoCredentials NoAuthData
initialize -> refuses NoAuthenticatingAuthority Kdc
accept 'K1' -> refuses InvalidToken TokenForm
";

#[test]
fn queries(rt: HostRuntime) {
    run_kerberos(&rt, TOKENS, QUERIES);
}
