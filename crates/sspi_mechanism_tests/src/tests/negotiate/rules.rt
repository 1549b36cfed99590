//! When a client selects another mechanism before a step: if a KDC serves the user's domain, and if
//! the target is an address.

use crate::tests::negotiate::script::run_beside_told;

const TOKENS: &str = r"
THREE-OFFER = 6038 0606 2b0601050502 a02e 302c
  a024 3022 0609 2a864882f712010202 0609 2a864886f712010202 060a 2b06010401823702020a
  a204 0402 'ab'
BOTH-OFFER = 602c 0606 2b0601050502 a022 3020 a018 3016 0609 2a864882f712010202 0609 2a864886f712010202 a204 0402 'ab'
OFFER = 6022 0606 2b0601050502 a018 3016 a00e 300c 060a 2b06010401823702020a a204 0402 4e31
CHOICE = a11b 3019 a003 0a0101 a10b 0609 2a864882f712010202 a205 0403 '1ab'
OTHER-CHOICE = a11b 3019 a003 0a0101 a10b 0609 2a864886f712010202 a205 0403 '1ab'
GOING = a10d 300b a003 0a0101 a204 0402 'ab'
";

const DOMAINS: &str = r"
# A client takes Kerberos for a user whose domain a KDC serves, by either form of a name, without the case of its letters.
kdc EXAMPLE.COM tcp://kdc
client ntlm
state NTLM, MIC needed
acquire outbound ann@example.com pw -> gives-others
state Kerberos, MIC needed

kdc EXAMPLE.COM tcp://kdc
client ntlm
acquire outbound Example.COM\ann pw -> gives-others
state Kerberos, MIC needed

# Not for a user of another domain or of none, and not where Kerberos may not be used.
kdc EXAMPLE.COM tcp://kdc
client ntlm
acquire outbound ann@example.org pw -> gives-others
state NTLM, MIC needed

kdc EXAMPLE.COM tcp://kdc
client ntlm
acquire outbound ann pw -> gives-others
state NTLM, MIC needed

kdc EXAMPLE.COM tcp://kdc
client ntlm ntlm
acquire outbound ann@example.com pw -> gives-others
state NTLM, MIC needed

# A key table is for Kerberos, but does not bring it.
kdc EXAMPLE.COM tcp://kdc
client ntlm
acquire outbound key-table ann@example.com -> refuses NoCredentials NoAuthData
state NTLM, MIC needed

# A server has no use for the rule.
kdc EXAMPLE.COM tcp://kdc
server ntlm
acquire inbound ann@example.com pw -> gives-others
state NTLM, MIC needed
";

#[test]
fn domains(rt: HostRuntime) {
    run_beside_told(&rt, TOKENS, DOMAINS);
}

const HANDLES: &str = r"
# The rule holds for the handle of the first step.
kdc EXAMPLE.COM tcp://kdc
handle - ann@example.com pw
client ntlm
initialize '1ab' -> ContinueNeeded THREE-OFFER
state Kerberos, no MIC

kdc EXAMPLE.COM tcp://kdc
handle - ann@example.org pw
client ntlm
initialize '1ab' -> ContinueNeeded OFFER
state NTLM, no MIC

# It holds before each step, also where NTLM is already under way.
kdc EXAMPLE.COM tcp://kdc
handle - ann@example.org pw
client ntlm
initialize '1ab' -> ContinueNeeded OFFER
handle EXAMPLE.COM ann pw
initialize a10e 300c a003 0a0101 a205 0403 '1ab' -> ContinueNeeded GOING
state Kerberos, no MIC

# A key table brings no Kerberos here either.
kdc EXAMPLE.COM tcp://kdc
handle key-table ann@example.com
client ntlm
initialize '1ab' -> ContinueNeeded OFFER
state NTLM, no MIC
";

#[test]
fn handles(rt: HostRuntime) {
    run_beside_told(&rt, TOKENS, HANDLES);
}

const TARGETS: &str = r"
# What stands behind the last slash is an address: it is for NTLM alone, and Kerberos may not be chosen any more.
handle DOM ann pw
target TERMSRV/10.0.0.1
client kerberos
initialize '1ab' -> ContinueNeeded OFFER
initialize CHOICE -> refuses InvalidToken Disabled
initialize OTHER-CHOICE -> refuses InvalidToken Disabled
state NTLM, no MIC
target TERMSRV/::1
client kerberos
initialize '1ab' -> ContinueNeeded OFFER
initialize CHOICE -> refuses InvalidToken Disabled
initialize OTHER-CHOICE -> refuses InvalidToken Disabled
state NTLM, no MIC
target 192.0.2.16
client kerberos
initialize '1ab' -> ContinueNeeded OFFER
initialize CHOICE -> refuses InvalidToken Disabled
initialize OTHER-CHOICE -> refuses InvalidToken Disabled
state NTLM, no MIC
target a/b/::
client kerberos
initialize '1ab' -> ContinueNeeded OFFER
initialize CHOICE -> refuses InvalidToken Disabled
initialize OTHER-CHOICE -> refuses InvalidToken Disabled
state NTLM, no MIC

# No addresses.
target TERMSRV/host.example.com
client kerberos
initialize '1ab' -> ContinueNeeded THREE-OFFER
state Kerberos, no MIC
target TERMSRV/1.2.3
client kerberos
initialize '1ab' -> ContinueNeeded THREE-OFFER
state Kerberos, no MIC
target TERMSRV/01.2.3.4
client kerberos
initialize '1ab' -> ContinueNeeded THREE-OFFER
state Kerberos, no MIC
target 1::2::3
client kerberos
initialize '1ab' -> ContinueNeeded THREE-OFFER
state Kerberos, no MIC
target 10.0.0.1/host
client kerberos
initialize '1ab' -> ContinueNeeded THREE-OFFER
state Kerberos, no MIC
target
client kerberos
initialize '1ab' -> ContinueNeeded THREE-OFFER
state Kerberos, no MIC

# Where NTLM may not be used an address changes nothing.
target TERMSRV/10.0.0.1
client kerberos kerberos
initialize '1ab' -> ContinueNeeded BOTH-OFFER
state Kerberos, no MIC

# An address goes before the KDC of the user's domain.
kdc EXAMPLE.COM tcp://kdc
target TERMSRV/10.0.0.1
client ntlm
acquire outbound ann@example.com pw -> gives-others
state Kerberos, MIC needed
initialize '1ab' -> ContinueNeeded OFFER
handle - ann@example.com pw
initialize CHOICE -> refuses InvalidToken Disabled
initialize OTHER-CHOICE -> refuses InvalidToken Disabled
state NTLM, no MIC

# It comes before each step, also where Kerberos is already under way: NTLM then begins anew.
handle DOM ann pw
client kerberos
initialize '1ab' -> ContinueNeeded THREE-OFFER
target TERMSRV/10.0.0.1
initialize a10e 300c a003 0a0101 a205 0403 '1ab' -> ContinueNeeded a10d 300b a003 0a0101 a204 0402 4e31
state NTLM, no MIC
";

#[test]
fn targets(rt: HostRuntime) {
    run_beside_told(&rt, TOKENS, TARGETS);
}
