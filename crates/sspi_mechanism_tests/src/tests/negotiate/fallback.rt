//! What follows the refusal of Kerberos. A mechanism of `told.rt` is in its place, next to plain
//! NTLM, whose first step takes any token. It refuses by `T`, `A`, `C` and `U` with the four kinds
//! that mean that Kerberos is unavailable, and by `x` with another.

use crate::tests::negotiate::script::{run_beside_told, run_told};

const TOKENS: &str = r"
THREE-OFFER = 6038 0606 2b0601050502 a02e 302c
  a024 3022 0609 2a864882f712010202 0609 2a864886f712010202 060a 2b06010401823702020a
  a204 0402 'ab'
BOTH-OFFER = 602c 0606 2b0601050502 a022 3020 a018 3016 0609 2a864882f712010202 0609 2a864886f712010202 a204 0402 'ab'
OFFER = 6022 0606 2b0601050502 a018 3016 a00e 300c 060a 2b06010401823702020a a204 0402 4e31
TOLD-OFFER = 6022 0606 2b0601050502 a018 3016 a00e 300c 060a 2b06010401823702020a a204 0402 'ab'
CHOICE = a11b 3019 a003 0a0101 a10b 0609 2a864882f712010202 a205 0403 '1ab'
OTHER-CHOICE = a11b 3019 a003 0a0101 a10b 0609 2a864886f712010202 a205 0403 '1ab'
CHOICE-ASKED = a119 3017 a003 0a0101 a10b 0609 2a864882f712010202 a203 0401 '?'
GOING = a10d 300b a003 0a0101 a204 0402 'ab'
";

/// NTLM takes the place of Kerberos, which may no longer be used, and no question is left.
const FIRST_STEP: &str = r"
handle DOM ann pw
client kerberos
state Kerberos, MIC needed
initialize 'T' -> ContinueNeeded OFFER
state NTLM, no MIC
questions 0
initialize CHOICE -> refuses InvalidToken Disabled
initialize OTHER-CHOICE -> refuses InvalidToken Disabled
state NTLM, no MIC

handle DOM ann pw
client kerberos
state Kerberos, MIC needed
initialize 'A' -> ContinueNeeded OFFER
state NTLM, no MIC
questions 0
initialize CHOICE -> refuses InvalidToken Disabled
initialize OTHER-CHOICE -> refuses InvalidToken Disabled
state NTLM, no MIC

handle DOM ann pw
client kerberos
state Kerberos, MIC needed
initialize 'C' -> ContinueNeeded OFFER
state NTLM, no MIC
questions 0
initialize CHOICE -> refuses InvalidToken Disabled
initialize OTHER-CHOICE -> refuses InvalidToken Disabled
state NTLM, no MIC

handle DOM ann pw
client kerberos
state Kerberos, MIC needed
initialize 'U' -> ContinueNeeded OFFER
state NTLM, no MIC
questions 0
initialize CHOICE -> refuses InvalidToken Disabled
initialize OTHER-CHOICE -> refuses InvalidToken Disabled
state NTLM, no MIC

# Another kind leaves all as it was.
client kerberos
initialize 'x' -> refuses LogonDenied Mechanism
state Kerberos, no MIC
questions 3
initialize '1ab' -> ContinueNeeded THREE-OFFER
";

#[test]
fn first_step(rt: HostRuntime) {
    run_beside_told(&rt, TOKENS, FIRST_STEP);
}

/// The same once a KDC has replied, to the first question or a later one, or has failed to reply.
const RESUMED: &str = r"
handle DOM ann pw
client kerberos
initialize '?' -> asks Tcp 'tcp://kdc'
questions 2, one waits
resume 'T' -> ContinueNeeded OFFER
state NTLM, no MIC
questions 0
initialize CHOICE -> refuses InvalidToken Disabled
initialize OTHER-CHOICE -> refuses InvalidToken Disabled
state NTLM, no MIC

handle DOM ann pw
client kerberos
initialize '?' -> asks Tcp 'tcp://kdc'
questions 2, one waits
resume 'A' -> ContinueNeeded OFFER
state NTLM, no MIC
questions 0
initialize CHOICE -> refuses InvalidToken Disabled
initialize OTHER-CHOICE -> refuses InvalidToken Disabled
state NTLM, no MIC

handle DOM ann pw
client kerberos
initialize '?' -> asks Tcp 'tcp://kdc'
questions 2, one waits
resume 'C' -> ContinueNeeded OFFER
state NTLM, no MIC
questions 0
initialize CHOICE -> refuses InvalidToken Disabled
initialize OTHER-CHOICE -> refuses InvalidToken Disabled
state NTLM, no MIC

handle DOM ann pw
client kerberos
initialize '?' -> asks Tcp 'tcp://kdc'
questions 2, one waits
resume 'U' -> ContinueNeeded OFFER
state NTLM, no MIC
questions 0
initialize CHOICE -> refuses InvalidToken Disabled
initialize OTHER-CHOICE -> refuses InvalidToken Disabled
state NTLM, no MIC

handle DOM ann pw
client kerberos
initialize '?' -> asks Tcp 'tcp://kdc'
resume '?' -> asks Tcp 'tcp://kdc'
questions 1, one waits
resume 'T' -> ContinueNeeded OFFER
state NTLM, no MIC
questions 0
initialize CHOICE -> refuses InvalidToken Disabled
initialize OTHER-CHOICE -> refuses InvalidToken Disabled
state NTLM, no MIC

handle DOM ann pw
client kerberos
initialize '?' -> asks Tcp 'tcp://kdc'
resume '?' -> asks Tcp 'tcp://kdc'
questions 1, one waits
resume 'A' -> ContinueNeeded OFFER
state NTLM, no MIC
questions 0
initialize CHOICE -> refuses InvalidToken Disabled
initialize OTHER-CHOICE -> refuses InvalidToken Disabled
state NTLM, no MIC

handle DOM ann pw
client kerberos
initialize '?' -> asks Tcp 'tcp://kdc'
resume '?' -> asks Tcp 'tcp://kdc'
questions 1, one waits
resume 'C' -> ContinueNeeded OFFER
state NTLM, no MIC
questions 0
initialize CHOICE -> refuses InvalidToken Disabled
initialize OTHER-CHOICE -> refuses InvalidToken Disabled
state NTLM, no MIC

handle DOM ann pw
client kerberos
initialize '?' -> asks Tcp 'tcp://kdc'
resume '?' -> asks Tcp 'tcp://kdc'
questions 1, one waits
resume 'U' -> ContinueNeeded OFFER
state NTLM, no MIC
questions 0
initialize CHOICE -> refuses InvalidToken Disabled
initialize OTHER-CHOICE -> refuses InvalidToken Disabled
state NTLM, no MIC

handle DOM ann pw
client kerberos
initialize '?' -> asks Tcp 'tcp://kdc'
fail -> ContinueNeeded OFFER
state NTLM, no MIC
questions 0
initialize CHOICE -> refuses InvalidToken Disabled
initialize OTHER-CHOICE -> refuses InvalidToken Disabled
state NTLM, no MIC

# Another kind leaves the question waiting.
client kerberos
initialize '?' -> asks Tcp 'tcp://kdc'
resume 'x' -> refuses LogonDenied Mechanism
questions 2, one waits
resume '?' -> asks Tcp 'tcp://kdc'
resume 'x' -> refuses LogonDenied Mechanism
questions 1, one waits
resume '1ab' -> ContinueNeeded THREE-OFFER
state Kerberos, no MIC
questions 1
";

#[test]
fn resumed(rt: HostRuntime) {
    run_beside_told(&rt, TOKENS, RESUMED);
}

const NO_FALLBACK: &str = r"
# Where NTLM may not be used there is nothing to fall back to.
client kerberos kerberos
initialize 'T' -> refuses TimeSkew Mechanism
initialize '?' -> asks Tcp 'tcp://kdc'
resume 'U' -> refuses UnknownCredentials Mechanism
questions 2, one waits
fail -> refuses NoAuthenticatingAuthority Kdc
questions 2, one waits
resume '1ab' -> ContinueNeeded BOTH-OFFER
state Kerberos, no MIC

# A later step has no fallback, not even once a KDC has replied.
handle DOM ann pw
client kerberos
initialize '1ab' -> ContinueNeeded THREE-OFFER
initialize a119 3017 a003 0a0101 a10b 0609 2a864882f712010202 a203 0401 'T' -> refuses TimeSkew Mechanism
state Kerberos, no MIC
initialize CHOICE-ASKED -> asks Tcp 'tcp://kdc'
resume 'T' -> refuses TimeSkew Mechanism
state Kerberos, no MIC
questions 2, one waits
resume '1ab' -> ContinueNeeded GOING
resume '1ab' -> refuses OutOfSequence Sequence
";

#[test]
fn no_fallback(rt: HostRuntime) {
    run_beside_told(&rt, TOKENS, NO_FALLBACK);
}

const ASKING: &str = r"
# An NTLM that asks too: what it may ask counts from the beginning, and each question is one fewer to come.
client kerberos
questions 5
initialize '?' -> asks Tcp 'tcp://kdc'
questions 4, one waits
resume 'T' -> asks Tcp 'tcp://kdc'
questions 2, one waits
state NTLM, no MIC
resume 'T' -> refuses TimeSkew Mechanism
questions 2, one waits
resume '1ab' -> ContinueNeeded TOLD-OFFER
questions 2
";

#[test]
fn asking(rt: HostRuntime) {
    run_told(&rt, TOKENS, ASKING);
}
