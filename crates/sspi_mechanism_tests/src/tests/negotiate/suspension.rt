//! Steps that ask a KDC: a mechanism of `told.rt` asks when it is told `?`, and the KDC's reply
//! says how it continues.

use crate::tests::negotiate::script::run_told;

const TOKENS: &str = r"
OFFER = 6022 0606 2b0601050502 a018 3016 a00e 300c 060a 2b06010401823702020a a204 0402 'ab'
PICK-ASKED = a11a 3018 a003 0a0101 a10c 060a 2b06010401823702020a a203 0401 '?'
COMPLETE-PICK-ASKED = a12c 302a a003 0a0100 a10c 060a 2b06010401823702020a a203 0401 '?'
  a310 040e 300c 060a 2b06010401823702020a
GOING = a10d 300b a003 0a0101 a204 0402 'ab'
GOING-SIGNED = a11f 301d a003 0a0101 a204 0402 'ab' a310 040e 300c 060a 2b06010401823702020a
";

const FIRST_STEPS: &str = r"
# While a question waits there is no other step. A refusal leaves it waiting, since NTLM, which is in hand, has nothing to fall back to;
# and the step goes on as if it had not been suspended.
flags USE_SESSION_KEY
client ntlm ntlm
questions 3
initialize '?' -> asks Tcp 'tcp://kdc'
questions 2, one waits
initialize '1ab' -> refuses OutOfSequence Sequence
accept OFFER -> refuses OutOfSequence Sequence
fail -> refuses NoAuthenticatingAuthority Kdc
resume 'T' -> refuses TimeSkew Mechanism
questions 2, one waits
resume '?' -> asks Tcp 'tcp://kdc'
questions 1, one waits
resume '2ab' -> refuses InternalError Status
questions 1

# One that comes to its end, with the flags of the step that asked.
flags USE_SESSION_KEY
client ntlm ntlm
initialize '?' -> asks Tcp 'tcp://kdc'
flags none
resume '1ab' -> ContinueNeeded OFFER
questions 2
state NTLM, MIC needed
resume '1ab' -> refuses OutOfSequence Sequence

# A client asks as often as its mechanisms may, and then no more.
client ntlm ntlm
initialize '?' -> asks Tcp 'tcp://kdc'
resume '?' -> asks Tcp 'tcp://kdc'
resume '?' -> asks Tcp 'tcp://kdc'
questions 0, one waits
resume '?' -> refuses ContextExpired Spent
questions 0, one waits
resume '1ab' -> ContinueNeeded OFFER
questions 0
";

#[test]
fn first_steps(rt: HostRuntime) {
    run_told(&rt, TOKENS, FIRST_STEPS);
}

const LATER_STEPS: &str = r"
# A later step keeps the token that it was handed: its choice, its result and its MIC.
handle DOM ann pw
flags USE_SESSION_KEY
client ntlm ntlm
initialize '1ab' -> ContinueNeeded OFFER
initialize PICK-ASKED -> asks Tcp 'tcp://kdc'
initialize PICK-ASKED -> refuses OutOfSequence Sequence
fail -> refuses NoAuthenticatingAuthority Kdc
resume '?' -> asks Tcp 'tcp://kdc'
resume '1ab' -> ContinueNeeded GOING
initialize PICK-ASKED -> asks Tcp 'tcp://kdc'
resume '0ab' -> ContinueNeeded GOING-SIGNED
resume '0ab' -> refuses OutOfSequence Sequence

# The last step.
handle DOM ann pw
flags USE_SESSION_KEY
client ntlm ntlm
initialize '1ab' -> ContinueNeeded OFFER
initialize COMPLETE-PICK-ASKED -> asks Tcp 'tcp://kdc'
resume '0ab' -> Ok
questions 2
";

#[test]
fn later_steps(rt: HostRuntime) {
    run_told(&rt, TOKENS, LATER_STEPS);
}
