//! The stages of a server over plain NTLM.

use crate::tests::negotiate::script::run_plain;
use crate::tests::negotiate::tokens::{LONGER_LISTS, NTLM};

const FIRST_CHOICES: &str = r"
# The client's first choice is picked: its message is taken, and MICs are needed, as always with NTLM.
known DOM\ann pw
server ntlm ntlm
state NTLM, MIC needed
accept OFFER -> ContinueNeeded PICK
state NTLM, MIC needed
accept SIGNED -> Ok COMPLETE
state NTLM, MIC needed
accept SIGNED -> refuses OutOfSequence Sequence
accept OFFER -> refuses OutOfSequence Sequence

# The same without a message.
known DOM\ann pw
server ntlm ntlm
accept BARE-OFFER -> ContinueNeeded BARE-PICK
state NTLM, MIC needed
accept BEGINNING -> ContinueNeeded CHALLENGE
state NTLM, MIC needed
accept SIGNED -> Ok COMPLETE
";

#[test]
fn first_choices(rt: HostRuntime) {
    run_plain(&rt, NTLM, FIRST_CHOICES);
}

const LATER_CHOICES: &str = r"
# Where NTLM is not what the client likes best, its message is dropped, although it is one of NTLM here, and all of the list is kept,
# since the MICs are over it.
known DOM\ann pw
server ntlm ntlm
accept FOUR-OFFER -> ContinueNeeded BARE-PICK
state NTLM, MIC needed
accept BEGINNING -> ContinueNeeded CHALLENGE
accept FOUR-SIGNED -> Ok FOUR-COMPLETE

known DOM\ann pw
server ntlm ntlm
accept THREE-OFFER -> ContinueNeeded BARE-PICK
state NTLM, MIC needed
accept BEGINNING -> ContinueNeeded CHALLENGE
accept THREE-SIGNED -> Ok THREE-COMPLETE
";

#[test]
fn later_choices(rt: HostRuntime) {
    run_plain(&rt, LONGER_LISTS, LATER_CHOICES);
}

/// The MIC is over the list as it is kept, encoded anew, and not over the bytes received: NTLM
/// alone, with a length of two bytes where one would do; and NTLM followed by something that is not
/// an identifier, which ends the list.
const SPELLINGS: &str = r"
# The MIC over the shortest spelling.
known DOM\ann pw
server ntlm ntlm
accept 6023 0606 2b0601050502 a019 3017 a00f 30810c 060a 2b06010401823702020a a204 0402 4e31 -> ContinueNeeded PICK
accept SIGNED -> Ok COMPLETE
state NTLM, MIC needed
accept SIGNED -> refuses OutOfSequence Sequence

# The MIC over the bytes with the long length.
known DOM\ann pw
server ntlm ntlm
accept 6023 0606 2b0601050502 a019 3017 a00f 30810c 060a 2b06010401823702020a a204 0402 4e31 -> ContinueNeeded PICK
accept a14a 3048 a003 0a0101 NAME a312 0410 f327ada754a903830d97dc7589206750 -> refuses MessageAltered Tag
state NTLM, MIC needed
accept SIGNED -> refuses OutOfSequence Sequence

# The MIC over the list that ends before what is no identifier.
known DOM\ann pw
server ntlm ntlm
accept 6024 0606 2b0601050502 a01a 3018 a010 300e 060a 2b06010401823702020a 0500 a204 0402 4e31 -> ContinueNeeded PICK
accept SIGNED -> Ok COMPLETE
state NTLM, MIC needed
accept SIGNED -> refuses OutOfSequence Sequence

# The MIC over what came.
known DOM\ann pw
server ntlm ntlm
accept 6024 0606 2b0601050502 a01a 3018 a010 300e 060a 2b06010401823702020a 0500 a204 0402 4e31 -> ContinueNeeded PICK
accept a14a 3048 a003 0a0101 NAME a312 0410 c1c8f6edd6042efd8fed171da2a26a1c -> refuses MessageAltered Tag
state NTLM, MIC needed
accept SIGNED -> refuses OutOfSequence Sequence
";

#[test]
fn spellings(rt: HostRuntime) {
    run_plain(&rt, NTLM, SPELLINGS);
}

const REFUSED: &str = r"
# Nothing, a token of a server, the frame of another mechanism, an offer that is cut; no list; a list of nothing, of Kerberos and of a
# mechanism that nobody knows; NTLM with a message that is not its first one, alone and before Kerberos. An offer may still come, and
# its list takes the place of one that was kept.
known DOM\ann pw
server ntlm ntlm
accept -> refuses InvalidToken TokenForm
accept BARE-PICK -> refuses InvalidToken TokenForm
accept 6022 0606 2b0601050503 a018 3016 a00e 300c 060a 2b06010401823702020a a204 0402 4e31 -> refuses InvalidToken TokenForm
accept 6022 0606 2b0601050502 a018 3016 a00e 300c 060a 2b06010401823702020a a204 0402 4e -> refuses InvalidToken TokenForm
accept 6012 0606 2b0601050502 a008 3006 a204 0402 4e31 -> refuses InvalidToken NoMechTypes
accept 6016 0606 2b0601050502 a00c 300a a002 3000 a204 0402 4e31 -> refuses InvalidToken NoSharedMech
accept KERBEROS-OFFER -> refuses InvalidToken NoSharedMech
accept 6022 0606 2b0601050502 a018 3016 a00e 300c 060a 2b06010401823702021e a204 0402 4e31 -> refuses InvalidToken NoSharedMech
accept 6022 0606 2b0601050502 a018 3016 a00e 300c 060a 2b06010401823702020a a204 0402 4e32 -> refuses InvalidToken TokenForm
accept BEFORE-KERBEROS -> refuses InvalidToken TokenForm
accept OFFER -> ContinueNeeded PICK
state NTLM, MIC needed
accept SIGNED -> Ok COMPLETE

# Nothing, the token of a client's first step and one that is cut; no message, and NTLM's without its last byte.
known DOM\ann pw
server ntlm ntlm
accept OFFER -> ContinueNeeded PICK
accept -> refuses InvalidToken TokenForm
accept OFFER -> refuses InvalidToken TokenForm
accept a11b 3019 a003 0a0100 a312 0410 7388f4f863f9ef7566d4e6ab5f8de8 -> refuses InvalidToken TokenForm
accept a102 3000 -> refuses InvalidToken TokenForm
accept a11b 3019 a003 0a0100 a312 0410 CLIENT-MIC -> refuses InvalidToken TokenForm
accept CUT-NAME -> refuses InvalidToken TokenForm
state NTLM, MIC needed
accept SIGNED-COMPLETE -> Ok COMPLETE
";

#[test]
fn refused(rt: HostRuntime) {
    run_plain(&rt, NTLM, REFUSED);
}

/// A MIC is taken with any result, and only if it is the client's first one over the list. By then
/// NTLM has had its message, so there is no second try.
const MICS: &str = r"
known DOM\ann pw
server ntlm ntlm
accept OFFER -> ContinueNeeded PICK
accept SIGNED-COMPLETE -> Ok COMPLETE
state NTLM, MIC needed
accept SIGNED-COMPLETE -> refuses OutOfSequence Sequence

# The server's own one.
known DOM\ann pw
server ntlm ntlm
accept OFFER -> ContinueNeeded PICK
accept a14a 3048 a003 0a0101 NAME a312 0410 SERVER-MIC -> refuses MessageAltered Tag
state NTLM, MIC needed
accept SIGNED -> refuses OutOfSequence Sequence

# The client's second.
known DOM\ann pw
server ntlm ntlm
accept OFFER -> ContinueNeeded PICK
accept a14a 3048 a003 0a0101 NAME a312 0410 6809cf83ad0af788287a548958884cda -> refuses MessageAltered Tag
state NTLM, MIC needed
accept SIGNED -> refuses OutOfSequence Sequence

# Over no mechanism.
known DOM\ann pw
server ntlm ntlm
accept OFFER -> ContinueNeeded PICK
accept a14a 3048 a003 0a0101 NAME a312 0410 1eb6c14d0b96a69f775222cb32d6bfc4 -> refuses MessageAltered Tag
state NTLM, MIC needed
accept SIGNED -> refuses OutOfSequence Sequence

# Over four mechanisms.
known DOM\ann pw
server ntlm ntlm
accept OFFER -> ContinueNeeded PICK
accept a14a 3048 a003 0a0101 NAME a312 0410 a389ae468e3c0b61f76fb94002d85a2e -> refuses MessageAltered Tag
state NTLM, MIC needed
accept SIGNED -> refuses OutOfSequence Sequence

# Cut by a byte.
known DOM\ann pw
server ntlm ntlm
accept OFFER -> ContinueNeeded PICK
accept a149 3047 a003 0a0101 NAME a311 040f 9579e8b49db2332ae5f5d92fc9491e -> refuses MessageAltered Tag
state NTLM, MIC needed
accept SIGNED -> refuses OutOfSequence Sequence

# Empty.
known DOM\ann pw
server ntlm ntlm
accept OFFER -> ContinueNeeded PICK
accept a13a 3038 a003 0a0101 NAME a302 0400 -> refuses MessageAltered Tag
state NTLM, MIC needed
accept SIGNED -> refuses OutOfSequence Sequence
";

#[test]
fn mics(rt: HostRuntime) {
    run_plain(&rt, NTLM, MICS);
}

/// A missing MIC is not excused if the client reports that the agreement is complete. With any
/// other result, the server's own MIC would go first, for which NTLM has no key before an identity
/// is found. The results are accept-incomplete, another one and none.
const NO_MICS: &str = r"
known DOM\ann pw
server ntlm ntlm
accept OFFER -> ContinueNeeded PICK
accept COMPLETE-NAME -> refuses InvalidToken NoMic
state NTLM, MIC needed
accept COMPLETE-NAME -> refuses OutOfSequence Sequence

known DOM\ann pw
server ntlm ntlm
accept OFFER -> ContinueNeeded PICK
accept INCOMPLETE-NAME -> refuses OutOfSequence Sequence
state NTLM, MIC needed
accept INCOMPLETE-NAME -> refuses OutOfSequence Sequence

known DOM\ann pw
server ntlm ntlm
accept OFFER -> ContinueNeeded PICK
accept a136 3034 a003 0a0102 NAME -> refuses OutOfSequence Sequence
state NTLM, MIC needed
accept a136 3034 a003 0a0102 NAME -> refuses OutOfSequence Sequence

known DOM\ann pw
server ntlm ntlm
accept OFFER -> ContinueNeeded PICK
accept a131 302f NAME -> refuses OutOfSequence Sequence
state NTLM, MIC needed
accept a131 302f NAME -> refuses OutOfSequence Sequence
";

#[test]
fn no_mics(rt: HostRuntime) {
    run_plain(&rt, NTLM, NO_MICS);
}

/// The name is compared without regard to case, but in its form; each identity of that name is
/// tried; and a MIC is verified only once one of them is found.
const IDENTITIES: &str = r"
known DOM\bob pw
known dom\ANN pw
server ntlm ntlm
accept OFFER -> ContinueNeeded PICK
accept SIGNED -> Ok COMPLETE
state NTLM, MIC needed

known DOM\ann other
known DOM\ann pw
server ntlm ntlm
accept OFFER -> ContinueNeeded PICK
accept SIGNED -> Ok COMPLETE
state NTLM, MIC needed

# Nobody.
server ntlm ntlm
accept OFFER -> ContinueNeeded PICK
accept SIGNED -> refuses NoCredentials NoIdentity
state NTLM, MIC needed

# The name in other forms, and another name.
known ann@DOM pw
known ann pw
known DOM\bob pw
server ntlm ntlm
accept OFFER -> ContinueNeeded PICK
accept SIGNED -> refuses NoCredentials NoIdentity
state NTLM, MIC needed

# Another password.
known DOM\ann other
known DOM\bob pw
server ntlm ntlm
accept OFFER -> ContinueNeeded PICK
accept SIGNED -> refuses LogonDenied Proof
state NTLM, MIC needed

# The proof for another challenge, with its MIC.
known DOM\ann pw
server ntlm ntlm
accept OFFER -> ContinueNeeded PICK
accept OTHER-CHALLENGE-SIGNED -> refuses LogonDenied Proof
state NTLM, MIC needed
";

#[test]
fn identities(rt: HostRuntime) {
    run_plain(&rt, NTLM, IDENTITIES);
}
