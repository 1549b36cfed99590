//! Whose credentials a client over plain NTLM proves: those of a handle, or those that were
//! acquired.

use crate::tests::negotiate::script::run_plain;
use crate::tests::negotiate::tokens::NTLM;

const HANDLES: &str = r"
# NTLM offers itself without credentials, and needs them for its proof; a step that is refused for that may come again.
client ntlm ntlm
initialize -> ContinueNeeded OFFER
initialize PICK -> refuses NoCredentials NoAuthData
handle DOM ann pw
initialize PICK -> ContinueNeeded SIGNED
handle none
initialize COMPLETE -> Ok

# The password of a handle is kept, until another one comes; a key table is none.
handle DOM ann pw
client ntlm ntlm
initialize -> ContinueNeeded OFFER
handle none
initialize PICK -> ContinueNeeded SIGNED
handle DOM bob other
client ntlm ntlm
initialize -> ContinueNeeded OFFER
handle DOM ann pw
initialize PICK -> ContinueNeeded SIGNED
handle DOM ann pw
client ntlm ntlm
initialize -> ContinueNeeded OFFER
handle key-table ann
initialize PICK -> ContinueNeeded SIGNED

# A key table alone.
handle key-table ann
client ntlm ntlm
initialize -> ContinueNeeded OFFER
initialize PICK -> refuses NoCredentials NoAuthData

# A handle whose parts make no name is refused in each place before anything else, and the place stays.
client ntlm ntlm
handle D@M ann pw
initialize -> refuses InvalidParameter UserName
handle DOM ann pw
initialize -> ContinueNeeded OFFER
handle D@M ann pw
initialize PICK -> refuses InvalidParameter UserName
handle DOM ann pw
initialize PICK -> ContinueNeeded SIGNED
handle D@M ann pw
initialize COMPLETE -> refuses InvalidParameter UserName
handle none
initialize COMPLETE -> Ok

client ntlm ntlm
handle DOM a\nn pw
initialize -> refuses InvalidParameter UserName
handle DOM ann pw
initialize -> ContinueNeeded OFFER
handle DOM a\nn pw
initialize PICK -> refuses InvalidParameter UserName
handle DOM ann pw
initialize PICK -> ContinueNeeded SIGNED
handle DOM a\nn pw
initialize COMPLETE -> refuses InvalidParameter UserName
handle none
initialize COMPLETE -> Ok
";

#[test]
fn handles(rt: HostRuntime) {
    run_plain(&rt, NTLM, HANDLES);
}

const ACQUIRED: &str = r"
# What is acquired is kept as the password of a handle is, over refusals too: NTLM has no use for a key table, which is told in two
# ways.
handle DOM ann pw
client ntlm ntlm
acquire outbound DOM\ann pw -> gives-handle
acquire outbound none -> refuses NoCredentials NoAuthData
acquire outbound key-table ann -> refuses NoCredentials NoAuthData
acquire inbound key-table ann -> refuses UnknownCredentials Keytab
handle none
initialize -> ContinueNeeded OFFER
initialize PICK -> ContinueNeeded SIGNED

# Acquiring nothing leaves nothing kept.
handle DOM ann pw
client ntlm ntlm
acquire outbound DOM\ann pw -> gives-handle
acquire inbound none -> gives-none
handle none
initialize -> ContinueNeeded OFFER
initialize PICK -> refuses NoCredentials NoAuthData
";

#[test]
fn acquired(rt: HostRuntime) {
    run_plain(&rt, NTLM, ACQUIRED);
}

const LACKS: &str = r"
# A client without a name, before its offer and after it: neither key, name nor identities.
client ntlm ntlm
complete -> refuses OutOfSequence Sequence
seal 'text' -> refuses OutOfSequence Sequence
unseal 'a-blob-of-sixteen' -> refuses OutOfSequence Sequence
fail -> refuses OutOfSequence Sequence
resume -> refuses OutOfSequence Sequence
names -> refuses OutOfSequence Sequence
identify none -> refuses OutOfSequence Sequence
identify DOM\bob pw -> refuses OutOfSequence Sequence
identify key-table ann -> refuses IncompleteCredentials NotPassword
handle DOM ann pw
initialize -> ContinueNeeded OFFER
complete -> refuses OutOfSequence Sequence
seal 'text' -> refuses OutOfSequence Sequence
unseal 'a-blob-of-sixteen' -> refuses OutOfSequence Sequence
fail -> refuses OutOfSequence Sequence
resume -> refuses OutOfSequence Sequence
names -> refuses OutOfSequence Sequence
identify none -> refuses OutOfSequence Sequence
identify DOM\bob pw -> refuses OutOfSequence Sequence
identify key-table ann -> refuses IncompleteCredentials NotPassword

# The same of a server without its peer's name.
known DOM\ann pw
server ntlm ntlm
complete -> refuses OutOfSequence Sequence
seal 'text' -> refuses OutOfSequence Sequence
unseal 'a-blob-of-sixteen' -> refuses OutOfSequence Sequence
fail -> refuses OutOfSequence Sequence
resume -> refuses OutOfSequence Sequence
names -> refuses OutOfSequence Sequence
identify none -> refuses OutOfSequence Sequence
identify DOM\bob pw -> refuses OutOfSequence Sequence
identify key-table ann -> refuses IncompleteCredentials NotPassword
accept OFFER -> ContinueNeeded PICK
complete -> refuses OutOfSequence Sequence
seal 'text' -> refuses OutOfSequence Sequence
unseal 'a-blob-of-sixteen' -> refuses OutOfSequence Sequence
fail -> refuses OutOfSequence Sequence
resume -> refuses OutOfSequence Sequence
names -> refuses OutOfSequence Sequence
identify none -> refuses OutOfSequence Sequence
identify DOM\bob pw -> refuses OutOfSequence Sequence
identify key-table ann -> refuses IncompleteCredentials NotPassword
";

#[test]
fn lacks(rt: HostRuntime) {
    run_plain(&rt, NTLM, LACKS);
}

const TOLD_IDENTITY: &str = r"
# A server that has a name and not its MIC may be told the identity by its caller.
known DOM\bob pw
server ntlm ntlm
accept OFFER -> ContinueNeeded PICK
accept COMPLETE-NAME -> refuses InvalidToken NoMic
identify none -> refuses NoCredentials NoCandidate
identify DOM\ann other -> refuses LogonDenied Proof
complete -> refuses OutOfSequence Sequence
seal 'text' -> refuses OutOfSequence Sequence
unseal 'a-blob-of-sixteen' -> refuses OutOfSequence Sequence
fail -> refuses OutOfSequence Sequence
identify DOM\ann pw -> takes
complete -> Ok
";

#[test]
fn told_identity(rt: HostRuntime) {
    run_plain(&rt, NTLM, TOLD_IDENTITY);
}
