//! Each refusal of a client, with its kind and reason.

use crate::tests::credssp::asks::Asks;
use crate::tests::credssp::stage::plays;
use sspi_mech::Ntlm;
use sspi_testing::Scripted;

const IN_THE_AUTHENTICATION: &str = "
ends
client new version=2 code=C0070308 -> InvalidToken/ErrorStatus/c0070308 did=nothing
kdc fails -> OutOfSequence/Sequence
client new version=3 -> reply version=6
client new version=4 token=challenge code=C0070308 -> InvalidToken/ErrorStatus/c0070308 did=nothing
client new token=text:N2 -> InvalidToken/TokenForm did=step
client new version=5 token=challenge -> MessageAltered/PeerVersion did=nothing
kdc fails -> OutOfSequence/Sequence
client new token=challenge auth=text:info code=0 -> reply version=6 token=third-token auth=text:info proof=third-proof code=0 nonce=00
";

/// A refused call pins no version, and the first one that is answered pins none either.
#[test]
fn in_the_authentication(rt: HostRuntime) {
    plays::<Ntlm>(&rt, IN_THE_AUTHENTICATION);
}

const OF_THE_PROOF: &str = "
ends
client new -> reply
client new token=challenge -> reply
client new token=text:N3 -> InvalidToken/NoPubKey did=nothing gave=none
client new proof=fifteen-zeros nonce=00 -> InvalidToken/ShortBlob did=nothing
client new proof=bare: nonce=00 -> MessageAltered/Tag did=nothing
client new proof=third-proof nonce=00 -> MessageAltered/Tag did=nothing
client new proof=client-proof-by-server nonce=00 -> MessageAltered/HashDiffers did=checked
client new proof=cut-proof-by-server nonce=00 -> MessageAltered/HashDiffers did=checked
client new version=5 proof=third-proof-by-server nonce=00 -> MessageAltered/PeerVersion did=nothing
client new proof=third-proof-by-server nonce=00 code=C0070308 -> InvalidToken/ErrorStatus/c0070308 did=nothing
kdc fails -> OutOfSequence/Sequence
client new proof=third-proof-by-server nonce=00 -> last auth-length=41 proof=none
";

/// No proof, a short one, an altered one, the client's own one sent back, the same sealed by the
/// server; and the first half of the right one. No refusal releases the credentials; after all of
/// them, the right proof does.
#[test]
fn of_the_proof(rt: HostRuntime) {
    plays::<Ntlm>(&rt, OF_THE_PROOF);
}

const AFTER_THE_LAST_MESSAGE: &str = "
ends
client new -> reply
client new token=challenge -> reply
client fourth -> last gave=none
client new code=C0070308 -> InvalidToken/ErrorStatus/c0070308 did=nothing
client new version=2 -> MessageAltered/PeerVersion did=nothing
client fourth -> OutOfSequence/Sequence did=nothing
client fourth -> OutOfSequence/Sequence did=nothing
";

/// The last message, which comes from no step, and what follows it.
#[test]
fn after_the_last_message(rt: HostRuntime) {
    plays::<Ntlm>(&rt, AFTER_THE_LAST_MESSAGE);
}

const OF_A_KEY_TABLE: &str = "
ends client-version=6 credentials=keytab
client new -> UnknownCredentials/Keytab did=nothing
client new -> UnknownCredentials/Keytab did=nothing waits=no left=0
";

/// NTLM takes no key table, so the client gets no context.
#[test]
fn of_a_key_table(rt: HostRuntime) {
    plays::<Ntlm>(&rt, OF_A_KEY_TABLE);
}

const OF_A_KEY_TABLE_TO_DELEGATE: &str = "
ends client-version=6 credentials=keytab
client new -> InternalError/NoVersion did=step+Ok
client new -> reply
client new proof=bare:server-proof nonce=00 -> UnsupportedPreAuth/Keytab did=checked
client new proof=bare:server-proof nonce=00 -> UnsupportedPreAuth/Keytab did=checked
";

/// A mechanism may take a key table, but CredSSP has no encoding for it.
#[test]
fn of_a_key_table_to_delegate(rt: HostRuntime) {
    plays::<Scripted<Asks, 0>>(&rt, OF_A_KEY_TABLE_TO_DELEGATE);
}

const OF_CREDENTIALS_PAST_THE_LIMIT: &str = "
ends client-version=6 credentials=524264
client new -> InternalError/NoVersion did=step+Ok
client new -> reply
client new proof=bare:server-proof nonce=00 -> InternalError/TooLong did=checked
client new proof=bare:server-proof nonce=00 -> InternalError/TooLong did=checked

ends client-version=6 credentials=524263
client new -> InternalError/NoVersion did=step+Ok
client new -> reply
client new proof=bare:server-proof nonce=00 -> last auth-length=1048581
";

/// The encoded credentials have a content of 50 bytes, and two more for each letter: 1048578 bytes
/// are too many, and 1048576 are not.
#[test]
fn of_credentials_past_the_limit(rt: HostRuntime) {
    plays::<Scripted<Asks, 0>>(&rt, OF_CREDENTIALS_PAST_THE_LIMIT);
}
