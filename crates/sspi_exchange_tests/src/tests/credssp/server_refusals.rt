//! Each refusal of a server, with its kind, its reason and the request that reports it.

use crate::tests::credssp::asks::Asks;
use crate::tests::credssp::stage::plays;
use sspi_mech::Ntlm;
use sspi_testing::Scripted;

const BEFORE_THE_END_OF_THE_AUTHENTICATION: &str = "
ends
server new version=5 token=text:N2 auth=text:info -> InvalidToken/TokenForm did=step version=6 token=none auth=some code=C0070308
server new version=3 token=text:N1 -> MessageAltered/PeerVersion did=nothing version=3 token=none
server new version=5 token=text:N1 code=C0070308 -> reply version=6 code=C0070308
server third version=6 -> MessageAltered/PeerVersion did=nothing version=6 token=none
server third version=5 -> reply spelled=fourth
";

/// Up to the version check, a refused request goes back in its own version; after it, in the
/// server's. A code goes back as received.
#[test]
fn before_the_end_of_the_authentication(rt: HostRuntime) {
    plays::<Ntlm>(&rt, BEFORE_THE_END_OF_THE_AUTHENTICATION);
}

const OF_THE_PROOF: &str = "
ends
server new token=text:N1 -> reply
server third proof=none -> InvalidToken/EmptyToken did=step+CompleteNeeded token=none
server third -> OutOfSequence/Sequence did=step

ends
server new token=text:N1 -> reply
server third proof=fifteen-zeros nonce=none -> InvalidToken/NoNonce did=step+CompleteNeeded token=none
server third -> OutOfSequence/Sequence did=step

ends
server new token=text:N1 -> reply
server third proof=fifteen-zeros -> InvalidToken/ShortBlob did=step+CompleteNeeded token=none
server third -> OutOfSequence/Sequence did=step

ends
server new token=text:N1 -> reply
server third proof=bare: -> MessageAltered/Tag did=step+CompleteNeeded token=none
server third -> OutOfSequence/Sequence did=step

ends
server new token=text:N1 -> reply
server third proof=server-proof-by-client -> MessageAltered/HashDiffers did=step+CompleteNeeded+checked token=none
server third -> OutOfSequence/Sequence did=step

ends
server new token=text:N1 -> reply
server third proof=cut-proof-by-client -> MessageAltered/HashDiffers did=step+CompleteNeeded+checked token=none
server third -> OutOfSequence/Sequence did=step

ends
server new token=text:N1 -> reply
server third nonce=01 -> MessageAltered/HashDiffers did=step+CompleteNeeded+checked token=none
server third -> OutOfSequence/Sequence did=step
";

/// No token to send and no proof; no nonce; a short and an altered proof; the server's own one and
/// a cut one, sealed by the client; one for another nonce. Each time the context has ended, but not
/// the authentication.
#[test]
fn of_the_proof(rt: HostRuntime) {
    plays::<Ntlm>(&rt, OF_THE_PROOF);
}

const WHERE_THE_PROOF_COMES_BY_ITSELF: &str = "
ends
server new token=text:odd -> InternalError/Status did=step+CompleteAndContinue token=none
server new token=text:first -> reply version=6 token=text:last auth=none proof=none code=none nonce=none
server new token=text:more -> InvalidToken/NoPubKey did=nothing token=none proof=none
server new proof=bare:client-proof -> InvalidToken/NoNonce did=nothing token=none proof=none
server new proof=fifteen-zeros nonce=00 -> InvalidToken/ShortBlob did=nothing token=none proof=none
server new proof=bare:server-proof nonce=00 -> MessageAltered/HashDiffers did=checked token=none proof=none
server new proof=bare:half-client-proof nonce=00 -> MessageAltered/HashDiffers did=checked token=none proof=none
server new proof=bare: nonce=00 -> MessageAltered/HashDiffers did=checked token=none proof=none
server new version=5 proof=bare:client-proof nonce=00 -> MessageAltered/PeerVersion did=nothing token=none proof=none
server new token=text:more proof=bare:client-proof nonce=00 -> reply proof-text=server-proof token=none
";

/// Only the right proof is answered, even after all the refusals. A server whose authentication
/// ends with a token asks for the proof with it, and sends back neither token nor proof.
#[test]
fn where_the_proof_comes_by_itself(rt: HostRuntime) {
    plays::<Scripted<Asks, 0>>(&rt, WHERE_THE_PROOF_COMES_BY_ITSELF);
}

const WHERE_THE_PROOF_COMES_WITH_THE_TOKEN: &str = "
ends
server new proof=bare:server-proof nonce=00 -> MessageAltered/HashDiffers did=step+Ok+checked proof=some
server new proof=bare:server-proof nonce=00 -> MessageAltered/HashDiffers did=step+Ok+checked proof=some
server new token=text:more proof=bare:client-proof nonce=00 -> reply proof-text=server-proof token=none
server new auth=bare:credentials -> identity:DOM\\ann:pw gave=none
";

/// A proof that comes with the last token and is refused leaves the server in its authentication.
/// No step gives a token when the credentials are read.
#[test]
fn where_the_proof_comes_with_the_token(rt: HostRuntime) {
    plays::<Scripted<Asks, 0>>(&rt, WHERE_THE_PROOF_COMES_WITH_THE_TOKEN);
}

const OF_THE_CREDENTIALS: &str = "
ends
server new token=text:N1 -> reply
server third -> reply
server new proof=third-proof nonce=00 -> InvalidToken/NoAuthInfo did=nothing proof=some
server new auth=fifteen-zeros -> InvalidToken/ShortBlob did=nothing auth=none
server new auth=bare: -> MessageAltered/Tag did=nothing auth=none
server new auth=no-credentials -> InvalidToken/TokenForm did=opened auth=none
server new version=2 auth=later-credentials -> MessageAltered/PeerVersion did=nothing version=2 token=none
server new auth=later-credentials -> identity:DOM\\ann:pw
server fifth -> UnsupportedFunction/Sequence did=nothing auth=some code=C0070302
server fifth version=5 -> MessageAltered/PeerVersion did=nothing version=5 token=none
server fifth -> UnsupportedFunction/Sequence did=nothing auth=some code=C0070302
";

/// Absent, short, altered and malformed credentials; after all of them the right ones end the
/// exchange. A version other than that of the client's other messages is refused to the end.
#[test]
fn of_the_credentials(rt: HostRuntime) {
    plays::<Ntlm>(&rt, OF_THE_CREDENTIALS);
}

const OF_WHAT_THE_CREDENTIALS_SAY: &str = "
ends
server new token=text:more proof=bare:client-proof nonce=00 -> reply proof-text=server-proof token=none
server new auth=bare:smart-card -> UnsupportedFunction/SmartCard did=opened auth=none gave=none
server new auth=bare:credentials -> identity:DOM\\ann:pw gave=none

ends
server new token=text:more proof=bare:client-proof nonce=00 -> reply proof-text=server-proof token=none
server new auth=bare:mixed-name -> InvalidParameter/UserName did=opened auth=none gave=none
server new auth=bare:credentials -> identity:DOM\\ann:pw gave=none

ends
server new token=text:more proof=bare:client-proof nonce=00 -> reply proof-text=server-proof token=none
server new auth=bare:odd-password -> InvalidParameter/Utf did=opened auth=none gave=none
server new auth=bare:credentials -> identity:DOM\\ann:pw gave=none
";

/// A smart card, a name of both forms and a text of half a code unit; after each of them the right
/// ones end the exchange.
#[test]
fn of_what_the_credentials_say(rt: HostRuntime) {
    plays::<Scripted<Asks, 0>>(&rt, OF_WHAT_THE_CREDENTIALS_SAY);
}
