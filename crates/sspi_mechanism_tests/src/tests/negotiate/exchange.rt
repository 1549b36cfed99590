//! Whole negotiations over plain NTLM, from both ends, each of which takes exactly what the other
//! sends. They agree on one key, as each end opens once what the other seals, and on one name, with
//! MICs on both sides.

use crate::tests::negotiate::script::run_plain;

/// The tokens and the first blobs of either end over a text, for `ann@example.com` and for
/// `DOM\bob` with no password. They were computed separately, as docs/WIRE.md shows for `DOM\ann`.
const TOKENS: &str = r"
OFFER = 6022 0606 2b0601050502 a018 3016 a00e 300c 060a 2b06010401823702020a a204 0402 4e31
PICK = a123 3021 a003 0a0101 a10c 060a 2b06010401823702020a a20c 040a 4e32 0000000000000000
ANN-SIGNED = a152 3050 a003 0a0101
  a235 0433 4e33 0f00 616e6e406578616d706c652e636f6d 9de6feb02c00b63c5a24ceea689e9205c88fbda16180578a43ffe8d38e5f9637
  a312 0410 318cfa284cc8630a291609bbf5c17cbf
ANN-COMPLETE = a11b 3019 a003 0a0100 a312 0410 f0f2577ee10588a2cdcfc14f8a1930b8
ANN-CLIENT-BLOB = 96010a2748fd4196cfc73e5329ad5026 615f74657874
ANN-SERVER-BLOB = 5ec7d6e70bc0aab1870f76ec05758c43 616e6f74686572
BOB-SIGNED = a14a 3048 a003 0a0101
  a22d 042b 4e33 0700 444f4d5c626f62 5b387ed616a3e79d07c7dc94e954acf146ddc2aee603e83370dd6c84ebf8d59a
  a312 0410 87dc39669cfbed2739b4f0a50e20518a
BOB-COMPLETE = a11b 3019 a003 0a0100 a312 0410 41565d0792b5efd9c0961c42cf05ff36
BOB-CLIENT-BLOB = 4818d3925866f68fc5ec938c98bf8d16 615f74657874
BOB-SERVER-BLOB = 8abd4e0f497f180a41a2e4383ddb70d0 616e6f74686572
";

const CLIENTS: &str = r"
flags USE_SESSION_KEY
target TERMSRV/host.example.com
handle - ann@example.com correct horses
client ntlm ntlm
initialize -> ContinueNeeded OFFER
initialize PICK -> ContinueNeeded ANN-SIGNED
initialize ANN-COMPLETE -> Ok
names -> gives 'ann@example.com'
complete -> Ok
state NTLM, MIC needed
seal 'a_text' -> gives ANN-CLIENT-BLOB
unseal ANN-SERVER-BLOB -> gives 'another'
unseal ANN-SERVER-BLOB -> refuses MessageAltered Tag
initialize -> refuses OutOfSequence Sequence

flags USE_SESSION_KEY
target TERMSRV/host.example.com
handle DOM bob
client ntlm ntlm
initialize -> ContinueNeeded OFFER
initialize PICK -> ContinueNeeded BOB-SIGNED
initialize BOB-COMPLETE -> Ok
names -> gives 'DOM\bob'
complete -> Ok
state NTLM, MIC needed
seal 'a_text' -> gives BOB-CLIENT-BLOB
unseal BOB-SERVER-BLOB -> gives 'another'
unseal BOB-SERVER-BLOB -> refuses MessageAltered Tag
initialize -> refuses OutOfSequence Sequence
";

#[test]
fn clients(rt: HostRuntime) {
    run_plain(&rt, TOKENS, CLIENTS);
}

const SERVERS: &str = r"
flags USE_SESSION_KEY
known ann@example.com correct horses
server ntlm ntlm
accept OFFER -> ContinueNeeded PICK
accept ANN-SIGNED -> Ok ANN-COMPLETE
names -> gives 'ann@example.com'
complete -> Ok
state NTLM, MIC needed
unseal ANN-CLIENT-BLOB -> gives 'a_text'
unseal ANN-CLIENT-BLOB -> refuses MessageAltered Tag
seal 'another' -> gives ANN-SERVER-BLOB
accept -> refuses OutOfSequence Sequence

flags USE_SESSION_KEY
known DOM\bob
server ntlm ntlm
accept OFFER -> ContinueNeeded PICK
accept BOB-SIGNED -> Ok BOB-COMPLETE
names -> gives 'DOM\bob'
complete -> Ok
state NTLM, MIC needed
unseal BOB-CLIENT-BLOB -> gives 'a_text'
unseal BOB-CLIENT-BLOB -> refuses MessageAltered Tag
seal 'another' -> gives BOB-SERVER-BLOB
accept -> refuses OutOfSequence Sequence
";

#[test]
fn servers(rt: HostRuntime) {
    run_plain(&rt, TOKENS, SERVERS);
}
