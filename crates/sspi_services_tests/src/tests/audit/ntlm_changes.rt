//! Each field of each turn and entry of exchanges by plain NTLM, changed by itself.
//!
//! The verdicts were found independently of this program, by the rules for turns in docs/WIRE.md
//! and in the definitions of an auditor.

use crate::tests::audit::ntlm::EXCHANGE;
use crate::tests::audit::tables::{Whole, entries_are_judged, orders_are_judged, turns_are_judged};

/// The exchange of `ntlm`, with the client at version 3 and the server at 4: the proofs are the key
/// and the key plus one, and no message has a nonce.
const BELOW: &str = "\
0 end=client given=F acts=step,continue output=4e31 outcome=reply message=A
1 end=server given=A acts=step,continue output=4e320000000000000000 outcome=reply message=B
2 end=client given=B acts=step,ok,proved output=4e330700444f4d5c616e6e34ddc90ba7ffb071634b466e4d8ecefc8e57189f71f0576ac2bb6e173c\
f15e3f outcome=reply message=C;nonce=0
3 end=server given=C acts=step,complete,checked,proved output= outcome=reply message=D
4 end=client given=D acts=checked,sealed output= outcome=final message=E
5 end=server given=E acts=opened output= outcome=finished message=-
a from=client sent=A delivered=A ended=yes
b from=server sent=B delivered=B ended=yes
c from=client sent=C delivered=C ended=yes
d from=server sent=D delivered=D ended=yes
e from=client sent=E delivered=E ended=yes
F 3005a003020106
s 000000000000000000000000000000
l 00000000000000000000000000000000
A 3011a003020103a10a30083006a00404024e31
B 3019a003020104a1123010300ea00c040a4e320000000000000000
C 3051a003020103a1333031302fa02d042b4e330700444f4d5c616e6e34ddc90ba7ffb071634b466e4d8ecefc8e57189f71f0576ac2bb6e173cf15e3fa31504\
134daa99e530c860659b4f24f6cdddbd02010203
D 301ca003020104a31504131807f95449f293cad6b71173246adcef020203
E 3042a003020103a23b0439a5410dbaf6a0ebe3683e10cab62877af3027a003020101a120041e301ca008040644004f004d00a108040661006e006e00a20604\
0470007700";

/// The same with the client at version 4 and the server at 6: the server expects a hash, and
/// refuses the key.
const MIXED: &str = "\
0 end=client given=F acts=step,continue output=4e31 outcome=reply message=A
1 end=server given=A acts=step,continue output=4e320000000000000000 outcome=reply message=B
2 end=client given=B acts=step,ok,proved output=4e330700444f4d5c616e6e34ddc90ba7ffb071634b466e4d8ecefc8e57189f71f0576ac2bb6e173c\
f15e3f outcome=reply message=C;nonce=0
3 end=server given=C acts=step,complete,checked output= outcome=MessageAltered message=D
a from=client sent=A delivered=A ended=yes
b from=server sent=B delivered=B ended=yes
c from=client sent=C delivered=C ended=yes
d from=server sent=D delivered=D ended=yes
F 3005a003020106
s 000000000000000000000000000000
l 00000000000000000000000000000000
A 3011a003020104a10a30083006a00404024e31
B 3019a003020106a1123010300ea00c040a4e320000000000000000
C 306ea003020104a1333031302fa02d042b4e330700444f4d5c616e6e34ddc90ba7ffb071634b466e4d8ecefc8e57189f71f0576ac2bb6e173cf15e3fa33204\
30507e00ce75d8eebf639da627511157b3e1e0e7bbbd1efcbe459a5253b2f0839a676027203f86155c53b75ceb87f89c4c
D 3041a003020106a3320430507e00ce75d8eebf639da627511157b3e1e0e7bbbd1efcbe459a5253b2f0839a676027203f86155c53b75ceb87f89c4ca4060204\
c007030f";

/// The verdicts at version 6 and below 5.
const TURNS: &str = "\
end =client            | .  1  .  3  .  5 | .  1  .  3  .  5
end =server            | 0  .  2  .  4  . | 0  .  2  .  4  .
given ;version=7       | 0  1  2  3  4  5 | 0  2  3  3  4  5
given ;nego=-          | .  1  2  3  .  . | .  2  3  4  .  .
given ;nego=00         | 0  1  2  3  4  5 | 0  2  3  4  5  6
given ;auth=-          | .  .  .  .  .  5 | .  .  .  .  .  5
given ;auth=l          | 0  1  2  3  4  5 | 0  1  2  3  5  6
given ;proof=-         | .  .  .  3  4  . | .  .  .  3  4  .
given ;proof=s         | 0  1  2  3  4  5 | 0  1  3  3  4  6
given ;proof=l         | 0  1  2  3  4  5 | 0  1  3  4  5  6
given ;code=c0000022   | 0  1  2  3  4  5 | 0  1  2  3  4  6
given ;code=0          | 0  1  2  3  4  5 | 0  1  2  3  4  6
given ;nonce=1         | 0  1  2  3  4  5 | 0  1  3  3  4  6
acts ,step             | .  .  .  .  4  5 | .  .  .  .  4  5
acts ,!step            | 0  1  2  3  .  . | 0  1  2  3  .  .
acts ,ok               | 0  3  .  y4 4  5 | 0  2  .  4  4  5
acts ,continue         | .  .  2  3  4  5 | .  .  2  3  4  5
acts ,complete         | y4 3  2  .  4  5 | y  2  2  .  4  5
acts ,local            | y4 1  2  3  4  5 | y  1  2  3  4  5
acts ,!status          | 0  1  2  3  .  . | 0  1  2  3  .  .
acts ,proved           | 0  1  .  .  4  5 | 0  1  .  .  4  5
acts ,!proved          | .  .  2  3  .  . | .  .  2  3  .  .
acts ,checked          | 0  1  2  .  .  5 | 0  1  2  .  .  5
acts ,!checked         | .  .  .  3  4  . | .  .  .  3  4  .
acts ,sealed           | 0  1  2  3  .  5 | 0  1  2  3  .  5
acts ,!sealed          | .  .  .  .  4  . | .  .  .  .  4  .
acts ,opened           | 0  1  2  3  4  . | 0  1  2  3  4  .
acts ,!opened          | .  .  .  .  .  5 | .  .  .  .  .  5
output =               | 0  1  2  .  .  . | 0  1  2  .  .  .
output +00             | 0  1  2  y4 y4 y4 | 0  1  2  4  5  6
outcome =reply         | .  .  .  .  4  . | .  .  .  .  4  .
outcome =final         | 0  1  2  3  .  . | 0  1  2  3  .  .
outcome =finished      | 0  1  2  3  4  . | 0  1  2  3  4  .
outcome =InvalidToken  | 0  1  2  3  4  . | 0  1  2  3  4  .
message ;version=7     | 0  1  2  3  4  . | y  2  2  3  4  .
message ;nego=-        | 0  1  2  .  .  . | 0  1  2  .  .  .
message ;nego=         | 0  1  2  3  4  . | 0  1  2  3  4  .
message ;nego=00       | 0  1  2  3  4  . | 0  1  2  3  4  .
message ;auth=-        | .  .  .  .  4  . | .  .  .  .  4  .
message ;auth=s        | 0  1  2  3  4  . | 0  1  2  3  4  .
message ;auth=l        | 0  1  2  3  4  . | 0  1  2  3  5  .
message ;proof=-       | .  .  2  3  .  . | .  .  2  3  .  .
message ;proof=s       | 0  1  2  3  4  . | 0  1  2  3  4  .
message ;proof=l       | 0  1  2  3  4  . | 0  1  3  4  4  .
message ;code=c0000022 | 0  1  2  3  4  . | 0  1  2  3  4  .
message ;code=0        | 0  1  2  3  4  . | 0  1  2  3  4  .
bare =InvalidToken     | 0  1  2  3  4  5 | y  1  3  3  5  5
both ;version=7        | 0  1  2  3  4  . | 0  2  2  3  4  .
both ;auth=l           | 0  1  2  3  4  . | 0  2  3  4  5  .
both ;proof=l          | 0  1  2  3  4  . | 0  2  3  4  4  .
both ;code=0           | 0  1  2  3  4  . | 0  2  3  4  5  .
both ;code=c0000022    | 0  1  2  3  4  . | 0  2  2  4  4  .
both ;nonce=1          | 0  1  2  3  4  . | 0  2  3  4  5  .";

/// At version 6 only.
const WITH_NONCES: &str = "\
given ;nonce=-   | .  .  .  3  4  5 | .  .  .  3  4  6
message ;nonce=- | .  .  2  3  4  . | .  .  2  3  4  .
message ;nonce=1 | 0  1  2  3  4  . | 0  1  3  3  4  .
both ;nonce=-    | .  .  2  3  4  . | .  .  2  3  5  .";

/// Below 5 only.
const WITHOUT_NONCES: &str = "\
message ;nonce=- | .  .  2  .  .  . | .  .  2  .  .  .
message ;nonce=1 | 0  1  y4 3  4  . | 0  1  3  3  4  .
both ;nonce=-    | .  .  2  .  .  . | .  .  2  .  .  .";

/// For the two versions that do not match.
const MIXED_TURNS: &str = "\
end =client            | .  1  .  3 | .  1  .  3
end =server            | 0  .  2  . | 0  .  2  .
given ;version=7       | 0  1  2  3 | 0  2  3  4
given ;nego=-          | .  1  2  3 | .  2  3  4
given ;nego=00         | 0  1  2  3 | 0  2  3  4
given ;auth=l          | 0  1  2  3 | 0  1  2  3
given ;proof=-         | .  .  .  3 | .  .  .  3
given ;proof=s         | 0  1  2  3 | 0  1  3  3
given ;proof=l         | 0  1  2  3 | 0  1  3  3
given ;code=c0000022   | 0  1  2  3 | 0  1  2  4
given ;code=0          | 0  1  2  3 | 0  1  2  4
given ;nonce=1         | 0  1  2  3 | 0  1  3  3
acts ,!step            | 0  1  2  3 | 0  1  2  3
acts ,ok               | 0  3  .  y | 0  2  .  4
acts ,continue         | .  .  2  3 | .  .  2  3
acts ,complete         | y  3  2  . | y  2  2  .
acts ,local            | y  1  2  3 | y  1  2  3
acts ,!status          | 0  1  2  3 | 0  1  2  3
acts ,proved           | 0  1  .  y | 0  1  .  4
acts ,!proved          | .  .  2  . | .  .  2  .
acts ,checked          | 0  1  2  . | 0  1  2  .
acts ,!checked         | .  .  .  y | .  .  .  4
acts ,sealed           | 0  1  2  3 | 0  1  2  3
acts ,opened           | 0  1  2  3 | 0  1  2  3
output =               | 0  1  2  . | 0  1  2  .
output +00             | 0  1  2  y | 0  1  2  4
outcome =reply         | .  .  .  3 | .  .  .  3
outcome =final         | 0  1  2  3 | 0  1  2  3
outcome =finished      | 0  1  2  3 | 0  1  2  3
outcome =InvalidToken  | 0  1  2  3 | 0  1  2  3
message ;version=7     | 0  1  2  3 | y  2  2  3
message ;nego=-        | 0  1  2  . | 0  1  2  .
message ;nego=         | 0  1  2  3 | 0  1  2  3
message ;nego=00       | 0  1  2  3 | 0  1  2  3
message ;auth=s        | 0  1  2  3 | 0  1  2  3
message ;auth=l        | 0  1  2  3 | 0  1  2  3
message ;proof=-       | .  .  2  3 | .  .  2  3
message ;proof=s       | 0  1  2  3 | 0  1  2  3
message ;proof=l       | 0  1  2  3 | 0  1  3  3
message ;code=-        | .  .  .  3 | .  .  .  3
message ;code=c0000022 | 0  1  2  3 | 0  1  2  3
message ;code=0        | 0  1  2  3 | 0  1  2  3
message ;nonce=-       | .  .  2  . | .  .  2  .
message ;nonce=1       | 0  1  y  3 | 0  1  3  3
bare =InvalidToken     | 0  1  2  3 | y  1  3  3
both ;version=7        | 0  1  2  3 | 0  2  2  4
both ;auth=l           | 0  1  2  3 | 0  2  3  4
both ;proof=l          | 0  1  2  3 | 0  2  3  4
both ;code=0           | 0  1  2  3 | 0  2  3  3
both ;code=c0000022    | 0  1  2  3 | 0  2  2  3
both ;nonce=-          | .  .  2  . | .  .  2  .
both ;nonce=1          | 0  1  2  3 | 0  2  3  4";

/// The entries, at any version.
const ENTRIES: &str = "\
from =client  | .  1  .  3  .
from =server  | 0  .  2  .  4
sent =        | 0  1  2  3  4
sent ~        | 0  1  2  3  4
sent +00      | 0  1  2  3  4
delivered =   | 1  2  3  4  5
delivered ~   | 1  2  3  4  5
delivered +00 | y4 y4 y4 y4 y4
ended =no     | 1  2  3  4  5";

/// Those up to the error message, whose delivery no end takes.
const MIXED_ENTRIES: &str = "\
from =client  | .  1  .  3
from =server  | 0  .  2  .
sent =        | 0  1  2  3
sent ~        | 0  1  2  3
sent +00      | 0  1  2  3
delivered =   | 1  2  3  y
delivered ~   | 1  2  3  y
delivered +00 | y  y  y  y
ended =no     | 1  2  3  y";

/// Turns and entries that are missing, doubled or swapped with the next, at any version.
const ORDERS: &str = "\
turns missing   | 0  1  2  3  4  y4
turns doubled   | 1  2  3  4  5  6
turns swapped   | 0  1  2  3  4  .
entries missing | 0  1  2  3  6
entries doubled | 1  2  3  4  5
entries swapped | 0  1  2  3  .";

/// The same up to the error message.
const MIXED_ORDERS: &str = "\
turns missing   | 0  1  2  3
turns doubled   | 1  2  3  4
turns swapped   | 0  1  2  .
entries missing | 0  1  2  y
entries doubled | 1  2  3  4
entries swapped | 0  1  2  .";

const AT_6: Whole<'_> = Whole {
    exchange: EXCHANGE,
    turns: "012345",
    entries: "abcde",
};

const BELOW_5: Whole<'_> = Whole {
    exchange: BELOW,
    turns: "012345",
    entries: "abcde",
};

const AT_BOTH: Whole<'_> = Whole {
    exchange: MIXED,
    turns: "0123",
    entries: "abcd",
};

#[test]
fn at_version_6(rt: HostRuntime) {
    turns_are_judged(&rt, AT_6, TURNS, 450);
    turns_are_judged(&rt, AT_6, WITH_NONCES, 28);
    entries_are_judged(&rt, AT_6, ENTRIES, 40);
    orders_are_judged(&rt, AT_6, ORDERS, 31);
}

#[test]
fn below_version_5(rt: HostRuntime) {
    turns_are_judged(&rt, BELOW_5, TURNS, 450);
    turns_are_judged(&rt, BELOW_5, WITHOUT_NONCES, 14);
    entries_are_judged(&rt, BELOW_5, ENTRIES, 40);
    orders_are_judged(&rt, BELOW_5, ORDERS, 31);
}

#[test]
fn at_versions_that_do_not_match(rt: HostRuntime) {
    turns_are_judged(&rt, AT_BOTH, MIXED_TURNS, 344);
    entries_are_judged(&rt, AT_BOTH, MIXED_ENTRIES, 32);
    orders_are_judged(&rt, AT_BOTH, MIXED_ORDERS, 22);
}
