//! Each field of each turn and entry of negotiated exchanges, changed by itself, as in
//! `ntlm_changes`.

use crate::tests::audit::negotiated::{EXCHANGE, OLD};
use crate::tests::audit::tables::{Whole, entries_are_judged, orders_are_judged, turns_are_judged};

/// The verdicts at version 6 and at 4.
const TURNS: &str = "\
end =client            | .  1  .  3  .  5  .  7 | .  1  .  3  .  5  .  7
end =server            | 0  .  2  .  4  .  6  . | 0  .  2  .  4  .  6  .
given ;version=7       | 0  1  2  3  4  5  6  7 | 0  2  3  3  4  5  6  7
given ;nego=-          | .  1  2  3  4  .  .  . | .  2  3  4  5  .  .  .
given ;nego=00         | 0  1  2  3  4  5  6  7 | 0  2  3  4  5  6  7  8
given ;auth=-          | .  .  .  .  .  .  .  7 | .  .  .  .  .  .  .  7
given ;auth=l          | 0  1  2  3  4  5  6  7 | 0  1  2  3  4  5  7  8
given ;proof=-         | .  .  .  .  .  5  6  . | .  .  .  .  .  5  6  .
given ;proof=s         | 0  1  2  3  4  5  6  7 | 0  1  2  3  5  5  6  8
given ;proof=l         | 0  1  2  3  4  5  6  7 | 0  1  2  3  5  6  7  8
given ;code=c0000022   | 0  1  2  3  4  5  6  7 | 0  1  2  3  4  5  6  8
given ;code=0          | 0  1  2  3  4  5  6  7 | 0  1  2  3  4  5  6  8
given ;nonce=1         | 0  1  2  3  4  5  6  7 | 0  1  2  3  5  5  6  8
acts ,step             | .  .  .  .  .  5  6  7 | .  .  .  .  .  5  6  7
acts ,!step            | 0  1  2  3  4  .  .  . | 0  1  2  3  4  .  .  .
acts ,ok               | 0  3  2  .  .  5  6  7 | 0  2  2  .  .  5  6  7
acts ,continue         | .  .  .  5  4  5  6  7 | .  .  .  4  4  5  6  7
acts ,complete         | y6 3  y6 y6 4  5  6  7 | y  2  3  4  4  5  6  7
acts ,local            | y6 1  y6 3  4  5  6  7 | y  1  3  3  4  5  6  7
acts ,!status          | 0  1  2  3  4  .  .  . | 0  1  2  3  4  .  .  .
acts ,proved           | 0  1  2  3  .  .  6  7 | 0  1  2  3  .  .  6  7
acts ,!proved          | .  .  .  .  4  5  .  . | .  .  .  .  4  5  .  .
acts ,checked          | 0  1  2  3  4  .  .  7 | 0  1  2  3  4  .  .  7
acts ,!checked         | .  .  .  .  .  5  6  . | .  .  .  .  .  5  6  .
acts ,sealed           | 0  1  2  3  4  5  .  7 | 0  1  2  3  4  5  .  7
acts ,!sealed          | .  .  .  .  .  .  6  . | .  .  .  .  .  .  6  .
acts ,opened           | 0  1  2  3  4  5  6  . | 0  1  2  3  4  5  6  .
acts ,!opened          | .  .  .  .  .  .  .  7 | .  .  .  .  .  .  .  7
output =               | 0  1  2  3  .  .  .  . | 0  1  2  3  .  .  .  .
output +00             | 0  1  2  3  4  y6 y6 y6 | 0  1  2  3  4  6  7  8
outcome =reply         | .  .  .  .  .  .  6  . | .  .  .  .  .  .  6  .
outcome =final         | 0  1  2  3  4  5  .  . | 0  1  2  3  4  5  .  .
outcome =finished      | 0  1  2  3  4  5  6  . | 0  1  2  3  4  5  6  .
outcome =InvalidToken  | 0  1  2  3  4  5  6  . | 0  1  2  3  4  5  6  .
message ;version=7     | 0  1  2  3  4  5  6  . | y  2  2  3  4  5  6  .
message ;nego=-        | 0  1  2  3  .  .  .  . | 0  1  2  3  .  .  .  .
message ;nego=         | 0  1  2  3  4  5  6  . | 0  1  2  3  4  5  6  .
message ;nego=00       | 0  1  2  3  4  5  6  . | 0  1  2  3  4  5  6  .
message ;auth=-        | .  .  .  .  .  .  6  . | .  .  .  .  .  .  6  .
message ;auth=s        | 0  1  2  3  4  5  6  . | 0  1  2  3  4  5  6  .
message ;auth=l        | 0  1  2  3  4  5  6  . | 0  1  2  3  4  5  7  .
message ;proof=-       | .  .  .  .  4  5  .  . | .  .  .  .  4  5  .  .
message ;proof=s       | 0  1  2  3  4  5  6  . | 0  1  2  3  4  5  6  .
message ;proof=l       | 0  1  2  3  4  5  6  . | 0  1  2  3  5  6  6  .
message ;code=c0000022 | 0  1  2  3  4  5  6  . | 0  1  2  3  4  5  6  .
message ;code=0        | 0  1  2  3  4  5  6  . | 0  1  2  3  4  5  6  .
bare =InvalidToken     | 0  1  2  3  4  5  6  7 | y  1  3  3  5  5  7  7
both ;version=7        | 0  1  2  3  4  5  6  . | 0  2  2  3  4  5  6  .
both ;auth=l           | 0  1  2  3  4  5  6  . | 0  2  3  4  5  6  7  .
both ;proof=l          | 0  1  2  3  4  5  6  . | 0  2  3  3  5  6  6  .
both ;code=0           | 0  1  2  3  4  5  6  . | 0  2  3  4  5  6  7  .
both ;code=c0000022    | 0  1  2  3  4  5  6  . | 0  2  2  4  4  6  6  .
both ;nonce=1          | 0  1  2  3  4  5  6  . | 0  2  3  4  5  6  7  .";

/// At version 6 only.
const WITH_NONCES: &str = "\
given ;nonce=-   | .  .  .  .  .  5  6  7 | .  .  .  .  .  5  6  8
message ;nonce=- | .  .  .  .  4  5  6  . | .  .  .  .  4  5  6  .
message ;nonce=1 | 0  1  2  3  4  5  6  . | 0  1  2  3  5  5  6  .
both ;nonce=-    | .  .  .  .  4  5  6  . | .  .  .  .  4  5  7  .";

/// At version 4 only.
const WITHOUT_NONCES: &str = "\
message ;nonce=- | .  .  .  .  4  .  .  . | .  .  .  .  4  .  .  .
message ;nonce=1 | 0  1  2  3  y6 5  6  . | 0  1  2  3  5  5  6  .
both ;nonce=-    | .  .  .  .  4  .  .  . | .  .  .  .  4  .  .  .";

/// The entries, at either version.
const ENTRIES: &str = "\
from =client  | .  1  .  3  .  5  .
from =server  | 0  .  2  .  4  .  6
sent =        | 0  1  2  3  4  5  6
sent ~        | 0  1  2  3  4  5  6
sent +00      | 0  1  2  3  4  5  6
delivered =   | 1  2  3  4  5  6  7
delivered ~   | 1  2  3  4  5  6  7
delivered +00 | y6 y6 y6 y6 y6 y6 y6
ended =no     | 1  2  3  4  5  6  7";

/// Turns and entries that are missing, doubled or swapped with the next, at either version.
const ORDERS: &str = "\
turns missing   | 0  1  2  3  4  5  6  y6
turns doubled   | 1  2  3  4  5  6  7  8
turns swapped   | 0  1  2  3  4  5  6  .
entries missing | 0  1  2  3  4  5  8
entries doubled | 1  2  3  4  5  6  7
entries swapped | 0  1  2  3  4  5  .";

const AT_6: Whole<'_> = Whole {
    exchange: EXCHANGE,
    turns: "01234567",
    entries: "abcdefg",
};

const AT_4: Whole<'_> = Whole {
    exchange: OLD,
    turns: "01234567",
    entries: "abcdefg",
};

#[test]
fn at_version_6(rt: HostRuntime) {
    turns_are_judged(&rt, AT_6, TURNS, 608);
    turns_are_judged(&rt, AT_6, WITH_NONCES, 32);
    entries_are_judged(&rt, AT_6, ENTRIES, 56);
    orders_are_judged(&rt, AT_6, ORDERS, 43);
}

#[test]
fn at_version_4(rt: HostRuntime) {
    turns_are_judged(&rt, AT_4, TURNS, 608);
    turns_are_judged(&rt, AT_4, WITHOUT_NONCES, 18);
    entries_are_judged(&rt, AT_4, ENTRIES, 56);
    orders_are_judged(&rt, AT_4, ORDERS, 43);
}
