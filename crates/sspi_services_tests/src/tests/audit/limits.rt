//! How much of a delivery and of a message an audit reads.

use crate::tests::audit::ntlm::EXCHANGE;
use crate::tests::audit::records::are_judged;

/// A delivery is taken to its end or to 1048581 bytes and no further. After its request, one of
/// that length may have any rest; a shorter one must have ended.
const DELIVERIES: &str = "\
yes4 012345 abcde a.delivered=A+00*1048562
yes4 012345 abcde a.delivered=A+00*1048562 a.ended=no
no1 012345 abcde a.delivered=A+00*1048563
no1 012345 abcde a.delivered=A+00*1048563 a.ended=no
no1 012345 abcde a.delivered=A+00*1048561 a.ended=no
no1 012345 abcde a.delivered=A~+00*1048562 a.ended=no
no1 012345 abcde a.delivered=B+00*1048554 a.ended=no
no1 012345 abcde a.delivered=00*1048581 a.ended=no";

/// A message of 1048581 bytes is compared with what was sent, and with what the next turn was
/// given, to its last byte. A longer one has no encoding.
const MESSAGES: &str = "\
yes4 012345 abcde 4.message=E;auth=00*1048525 5.given=E;auth=00*1048525 e.sent=h+00*1048525+n e.delivered=h+00*1048525+n
yes4 012345 abcde 4.message=E;auth=00*1048525 5.given=E;auth=00*1048525 e.sent=h+00*1048525+n e.delivered=h+00*1048525+n e.ended=no
no5 012345 abcde 4.message=E;auth=00*1048525 5.given=E;auth=00*1048525 e.sent=h+00*1048525+n e.delivered=h+00*1048525+n~ e.ended=no
no4 012345 abcde 4.message=E;auth=00*1048525 5.given=E;auth=00*1048525 e.sent=h+00*1048525+n~ e.delivered=h+00*1048525+n e.ended=no
no5 012345 abcde 4.message=E;auth=00*1048525 5.given=E;auth=00*1048524+01 e.sent=h+00*1048525+n e.delivered=h+00*1048525+n
no4 012345 abcde 4.message=E;auth=00*1048524+01 5.given=E;auth=00*1048525 e.sent=h+00*1048525+n e.delivered=h+00*1048525+n
yes4 01234 abcde 4.message=E;auth=00*1048525 e.sent=h+00*1048525+n e.delivered= e.ended=no
yes4 01234 abcd 4.message=E;auth=00*1048526
no4 01234 abcde 4.message=E;auth=00*1048526 e.sent=h+00*1048525+n
no4 01234 abcde 4.message=E;auth=00*1048526 e.sent=3083100001a003020106a2830fffd304830fffce+00*1048526+n";

#[test]
fn deliveries(rt: HostRuntime) {
    are_judged(&rt, EXCHANGE, DELIVERIES);
}

#[test]
fn messages(rt: HostRuntime) {
    are_judged(&rt, EXCHANGE, MESSAGES);
}
