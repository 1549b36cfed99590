//! What `audit_run` checks in addition to `audit`, on the exchange of `ntlm` and on those of
//! `negotiated`, changed by hand.
//!
//! `U` to `Y` of that exchange are encoded by hand from its own messages.

use crate::tests::audit::negotiated;
use crate::tests::audit::ntlm::EXCHANGE;
use crate::tests::audit::records::are_judged_by_both;

/// Records that no exchange leaves, which `audit` does not check for: a client that was told an
/// error, or another version, and still opened the proof and sealed its credentials; one that
/// sealed them, or its own proof, and was refused; a token without a step; and a last delivery of
/// which 1048582 bytes were taken, ended or not.
const LEFT_BY_NONE: &str = "\
yes4 no4 01234 abcd 4.given=U 4.outcome=InvalidToken 4.message=- d.delivered=U
yes4 no4 01234 abcd 4.given=U 4.outcome=LogonDenied 4.message=- d.delivered=U
yes4 no4 01234 abcd 4.given=V 4.outcome=MessageAltered 4.message=- d.delivered=V
yes4 no4 01234 abcd 4.outcome=LogonDenied 4.message=-
yes4 no4 01234 abcd 4.outcome=InsufficientMemory 4.message=-
yes- no2 012 ab 2.outcome=LogonDenied 2.message=-
yes- no2 012 ab 2.outcome=InsufficientMemory 2.message=-
yes4 no4 012345 abcde 4.output=00
yes4 no5 01234 abcde e.delivered=E+00*1048478
yes4 no5 01234 abcde e.delivered=E+00*1048478 e.ended=no";

/// The same if the client did nothing, or only what it may; and deliveries of 1048581 bytes and
/// fewer.
const NEXT_TO_THEM: &str = "\
yes- yes- 01234 abcd 4.given=U 4.acts=- 4.outcome=InvalidToken 4.message=- d.delivered=U
yes- no4 01234 abcd 4.given=U 4.acts=- 4.outcome=LogonDenied 4.message=- d.delivered=U
yes- no4 01234 abcd 4.given=U 4.acts=checked 4.outcome=InvalidToken 4.message=- d.delivered=U
yes- yes- 01234 abcd 4.given=V 4.acts=- 4.outcome=MessageAltered 4.message=- d.delivered=V
yes- no4 01234 abcd 4.given=V 4.acts=- 4.outcome=LogonDenied 4.message=- d.delivered=V
yes- yes- 01234 abcd 4.acts=checked 4.outcome=MessageAltered 4.message=-
yes- yes- 01234 abcd 4.acts=checked 4.outcome=InsufficientMemory 4.message=-
yes- yes- 01234 abcd 4.acts=- 4.outcome=LogonDenied 4.message=-
yes4 yes4 01234 abcde e.delivered=E+00*1048477
yes4 yes4 01234 abcde e.delivered=E+00*1048477 e.ended=no
yes4 yes4 01234 abcde e.delivered= e.ended=no
yes4 yes4 01234 abcde";

/// What two ends leave, whole and up to each turn.
const LEFT_BY_TWO: &str = "\
yes4 yes4 012345 abcde
yes4 yes4 01234 abcd
yes- yes- 0123 abcd
yes- yes- 0123 abc
yes- yes- 012 abc
yes- yes- 012 ab
yes- yes- 01 ab
yes- yes- 01 a
yes- yes- 0 a
yes- yes- 0 -
yes- yes- - -
no4 no4 012345 abcde 4.acts=checked
no3 no3 012345 abcde c.delivered=C~
no6 no6 012345 abc";

/// Refusals of the first two turns: of a context that is not made, of a step, of a step that ends
/// too early, and out of memory.
const EARLY_REFUSALS: &str = "\
yes- yes- 0 - 0.acts=- 0.output= 0.outcome=LogonDenied 0.message=-
yes- yes- 0 - 0.acts=step 0.output= 0.outcome=LogonDenied 0.message=-
yes- no0 0 - 0.acts=step,continue 0.outcome=LogonDenied 0.message=-
yes- yes- 0 - 0.acts=step,continue 0.outcome=InsufficientMemory 0.message=-
yes- yes- 0 - 0.acts=step,ok 0.outcome=InternalError 0.message=-
yes- no0 0 - 0.acts=step,ok 0.outcome=LogonDenied 0.message=-
yes- no0 0 - 0.acts=step 0.outcome=LogonDenied 0.message=-
yes- yes- 01 a 1.acts=- 1.output= 1.outcome=LogonDenied 1.message=A;nego=-;code=c007030c
yes- no1 01 a 1.acts=step,continue 1.outcome=LogonDenied 1.message=A;nego=-;code=c007030c
yes- yes- 01 a 1.acts=step 1.output= 1.outcome=LogonDenied 1.message=A;nego=-;code=c007030c
yes- yes- 012 ab 2.acts=- 2.output= 2.outcome=DowngradeDetected 2.message=-
yes- no2 012 ab 2.acts=- 2.output= 2.outcome=LogonDenied 2.message=-
yes- no2 012 ab 2.acts=step 2.output=00 2.outcome=LogonDenied 2.message=-
yes- yes- 012 ab 2.acts=step 2.output= 2.outcome=LogonDenied 2.message=-
yes- yes- 012 ab 2.acts=step,ok 2.outcome=LogonDenied 2.message=-
yes- yes- 012 ab 2.acts=step,ok 2.outcome=InsufficientMemory 2.message=-";

/// A server's refusals: by its effects, its version in the error request, and what was taken of
/// that request, which no end reads.
const SERVER_REFUSALS: &str = "\
yes- yes- 0123 abc 3.acts=step,complete,checked 3.outcome=MessageAltered 3.message=C;nego=-;code=c007030f
yes- yes- 0123 abcd 3.acts=step,complete,checked 3.outcome=MessageAltered 3.message=C;nego=-;code=c007030f d.sent=Y d.delivered= d.ended=no
yes- no4 0123 abcd 3.acts=step,complete,checked 3.outcome=MessageAltered 3.message=C;nego=-;code=c007030f d.sent=Y d.delivered=Y
yes- no4 0123 abcd 3.acts=step,complete,checked 3.outcome=MessageAltered 3.message=C;nego=-;code=c007030f d.sent=Y d.delivered=
yes- no3 0123 abc 3.acts=- 3.output= 3.outcome=LogonDenied 3.message=C;nego=-;code=c007030c
yes- no3 0123 abc 3.outcome=LogonDenied 3.message=C;nego=-;code=c007030c
yes- yes- 0123 abc 3.acts=step,complete 3.outcome=LogonDenied 3.message=C;nego=-;code=c007030c
yes- no3 0123 abc 3.acts=step,continue 3.outcome=LogonDenied 3.message=C;nego=-;code=c007030c
yes- no3 0123 abc 3.given=W 3.acts=step,complete,checked 3.outcome=MessageAltered 3.message=C;nonce=-;nego=-;code=c007030f c.delivered=W
yes- yes- 0123 abc 3.given=W 3.acts=step,complete 3.outcome=InvalidToken 3.message=C;nonce=-;nego=-;code=c0070308 c.delivered=W
yes- yes- 0123 abc 3.given=X 3.acts=- 3.output= 3.outcome=MessageAltered 3.message=C;nego=-;code=c007030f;version=5 c.delivered=X
yes- no3 0123 abc 3.given=X 3.acts=- 3.output= 3.outcome=MessageAltered 3.message=C;nego=-;code=c007030f c.delivered=X
yes- no3 0123 abc 3.given=X 3.outcome=MessageAltered 3.message=C;nego=-;code=c007030f;version=5 c.delivered=X
yes4 yes4 012345 abcde 5.outcome=InvalidToken 5.message=E;auth=-;code=c0070308
yes4 no5 012345 abcde 5.outcome=LogonDenied 5.message=E;auth=-;code=c007030c
yes4 yes4 012345 abcde 5.acts=- 5.outcome=LogonDenied 5.message=E;auth=-;code=c007030c";

/// The same exchange by SPNEGO.
const NEGOTIATED: &str = "\
yes6 yes6 01234567 abcdefg
yes- yes- 012345 abcdef
yes- yes- 012345 abcde
yes6 no6 0123456 abcdef 6.outcome=LogonDenied 6.message=-
yes- no4 01234 abcd 4.acts=- 4.outcome=LogonDenied 4.message=-
yes- yes- 012345 abcde 5.acts=- 5.outcome=LogonDenied 5.message=E;code=c007030c;proof=-";

#[test]
fn records_that_no_exchange_leaves(rt: HostRuntime) {
    are_judged_by_both(&rt, EXCHANGE, LEFT_BY_NONE);
}

#[test]
fn records_next_to_them(rt: HostRuntime) {
    are_judged_by_both(&rt, EXCHANGE, NEXT_TO_THEM);
}

#[test]
fn what_two_ends_left(rt: HostRuntime) {
    are_judged_by_both(&rt, EXCHANGE, LEFT_BY_TWO);
}

#[test]
fn early_refusals(rt: HostRuntime) {
    are_judged_by_both(&rt, EXCHANGE, EARLY_REFUSALS);
}

#[test]
fn a_servers_refusals(rt: HostRuntime) {
    are_judged_by_both(&rt, EXCHANGE, SERVER_REFUSALS);
}

#[test]
fn by_spnego(rt: HostRuntime) {
    are_judged_by_both(&rt, negotiated::EXCHANGE, NEGOTIATED);
}
