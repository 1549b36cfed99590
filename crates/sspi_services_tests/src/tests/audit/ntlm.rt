//! A record of plain NTLM, whole and with one part changed.

use crate::tests::audit::records::are_judged;

/// DOM\ann with the password pw over the channel of the key 010203, both ends at version 6, nonce
/// and challenge of zeros: the report of this exchange has its messages. `h` and `n` are what comes
/// before and after 1048525 octets of credentials in a message of the greatest length. `U` is `D`
/// with the `errorCode` `[4]` after `pubKeyAuth` (MS-CSSP 2.2.1). `V` is `D` of version 5, `W` is
/// `C` without its nonce, and `X` is `C` of version 5. `Y` is the error request that answers an
/// altered `C`.
pub const EXCHANGE: &str = "\
0 end=client given=F acts=step,continue output=4e31 outcome=reply message=A
1 end=server given=A acts=step,continue output=4e320000000000000000 outcome=reply message=B
2 end=client given=B acts=step,ok,proved output=4e330700444f4d5c616e6e34ddc90ba7ffb071634b466e4d8ecefc8e57189f71f0576ac2bb6e173cf1\
5e3f outcome=reply message=C
3 end=server given=C acts=step,complete,checked,proved output= outcome=reply message=D
4 end=client given=D acts=checked,sealed output= outcome=final message=E
5 end=server given=E acts=opened output= outcome=finished message=-
a from=client sent=A delivered=A ended=yes
b from=server sent=B delivered=B ended=yes
c from=client sent=C delivered=C ended=yes
d from=server sent=D delivered=D ended=yes
e from=client sent=E delivered=E ended=yes
h 3083100000a003020106a2830fffd204830fffcd
n a52204200000000000000000000000000000000000000000000000000000000000000000
F 3005a003020106
s 000000000000000000000000000000
l 00000000000000000000000000000000
A 3011a003020106a10a30083006a00404024e31
B 3019a003020106a1123010300ea00c040a4e320000000000000000
C 308192a003020106a1333031302fa02d042b4e330700444f4d5c616e6e34ddc90ba7ffb071634b466e4d8ecefc8e57189f71f0576ac2bb6e173cf15e3fa33204\
30507e00ce75d8eebf639da627511157b3e1e0e7bbbd1efcbe459a5253b2f0839a676027203f86155c53b75ceb87f89c4ca5220420000000000000000000000000\
0000000000000000000000000000000000000000
D 305da003020106a332043078cc8c57f30bd91a89321eab210cec4eb4f2c13c3a9badf1d36d23a85d33afc979a1ffec6a9fcc3e9b7026299ad0c77ea522042000\
00000000000000000000000000000000000000000000000000000000000000
E 3066a003020106a23b0439a5410dbaf6a0ebe3683e10cab62877af3027a003020101a120041e301ca008040644004f004d00a108040661006e006e00a2060404\
70007700a52204200000000000000000000000000000000000000000000000000000000000000000
U 3065a003020106a332043078cc8c57f30bd91a89321eab210cec4eb4f2c13c3a9badf1d36d23a85d33afc979a1ffec6a9fcc3e9b7026299ad0c77ea4060204\
c0000022a52204200000000000000000000000000000000000000000000000000000000000000000
V 305da003020105a332043078cc8c57f30bd91a89321eab210cec4eb4f2c13c3a9badf1d36d23a85d33afc979a1ffec6a9fcc3e9b7026299ad0c77ea5220420\
0000000000000000000000000000000000000000000000000000000000000000
W 306ea003020106a1333031302fa02d042b4e330700444f4d5c616e6e34ddc90ba7ffb071634b466e4d8ecefc8e57189f71f0576ac2bb6e173cf15e3fa33204\
30507e00ce75d8eebf639da627511157b3e1e0e7bbbd1efcbe459a5253b2f0839a676027203f86155c53b75ceb87f89c4c
X 308192a003020105a1333031302fa02d042b4e330700444f4d5c616e6e34ddc90ba7ffb071634b466e4d8ecefc8e57189f71f0576ac2bb6e173cf15e3fa332\
0430507e00ce75d8eebf639da627511157b3e1e0e7bbbd1efcbe459a5253b2f0839a676027203f86155c53b75ceb87f89c4ca522042000000000000000000000\
00000000000000000000000000000000000000000000
Y 3065a003020106a3320430507e00ce75d8eebf639da627511157b3e1e0e7bbbd1efcbe459a5253b2f0839a676027203f86155c53b75ceb87f89c4ca4060204\
c007030fa52204200000000000000000000000000000000000000000000000000000000000000000";

/// As it is, its prefixes, and turns and entries that are missing, doubled or swapped.
const WHOLE: &str = "\
yes4 012345 abcde
yes- 01 a
yes- 01 ab
yes- - -
yes- 0 -
yes- 0123 abc
yes4 01234 abcd
yes4 01234 abcde
no4 012345 abcde 4.acts=checked
no3 012345 abcde c.delivered=C~
no6 012345 abc
no6 012345 abcd
no5 012345 abcdea
no0 - a
no2 01 -
no2 01 abc
no0 012345 bcde
no1 012345 acde
no4 012345 abcd 4.given=C
no1 012345 aabcde
no2 012345 abdce
no0 12345 abcde
no1 02345 abcde
no1 0012345 abcde
no2 013245 abcde
no2 014325 abcde
no1 032145 abcde
no6 0123450 abcde";

/// The client's first turn.
const FIRST: &str = "\
no0 012345 abcde 0.end=server
no0 012345 abcde 0.given=A
no0 012345 abcde 0.given=F;version=5
no0 012345 abcde 0.given=F;proof=l
no0 012345 abcde 0.acts=-
no0 012345 abcde 0.acts=step
no0 012345 abcde 0.acts=continue
no0 012345 abcde 0.acts=step,ok
no0 012345 abcde 0.acts=step,continue,proved
no0 012345 abcde 0.acts=step,continue,checked
no0 012345 abcde 0.acts=step,continue,sealed
no0 012345 abcde 0.acts=step,continue,opened
yes4 012345 abcde 0.acts=step,complete
yes4 012345 abcde 0.acts=step,local
no0 012345 abcde 0.output=4e33
no0 012345 abcde 0.output=
no0 012345 abcde 0.outcome=final
no0 012345 abcde 0.outcome=finished
no0 012345 abcde 0.outcome=InvalidToken
no0 012345 abcde 0.outcome=InvalidToken 0.message=-
yes- 0 - 0.outcome=InvalidToken 0.message=-
yes- 0 - 0.acts=- 0.output= 0.outcome=InvalidToken 0.message=-
no1 01 - 0.outcome=InvalidToken 0.message=-
no0 0 a 0.message=A;version=5
yes- 0 - 0.message=A;version=5
no0 0 - 0.message=A;nego=-
no0 0 - 0.message=A;nego=4e32
no0 0 - 0.message=A;auth=00
no0 0 - 0.message=A;proof=00
no0 0 - 0.message=A;code=c0000022
no0 0 - 0.message=A;nonce=0";

/// The server's first turn.
const SECOND: &str = "\
no1 012345 abcde 1.end=client
no1 012345 abcde 1.given=B
no1 012345 abcde 1.given=A;version=5
no1 012345 abcde 1.acts=-
no1 012345 abcde 1.acts=step
no1 012345 abcde 1.acts=continue
no1 012345 abcde 1.acts=step,local
no1 012345 abcde 1.acts=step,continue,checked
no1 012345 abcde 1.acts=step,complete,checked
no1 012345 abcde 1.acts=step,continue,proved
no1 012345 abcde 1.acts=step,continue,sealed
no1 012345 abcde 1.acts=step,continue,opened
yes- 01 ab 1.acts=step,complete
yes- 01 ab 1.acts=step,ok
no3 012345 abcde 1.acts=step,complete
no1 012345 abcde 1.output=4e32
yes- 01 a 1.output= 1.message=B;nego=
no1 01 a 1.output= 1.message=B;nego=-
no1 01 a 1.acts=step,complete 1.output= 1.message=B;nego=
no1 012345 abcde 1.outcome=final
no1 012345 abcde 1.outcome=finished
no1 01 a 1.outcome=InvalidToken 1.message=-
no1 01 ab 1.message=B;version=5
yes- 01 a 1.message=B;version=5
no1 01 a 1.message=B;nego=-
no1 01 a 1.message=B;auth=00
no1 01 a 1.message=B;proof=00
no1 01 a 1.message=B;code=c0000022
no1 01 a 1.message=B;nonce=0";

/// The client's turn with its proof. If its entry is missing, its message is not looked for there.
const THIRD: &str = "\
no2 012345 abcde 2.end=server
no2 012345 abcde 2.given=B;version=5
no3 012 a
no3 012 a 2.given=B;version=5
no2 012 a 2.given=B;code=c0000022 2.message=C;code=c0000022
no3 012 a 2.given=B;code=0 2.message=C;code=0
no3 012 a 2.given=B;code=c0000022 2.outcome=InvalidToken 2.message=-
no2 012345 abcde 2.acts=-
no2 012345 abcde 2.acts=step,proved
no2 012345 abcde 2.acts=ok,proved
no2 012345 abcde 2.acts=step,ok
no2 012345 abcde 2.acts=step,continue,proved
no2 012345 abcde 2.acts=step,ok,proved,checked
no2 012345 abcde 2.acts=step,ok,proved,sealed
no2 012345 abcde 2.acts=step,ok,proved,opened
no2 012345 abcde 2.output=4e33
yes- 012 ab 2.output= 2.message=C;nego=-
no2 012 ab 2.output= 2.message=C;nego=
no2 012 ab 2.outcome=final
no2 012 ab 2.outcome=finished
no2 012 ab 2.message=C;version=5
no2 012 ab 2.message=C;nego=-
no2 012 ab 2.message=C;auth=00
no2 012 ab 2.message=C;proof=-
no2 012 ab 2.message=C;proof=s
yes- 012 ab 2.message=C;proof=l
no2 012 ab 2.message=C;code=c0000022
no2 012 ab 2.message=C;nonce=-
yes- 012 ab 2.message=C;nonce=1";

/// The server's turn with its proof.
const FOURTH: &str = "\
no3 012345 abcde 3.end=client
no4 0123 ab
no3 0123 ab 3.given=C;version=5
no3 0123 ab 3.given=C;proof=s
no3 0123 ab 3.given=C;proof=-
no4 0123 ab 3.given=C;proof=l
no3 0123 ab 3.given=C;nonce=- 3.message=D;nonce=-
no4 0123 ab 3.given=C;nonce=1 3.message=D;nonce=1
no4 0123 ab 3.given=C;code=c0000022 3.message=D;code=c0000022
no3 012345 abcde 3.acts=-
no3 012345 abcde 3.acts=checked,proved
no3 012345 abcde 3.acts=step,complete
no3 012345 abcde 3.acts=step,complete,proved
no3 012345 abcde 3.acts=step,complete,checked
no3 012345 abcde 3.acts=step,continue,checked,proved
yes4 012345 abcde 3.acts=step,ok,checked,proved
no3 012345 abcde 3.acts=step,complete,checked,proved,sealed
no3 012345 abcde 3.acts=step,complete,checked,proved,opened
no3 0123 abc 3.outcome=final
no3 0123 abc 3.outcome=finished
no3 0123 abc 3.message=D;version=5
no3 0123 abc 3.message=D;nego=00
no3 0123 abc 3.message=D;auth=00
no3 0123 abc 3.message=D;proof=-
no3 0123 abc 3.message=D;proof=s
yes- 0123 abc 3.message=D;proof=l
no3 0123 abc 3.message=D;code=c0000022
no3 0123 abc 3.message=D;nonce=-
no3 0123 abc 3.message=D;nonce=1";

/// The server's refusals, and what follows one.
const REFUSED: &str = "\
yes- 0123 abc 3.outcome=MessageAltered 3.message=C;nego=-;code=c007030f
yes- 0123 abc 3.outcome=InvalidToken 3.message=C;nego=-;code=c0070308
yes- 0123 abc 3.outcome=LogonDenied 3.message=C;nego=-;code=c007030c
yes- 0123 abc 3.acts=- 3.outcome=LogonDenied 3.message=C;nego=-;code=c007030c
no3 0123 abc 3.outcome=MessageAltered 3.message=-
no3 0123 abc 3.outcome=MessageAltered 3.message=C;nego=-;code=c0070308
no3 0123 abc 3.outcome=MessageAltered 3.message=C;nego=-
no3 0123 abc 3.outcome=MessageAltered 3.message=C;code=c007030f
no3 0123 abc 3.outcome=MessageAltered 3.message=C;nego=-;code=c007030f;version=5
no3 0123 abc 3.outcome=MessageAltered 3.message=C;nego=-;code=c007030f;proof=-
no3 0123 abc 3.outcome=MessageAltered 3.message=C;nego=-;code=c007030f;auth=00
no3 0123 abc 3.outcome=MessageAltered 3.message=C;nego=-;code=c007030f;nonce=-
no3 0123 abc 3.acts=step,complete,proved 3.outcome=MessageAltered 3.message=C;nego=-;code=c007030f
no4 01234 abc 3.outcome=MessageAltered 3.message=C;nego=-;code=c007030f
no3 01234 abcd 3.outcome=MessageAltered 3.message=C;nego=-;code=c007030f
no4 0123 ab 3.given=C;nonce=- 3.acts=step,complete,checked 3.outcome=InvalidToken 3.message=C;nonce=-;nego=-;code=c0070308
no3 0123 ab 3.given=C;nonce=- 3.outcome=InvalidToken 3.message=C;nonce=-;nego=-;code=c0070308
no4 0123 a 1.message=B;version=7 2.given=B;version=7 3.message=D;version=7
no3 0123 a 1.message=B;version=7 2.given=B;version=7
no4 0123 a 1.message=B;version=7 2.given=B;version=7 3.outcome=LogonDenied 3.message=C;nego=-;code=c007030c
no4 0123 a 1.message=B;version=7 2.given=B;version=7 3.outcome=LogonDenied 3.message=C;nego=-;code=c007030c;version=7
no3 0123 a 1.message=B;version=7 2.given=B;version=7 3.outcome=LogonDenied 3.message=C;nego=-;code=c007030c;version=5
no4 0123 ab 3.given=C;version=5 3.outcome=MessageAltered 3.message=C;nego=-;code=c007030f;version=5
no4 0123 ab 3.given=C;version=5 3.outcome=MessageAltered 3.message=C;nego=-;code=c007030f;version=6
no3 0123 ab 3.given=C;version=5 3.outcome=MessageAltered 3.message=C;nego=-;code=c007030f;version=4
yes- 01 a 1.outcome=LogonDenied 1.message=A;nego=-;code=c007030c
yes- 01 a 1.outcome=LogonDenied 1.message=A;nego=-;code=c007030c;version=9
no1 01 a 1.outcome=LogonDenied 1.message=A;code=c007030c";

/// The turns that hand over the credentials.
const LAST: &str = "\
no4 012345 abcde 4.end=server
no5 01234 abc
no4 01234 abc 4.given=D;proof=-
no4 01234 abc 4.given=D;proof=s
no5 01234 abc 4.given=D;proof=l
no4 01234 abc 4.given=D;version=5
no4 01234 abc 4.given=D;code=c0000022 4.message=E;code=c0000022
no4 012345 abcde 4.acts=-
no4 012345 abcde 4.acts=sealed
no4 012345 abcde 4.acts=step,checked,sealed
no4 012345 abcde 4.acts=ok,checked,sealed
no4 012345 abcde 4.acts=checked,sealed,proved
no4 012345 abcde 4.acts=checked,sealed,opened
no4 012345 abcde 4.outcome=reply
no4 01234 abcd 4.outcome=finished
yes4 01234 abcd 4.outcome=InvalidToken 4.message=-
yes- 01234 abcd 4.acts=checked 4.outcome=InvalidToken 4.message=-
no4 01234 abcd 4.acts=sealed 4.outcome=InvalidToken 4.message=-
no4 01234 abcd 4.message=E;version=5
no4 01234 abcd 4.message=E;nego=00
no4 01234 abcd 4.message=E;proof=l
no4 01234 abcd 4.message=E;auth=-
no4 01234 abcd 4.message=E;auth=s
yes4 01234 abcd 4.message=E;auth=l
no4 01234 abcd 4.message=E;code=c0000022
no4 01234 abcd 4.message=E;nonce=-
no5 012345 abcde 5.end=client
no6 012345 abcd
no5 012345 abcd 5.given=E;auth=-
no5 012345 abcd 5.given=E;auth=s
no6 012345 abcd 5.given=E;auth=l
no5 012345 abcd 5.given=E;version=5
no5 012345 abcde 5.acts=-
no5 012345 abcde 5.acts=opened,checked
no5 012345 abcde 5.acts=opened,proved
no5 012345 abcde 5.acts=opened,sealed
no5 012345 abcde 5.acts=opened,step
no5 012345 abcde 5.acts=opened,ok
no5 012345 abcde 5.outcome=reply 5.message=E
no5 012345 abcde 5.outcome=final 5.message=E
yes4 012345 abcde 5.outcome=InvalidToken 5.message=E;auth=-;code=c0070308
yes4 012345 abcde 5.acts=- 5.outcome=InvalidToken 5.message=E;auth=-;code=c0070308
no5 012345 abcde 5.outcome=InvalidToken 5.message=E;code=c0070308
no5 012345 abcde 5.outcome=InvalidToken 5.message=E;auth=-;nonce=-;code=c0070308";

/// The log.
const ENTRIES: &str = "\
no0 012345 abcde a.from=server
no1 012345 abcde b.from=client
no4 012345 abcde e.from=server
no0 012345 abcde a.sent=A~
no0 012345 abcde a.sent=
no0 012345 abcde a.sent=A+00
no1 012345 abcde b.sent=B~
no2 012345 abcde c.sent=C~
no3 012345 abcde d.sent=D~
no4 012345 abcde e.sent=E~
no1 012345 abcde a.delivered=A~
no2 012345 abcde b.delivered=B~
no4 012345 abcde d.delivered=D~
no5 012345 abcde e.delivered=E~
no1 012345 abcde a.delivered=
no1 012345 abcde a.delivered=B
yes4 012345 abcde a.delivered=A+ff00
no1 012345 abcde a.ended=no
no2 012345 abcde b.ended=no
no3 012345 abcde c.ended=no
no4 012345 abcde d.ended=no
no5 012345 abcde e.ended=no
yes4 01234 abcde e.ended=no
yes4 01234 abcde e.delivered=";

#[test]
fn whole(rt: HostRuntime) {
    are_judged(&rt, EXCHANGE, WHOLE);
}

#[test]
fn a_clients_first_turn(rt: HostRuntime) {
    are_judged(&rt, EXCHANGE, FIRST);
}

#[test]
fn a_servers_first_turn(rt: HostRuntime) {
    are_judged(&rt, EXCHANGE, SECOND);
}

#[test]
fn a_clients_proof(rt: HostRuntime) {
    are_judged(&rt, EXCHANGE, THIRD);
}

#[test]
fn a_servers_proof(rt: HostRuntime) {
    are_judged(&rt, EXCHANGE, FOURTH);
}

#[test]
fn a_servers_refusals(rt: HostRuntime) {
    are_judged(&rt, EXCHANGE, REFUSED);
}

#[test]
fn the_credentials(rt: HostRuntime) {
    are_judged(&rt, EXCHANGE, LAST);
}

#[test]
fn the_log(rt: HostRuntime) {
    are_judged(&rt, EXCHANGE, ENTRIES);
}
