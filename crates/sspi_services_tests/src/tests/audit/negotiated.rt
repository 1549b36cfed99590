//! Records of a SPNEGO negotiation of NTLM, at version 6 and at version 4.

use crate::tests::audit::records::are_judged;

/// The same, negotiated (RFC 4178): NTLM alone is offered and picked, and both ends show a MIC.
pub const EXCHANGE: &str = "\
0 end=client given=F acts=step,continue output=602206062b0601050502a0183016a00e300c060a2b06010401823702020aa20404024e31 outcome=re\
ply message=A
1 end=server given=A acts=step,continue output=a1233021a0030a0101a10c060a2b06010401823702020aa20c040a4e320000000000000000 outcome=\
reply message=B
2 end=client given=B acts=step,continue output=a14a3048a0030a0101a22d042b4e330700444f4d5c616e6e34ddc90ba7ffb071634b466e4d8ecefc8e5\
7189f71f0576ac2bb6e173cf15e3fa31204109579e8b49db2332ae5f5d92fc9491e35 outcome=reply message=C
3 end=server given=C acts=step,ok output=a11b3019a0030a0100a31204107388f4f863f9ef7566d4e6ab5f8de814 outcome=reply message=D
4 end=client given=D acts=step,ok,proved output= outcome=reply message=E
5 end=server given=E acts=checked,proved output= outcome=reply message=G
6 end=client given=G acts=checked,sealed output= outcome=final message=H
7 end=server given=H acts=opened output= outcome=finished message=-
a from=client sent=A delivered=A ended=yes
b from=server sent=B delivered=B ended=yes
c from=client sent=C delivered=C ended=yes
d from=server sent=D delivered=D ended=yes
e from=client sent=E delivered=E ended=yes
f from=server sent=G delivered=G ended=yes
g from=client sent=H delivered=H ended=yes
F 3005a003020106
s 000000000000000000000000000000
l 00000000000000000000000000000000
A 3033a003020106a12c302a3028a0260424602206062b0601050502a0183016a00e300c060a2b06010401823702020aa20404024e31
B 3034a003020106a12d302b3029a0270425a1233021a0030a0101a10c060a2b06010401823702020aa20c040a4e320000000000000000
C 305ba003020106a15430523050a04e044ca14a3048a0030a0101a22d042b4e330700444f4d5c616e6e34ddc90ba7ffb071634b466e4d8ecefc8e57189f71f057\
6ac2bb6e173cf15e3fa31204109579e8b49db2332ae5f5d92fc9491e35
D 302ca003020106a12530233021a01f041da11b3019a0030a0100a31204107388f4f863f9ef7566d4e6ab5f8de814
E 305da003020106a3320430507e00ce75d8eebf639da627511157b3e1e0e7bbbd1efcbe459a5253b2f0839a676027203f86155c53b75ceb87f89c4ca522042000\
00000000000000000000000000000000000000000000000000000000000000
G 305da003020106a332043078cc8c57f30bd91a89321eab210cec4eb4f2c13c3a9badf1d36d23a85d33afc979a1ffec6a9fcc3e9b7026299ad0c77ea522042000\
00000000000000000000000000000000000000000000000000000000000000
H 3066a003020106a23b0439a5410dbaf6a0ebe3683e10cab62877af3027a003020101a120041e301ca008040644004f004d00a108040661006e006e00a2060404\
70007700a52204200000000000000000000000000000000000000000000000000000000000000000";

/// The same at version 4, whose requests have no nonce on the wire.
pub const OLD: &str = "\
0 end=client given=F acts=step,continue output=602206062b0601050502a0183016a00e300c060a2b06010401823702020aa20404024e31 outcome=re\
ply message=A
1 end=server given=A acts=step,continue output=a1233021a0030a0101a10c060a2b06010401823702020aa20c040a4e320000000000000000 outcome=\
reply message=B
2 end=client given=B acts=step,continue output=a14a3048a0030a0101a22d042b4e330700444f4d5c616e6e34ddc90ba7ffb071634b466e4d8ecefc8e5\
7189f71f0576ac2bb6e173cf15e3fa31204109579e8b49db2332ae5f5d92fc9491e35 outcome=reply message=C
3 end=server given=C acts=step,ok output=a11b3019a0030a0100a31204107388f4f863f9ef7566d4e6ab5f8de814 outcome=reply message=D
4 end=client given=D acts=step,ok,proved output= outcome=reply message=E;nonce=0
5 end=server given=E acts=checked,proved output= outcome=reply message=G
6 end=client given=G acts=checked,sealed output= outcome=final message=H
7 end=server given=H acts=opened output= outcome=finished message=-
a from=client sent=A delivered=A ended=yes
b from=server sent=B delivered=B ended=yes
c from=client sent=C delivered=C ended=yes
d from=server sent=D delivered=D ended=yes
e from=client sent=E delivered=E ended=yes
f from=server sent=G delivered=G ended=yes
g from=client sent=H delivered=H ended=yes
F 3005a003020106
s 000000000000000000000000000000
l 00000000000000000000000000000000
A 3033a003020104a12c302a3028a0260424602206062b0601050502a0183016a00e300c060a2b06010401823702020aa20404024e31
B 3034a003020104a12d302b3029a0270425a1233021a0030a0101a10c060a2b06010401823702020aa20c040a4e320000000000000000
C 305ba003020104a15430523050a04e044ca14a3048a0030a0101a22d042b4e330700444f4d5c616e6e34ddc90ba7ffb071634b466e4d8ecefc8e57189f71f057\
6ac2bb6e173cf15e3fa31204109579e8b49db2332ae5f5d92fc9491e35
D 302ca003020104a12530233021a01f041da11b3019a0030a0100a31204107388f4f863f9ef7566d4e6ab5f8de814
E 301ca003020104a31504134daa99e530c860659b4f24f6cdddbd02010203
G 301ca003020104a31504131807f95449f293cad6b71173246adcef020203
H 3042a003020104a23b0439a5410dbaf6a0ebe3683e10cab62877af3027a003020101a120041e301ca008040644004f004d00a108040661006e006e00a2060404\
70007700";

/// The verdicts at either version.
const BOTH: &str = "\
yes6 01234567 abcdefg
yes- 0123 abc
yes- 012345 abcdef
no6 01234567 abcdefg 6.acts=checked
no5 01234567 abcdefg e.delivered=E~
no8 01234567 abcde
no8 01234567 abcdef
no3 01234567 abcdefg 3.output=
no3 01234567 abcdefg 3.acts=step,complete,proved
no5 01234567 abcdefg 3.acts=step,continue
yes6 01234567 abcdefg 3.acts=step,complete
no4 01234567 abcdefg 4.acts=step,continue
no2 01234567 abcdefg 2.acts=step,ok,proved
no5 01234567 abcdefg 5.acts=step,complete,checked,proved
no5 01234567 abcdefg 5.acts=proved
no5 01234567 abcdefg 5.acts=checked
yes- 012345 abcde 5.outcome=InvalidToken 5.message=E;nego=-;proof=-;code=c0070308
no5 012345 abcde 5.outcome=InvalidToken 5.message=E;nego=-;code=c0070308
no5 01234567 abcdefg 5.message=G;nego=00
no4 01234 abcd 4.message=E;nonce=-";

/// At version 6 only.
const NEW: &str = "\
no5 012345 abcd 5.given=E;nonce=- 5.message=G;nonce=-
no4 01234 abcde 4.message=E;nonce=1";

/// At version 4 only.
const BELOW: &str = "\
no6 012345 abcd 5.given=E;nonce=- 5.message=G;nonce=-
no6 012345 abcd 5.given=E;nonce=1 5.message=G;nonce=1
yes- 01234 abcde 4.message=E;nonce=1";

#[test]
fn at_version_6(rt: HostRuntime) {
    are_judged(&rt, EXCHANGE, BOTH);
}

#[test]
fn at_version_4(rt: HostRuntime) {
    are_judged(&rt, OLD, BOTH);
}

#[test]
fn a_nonce_from_5_on(rt: HostRuntime) {
    are_judged(&rt, EXCHANGE, NEW);
}

#[test]
fn no_nonce_below_5(rt: HostRuntime) {
    are_judged(&rt, OLD, BELOW);
}
