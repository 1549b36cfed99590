//! Ends of which at least one begins with Kerberos.

use crate::tests::{reports_whole, shows_all};

/// The exchange of ann@example.com with the password pw over the channel of the key 010203, by
/// Kerberos with user-to-user authentication.
const KERBEROS: &str =
    "mode negotiate\nuser ann@example.com\npassword pw\nkey 010203\nclient-protocol kerberos\nserver-protocol kerberos\n\
    kdc EXAMPLE.COM tcp://kdc\nkdc-user ann@example.com\n\
    ticket 1111111111111111111111111111111111111111111111111111111111111111\n";

/// Its report. The KDC is asked twice: for the name alone, and with the server's ticket, for the
/// key of the session.
const REPORT: &str =
    "> 3049a003020106a1423040303ea03c043a603806062b0601050502a02e302ca024302206092a864882f71201020206092a864886f71201\
    0202060a2b06010401823702020aa20404024b31\n\
    < 304ba003020106a14430423040a03e043ca13a3038a0030a0101a10b06092a864882f712010202a22404224b3211111111111111111111\
    11111111111111111111111111111111111111111111\n\
    > 304fa003020106a14830463044a0420440a13e303ca0030a0101a23504334b330f00616e6e406578616d706c652e636f6d71d5a9a7407a\
    7991da048175ccce2b078f0d84b78f74713582a15b053e383f7a\n\
    < 3052a003020106a14b30493047a0450443a141303fa0030a0101a22404224b343c34c038ced82980f046baf5d725e5454c311d0dfd4704\
    5c6ccf0becdc2df804a3120410c500603d7e26fc675efee085dd10bd17\n\
    > 308184a003020106a12530233021a01f041da11b3019a0030a0100a31204108016927e463cd2d921ffbfb085a3515ea3320430471b0692\
    8d57ee35d907e86763db1396e1e0e7bbbd1efcbe459a5253b2f0839a676027203f86155c53b75ceb87f89c4ca52204200000000000000000\
    000000000000000000000000000000000000000000000000\n\
    < 305da003020106a33204305ff8ea3490d5e45d68580403ddc16304b4f2c13c3a9badf1d36d23a85d33afc979a1ffec6a9fcc3e9b702629\
    9ad0c77ea52204200000000000000000000000000000000000000000000000000000000000000000\n\
    > 3078a003020106a24d044b2e8b70c7aee6947b4e73c9f6c08a29263039a003020101a1320430302ea0020400a120041e61006e006e0040\
    006500780061006d0070006c0065002e0063006f006d00a206040470007700a5220420000000000000000000000000000000000000000000\
    0000000000000000000000\n\
    ok 4 user=ann@example.com password=pw\n";

#[test]
fn both_ends_agree_on_kerberos(rt: HostRuntime) {
    reports_whole(&rt, rt.alloc(), "delegate", KERBEROS, REPORT);
}

/// Before its first message the client falls back to NTLM if the KDC is unknown, cannot be asked,
/// or refuses with one of four kinds; without NTLM, that is its refusal. Later, and for any other
/// kind, it is its refusal too.
const REPLIES: &str =
    "0 8|kdc-answer usual;|> 3049a003020106a1423040303ea03c043a603806062b0601050502a02e302ca024302206092a864882f71201020206\
     092a864886f712010202060a2b06010401823702020aa20404024b31;|;ok 4 user=ann@example.com password=pw;\n\
    0 8|kdc-answer code 1;|> 3033a003020106a12c302a3028a0260424602206062b0601050502a0183016a00e300c060a2b06010401823702020\
     aa20404024e31;|;ok 4 user=ann@example.com password=pw;\n\
    0 8|kdc-answer code 2;|> 3033a003020106a12c302a3028a0260424602206062b0601050502a0183016a00e300c060a2b06010401823702020\
     aa20404024e31;|;ok 4 user=ann@example.com password=pw;\n\
    0 8|kdc-answer code 3;|> 3033a003020106a12c302a3028a0260424602206062b0601050502a0183016a00e300c060a2b06010401823702020\
     aa20404024e31;|;ok 4 user=ann@example.com password=pw;\n\
    0 8|kdc-answer code 4;|> 3033a003020106a12c302a3028a0260424602206062b0601050502a0183016a00e300c060a2b06010401823702020\
     aa20404024e31;|;ok 4 user=ann@example.com password=pw;\n\
    1 1|kdc-answer code 5;||client LogonDenied;\n\
    1 1|kdc-answer code 6;||client InvalidToken;\n\
    0 8|kdc-answer fail;|> 3033a003020106a12c302a3028a0260424602206062b0601050502a0183016a00e300c060a2b06010401823702020aa\
     20404024e31;|;ok 4 user=ann@example.com password=pw;\n\
    1 1|kdc-answer code 1;client-packages kerberos;||client TimeSkew;\n\
    1 1|kdc-answer fail;client-packages kerberos;||client NoAuthenticatingAuthority;\n\
    1 3|kdc-answer usual;kdc-answer fail;|> 3049a003020106a1423040303ea03c043a603806062b0601050502a02e302ca024302206092a86\
     4882f71201020206092a864886f712010202060a2b06010401823702020aa20404024b31;|;client NoAuthenticatingAuthority;\n\
    1 3|kdc-answer usual;kdc-answer code 3;|> 3049a003020106a1423040303ea03c043a603806062b0601050502a02e302ca024302206092a\
     864882f71201020206092a864886f712010202060a2b06010401823702020aa20404024b31;|;client CertificateUnknown;\n\
    0 8|kdc-answer usual;kdc-answer usual;kdc-answer fail;|> 3049a003020106a1423040303ea03c043a603806062b0601050502a02e302\
     ca024302206092a864882f71201020206092a864886f712010202060a2b06010401823702020aa20404024b31;|;ok 4 user=ann@example.com \
     password=pw;\n\
    1 7|keytab 00ff;|> 3049a003020106a1423040303ea03c043a603806062b0601050502a02e302ca024302206092a864882f71201020206092a8\
     64886f712010202060a2b06010401823702020aa20404024b31;|;client UnsupportedPreAuth;";

/// Packages that an end may not use, and targets: an IP address has no Kerberos. A server that has
/// NTLM alone selects it, third in the list, and the token sent with the offer is for another
/// mechanism.
const PACKAGES_AND_TARGETS: &str =
    "0 10|server-packages ntlm;|;< 3026a003020106a11f301d301ba0190417a1153013a0030a0101a10c060a2b06010401823702020a;> |;ok \
     5 user=ann@example.com password=pw;\n\
    0 8|client-packages !kerberos,ntlm;|> 3033a003020106a12c302a3028a0260424602206062b0601050502a0183016a00e300c060a2b0601\
     0401823702020aa20404024e31;|;ok 4 user=ann@example.com password=pw;\n\
    0 8|client-packages !;|> 3049a003020106a1423040303ea03c043a603806062b0601050502a02e302ca024302206092a864882f7120102020\
     6092a864886f712010202060a2b06010401823702020aa20404024b31;|;ok 4 user=ann@example.com password=pw;\n\
    0 8|target TERMSRV/10.0.0.1;|> 3033a003020106a12c302a3028a0260424602206062b0601050502a0183016a00e300c060a2b06010401823\
     702020aa20404024e31;|;ok 4 user=ann@example.com password=pw;\n\
    0 8|target TERMSRV/::1;|> 3033a003020106a12c302a3028a0260424602206062b0601050502a0183016a00e300c060a2b0601040182370202\
     0aa20404024e31;|;ok 4 user=ann@example.com password=pw;\n\
    0 8|target TERMSRV/1.2.3;|> 3049a003020106a1423040303ea03c043a603806062b0601050502a02e302ca024302206092a864882f7120102\
     0206092a864886f712010202060a2b06010401823702020aa20404024b31;|;ok 4 user=ann@example.com password=pw;\n\
    0 8|target TERMSRV/01.2.3.4;|> 3049a003020106a1423040303ea03c043a603806062b0601050502a02e302ca024302206092a864882f7120\
     1020206092a864886f712010202060a2b06010401823702020aa20404024b31;|;ok 4 user=ann@example.com password=pw;\n\
    0 8|target 1::2::3;|> 3049a003020106a1423040303ea03c043a603806062b0601050502a02e302ca024302206092a864882f7120102020609\
     2a864886f712010202060a2b06010401823702020aa20404024b31;|;ok 4 user=ann@example.com password=pw;\n\
    0 8|delegation less;|3017a003020101a110040e300ca0020400a1020400a2020400|;ok 4 user= password=;";

#[test]
fn ends_with_kerberos(rt: HostRuntime) {
    for table in [REPLIES, PACKAGES_AND_TARGETS] {
        shows_all(&rt, rt.alloc(), "delegate", KERBEROS, table);
    }
}

/// The exchange whose ends begin with NTLM, with no KDC known.
const ENDS: &str = "mode negotiate\nuser ann@example.com\npassword pw\nkey 010203\n";

/// Which URL is asked and what the KDC knows; a client that begins with NTLM takes Kerberos if its
/// realm has a KDC, and a server without a ticket does not authenticate user-to-user.
const REALMS_AND_TICKETS: &str =
    "0 8|kdc EXAMPLE.COM tcp://kdc;kdc-user ann@example.com;server-protocol kerberos;ticket 1111111111111111111111111111111\
     111111111111111111111111111111111;|> 3049a003020106a1423040303ea03c043a603806062b0601050502a02e302ca024302206092a86488\
     2f71201020206092a864886f712010202060a2b06010401823702020aa20404024b31;|;ok 4 user=ann@example.com password=pw;\n\
    0 8|client-protocol kerberos;client-url tcp://kdc;kdc-user ann@example.com;server-protocol kerberos;ticket 11111111111\
     11111111111111111111111111111111111111111111111111111;|> 3049a003020106a1423040303ea03c043a603806062b0601050502a02e302\
     ca024302206092a864882f71201020206092a864886f712010202060a2b06010401823702020aa20404024b31;|;ok 4 user=ann@example.com \
     password=pw;\n\
    0 8|client-protocol kerberos;kdc example.org tcp://kdc;kdc-user ann@example.com;|> 3033a003020106a12c302a3028a02604246\
     02206062b0601050502a0183016a00e300c060a2b06010401823702020aa20404024e31;|;ok 4 user=ann@example.com password=pw;\n\
    0 8|client-protocol kerberos;kdc example.com tcp://kdc;kdc-user ann;|> 3033a003020106a12c302a3028a0260424602206062b060\
     1050502a0183016a00e300c060a2b06010401823702020aa20404024e31;|;ok 4 user=ann@example.com password=pw;\n\
    1 3|client-protocol kerberos;kdc example.com tcp://kdc;kdc-user ann@example.com;server-protocol kerberos;|> 3049a00302\
     0106a1423040303ea03c043a603806062b0601050502a02e302ca024302206092a864882f71201020206092a864886f712010202060a2b06010401\
     823702020aa20404024b31;|;< 300da003020106a4060204c0070308;server InvalidToken;\n\
    1 1|client-protocol kerberos;client-packages !ntlm;kdc-user ann@example.com;||client NoAuthenticatingAuthority;";

#[test]
fn ends_of_a_realm(rt: HostRuntime) {
    shows_all(&rt, rt.alloc(), "delegate", ENDS, REALMS_AND_TICKETS);
}
