//! Texts that are IP addresses, and texts that are not.

use crate::tests::checks::{Test, holds};
use sspi_negotiate::is_ip_text;

/// Every line is an address, or none is.
fn are(rt: &impl Test, texts: &str, wanted: bool) {
    for text in texts.lines() {
        holds(rt, is_ip_text(text) == wanted, text);
    }
}

/// The addresses of RFC 4291, section 2.2, and RFC 3986, section 3.2.2.
const ADDRESSES: &str = "\
0.0.0.0
10.0.0.1
192.0.2.16
255.255.255.255
ABCD:EF01:2345:6789:ABCD:EF01:2345:6789
2001:DB8:0:0:8:800:200C:417A
2001:DB8::8:800:200C:417A
FF01::101
::1
::
0:0:0:0:0:0:13.1.68.3
0:0:0:0:0:FFFF:129.144.52.38
::13.1.68.3
::FFFF:129.144.52.38
2001:0DB8:0000:CD30::
1:2:3:4:5:6:7::
::2:3:4:5:6:7:8
1:2:3:4:5::1.2.3.4
";

#[test]
fn addresses(rt: HostRuntime) {
    are(&rt, ADDRESSES, true);
}

/// Forms that only resemble addresses; the first line is empty.
const NO_ADDRESSES: &str = "
host.example.com
1.2.3
1.2.3.4.5
01.2.3.4
1.2.3.00
1.2.3.256
1.2.3.1000
1.2..4
1.2.3.4.
 1.2.3.4
+1.2.3.4
0x7f.0.0.1
127.1
:
:::
1::2::3
1:2:3:4:5:6:7
1:2:3:4:5:6:7:8:9
1:2:3:4::5:6:7:8
1.2.3.4::
1.2.3.4::1
::1.2.3.4:5
1:2:3:4:5:6::1.2.3.4
1:2:3:4:5:1.2.3.4
:1:2:3:4:5:6:7:8
1:2:3:4:5:6:7:
::12345
::g
::1.2.3.04
2001:0DB8:0:CD30::/60
[2001:db8::7]
fe80::1%1
";

#[test]
fn no_addresses(rt: HostRuntime) {
    are(&rt, NO_ADDRESSES, false);
}
