//! Which texts are IP addresses (RFC 3986 3.2.2, RFC 4291 2.2).

ghost use Rattle.std.specs.Prelude.{◌↔◌, IsTrue};
ghost use Rattle.sspi_negotiate.specs.IpText.{IsIpText};

use std::net::IpAddr;

/// Whether `s` is an IPv4 address in dotted decimals (RFC 3986, section 3.2.2), or an IPv6 address
/// in a form of RFC 4291, section 2.2. A zone or brackets are not allowed.
pub fn is_ip_text(s: &str) -> bool
    ensures { IsTrue result ↔ IsIpText s.now }
{
    s.parse::<IpAddr>().is_ok()
}
