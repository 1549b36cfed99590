//! Damaged requests, for tests of anything that reads requests: each line is a fault and the bytes
//! that have it, where `end` is `UnexpectedEof` and `bad` is `InvalidData`.

/// Each fault of the outer header, and a content that is not whole.
pub const OUTER: &str = "
end:
end: 31
end: 30
end: 30 80
end: 30 84 00 00 00 01
end: 30 83 10 00 01
end: 30 83 00 00
end: 30 82 ff fc
end: 30 03 a0 03
";

/// Contents, to be put inside a SEQUENCE: each place of the version where a content can have its
/// first fault.
pub const VERSION: &str = "
end:
bad: a1
end: a0
bad: a0 80
bad: a0 84
bad: a0 83 10 00 01
end: a0 81
end: a0 82
end: a0 82 00
end: a0 82 ff fc
end: a0 83
end: a0 83 10 00
end: a0 83 10 00 00
end: a0 03
bad: a0 03 04
end: a0 03 02
bad: a0 03 02 80
bad: a0 03 02 00
bad: a0 03 02 05
bad: a0 03 02 09
end: a0 03 02 04 01
";

/// Each place of the token, after version 6.
pub const TOKEN: &str = "
end: a0 03 02 01 06 a1
end: a0 03 02 01 06 a1 83
bad: a0 03 02 01 06 a1 84
end: a0 03 02 01 06 a1 06
bad: a0 03 02 01 06 a1 06 31
end: a0 03 02 01 06 a1 06 30
bad: a0 03 02 01 06 a1 06 30 80
end: a0 03 02 01 06 a1 06 30 04
bad: a0 03 02 01 06 a1 06 30 04 04
end: a0 03 02 01 06 a1 06 30 04 30
bad: a0 03 02 01 06 a1 06 30 04 30 ff
end: a0 03 02 01 06 a1 06 30 04 30 02
bad: a0 03 02 01 06 a1 06 30 04 30 02 a1
end: a0 03 02 01 06 a1 06 30 04 30 02 a0
bad: a0 03 02 01 06 a1 06 30 04 30 02 a0 8a
end: a0 03 02 01 06 a1 06 30 04 30 02 a0 00
bad: a0 03 02 01 06 a1 06 30 04 30 02 a0 00 05
end: a0 03 02 01 06 a1 06 30 04 30 02 a0 00 04
bad: a0 03 02 01 06 a1 06 30 04 30 02 a0 00 04 80
end: a0 03 02 01 06 a1 06 30 04 30 02 a0 00 04 01
";

/// Each place of the two fields of an OCTET STRING, after version 6.
pub const OCTETS: &str = "
end: a0 03 02 01 06 a2
bad: a0 03 02 01 06 a2 8a
end: a0 03 02 01 06 a2 02
bad: a0 03 02 01 06 a2 02 05
end: a0 03 02 01 06 a2 02 04
bad: a0 03 02 01 06 a2 02 04 80
end: a0 03 02 01 06 a2 02 04 02 41
end: a0 03 02 01 06 a3
bad: a0 03 02 01 06 a3 8a
end: a0 03 02 01 06 a3 02
bad: a0 03 02 01 06 a3 02 05
end: a0 03 02 01 06 a3 02 04
bad: a0 03 02 01 06 a3 02 04 80
end: a0 03 02 01 06 a3 02 04 02 41
bad: a0 03 02 01 06 a2 80 a4
end: a0 03 02 01 06 a2 02 04 05
";

/// Each place of the code and the nonce, after version 6.
pub const CODE_AND_NONCE: &str = "
end: a0 03 02 01 06 a4
bad: a0 03 02 01 06 a4 80
end: a0 03 02 01 06 a4 03
bad: a0 03 02 01 06 a4 03 04
end: a0 03 02 01 06 a4 03 02
bad: a0 03 02 01 06 a4 03 02 06
end: a0 03 02 01 06 a4 03 02 02 00
end: a0 03 02 01 06 a5
bad: a0 03 02 01 06 a5 80
end: a0 03 02 01 06 a5 22
bad: a0 03 02 01 06 a5 22 05
end: a0 03 02 01 06 a5 22 04
bad: a0 03 02 01 06 a5 22 04 84
bad: a0 03 02 01 06 a5 22 04 1f
end: a0 03 02 01 06 a5 22 04 20 00 00 00 00 00 00 00 00 00 00 00 00 00 00 00 00 00 00 00 00 00 00 00 00 00 00 00 00 00 00 00
";
