//! Exchanges whose messages were computed apart.

use std::alloc::{AllocError, Global};

/// What an exchange's ends are, and what each of them sent, in order.
#[derive(Clone, Copy)]
pub struct Recorded {
    /// The bytes of the key are the numbers from the first to before the second, modulo 251.
    pub key: (usize, usize),
    /// The client's version and the server's.
    pub versions: (u32, u32),
    /// The least version of a peer that either takes.
    pub least: u32,
    pub client: &'static [&'static str],
    pub server: &'static [&'static str],
}

/// `DOM\ann` with the password `pw`, the key 010203 and version 6: two tokens, two proofs and the
/// credentials.
pub const PLAIN: Recorded = Recorded {
    key: (1, 4),
    versions: (6, 6),
    least: 5,
    client: &[
        "3011a003020106a10a30083006a00404024e31",
        "308192a003020106a1333031302fa02d042b4e330700444f4d5c616e6e34ddc90ba7ffb071634b466e4d8ecefc8e57189f71f0576ac\
         2bb6e173cf15e3fa3320430507e00ce75d8eebf639da627511157b3e1e0e7bbbd1efcbe459a5253b2f0839a676027203f86155c53b7\
         5ceb87f89c4ca52204200000000000000000000000000000000000000000000000000000000000000000",
        "3066a003020106a23b0439a5410dbaf6a0ebe3683e10cab62877af3027a003020101a120041e301ca008040644004f004d00a108040\
         661006e006e00a206040470007700a52204200000000000000000000000000000000000000000000000000000000000000000",
    ],
    server: &[
        "3019a003020106a1123010300ea00c040a4e320000000000000000",
        "305da003020106a332043078cc8c57f30bd91a89321eab210cec4eb4f2c13c3a9badf1d36d23a85d33afc979a1ffec6a9fcc3e9b702\
         6299ad0c77ea52204200000000000000000000000000000000000000000000000000000000000000000",
    ],
};

/// A client of version 4 with a key of 270 bytes, whose proof a server of version 6 refuses.
pub const MIXED: Recorded = Recorded {
    key: (0, 270),
    versions: (4, 6),
    least: 4,
    client: &[
        "3011a003020104a10a30083006a00404024e31",
        "306ea003020104a1333031302fa02d042b4e330700444f4d5c616e6e34ddc90ba7ffb071634b466e4d8ecefc8e57189f71f0576ac2b\
         b6e173cf15e3fa33204306001bec9650f69b2d96edf07e18dd44757f88c6173ea7461fac10d490730c714bdac8550b6679d73945e03\
         7ddf2e8518",
    ],
    server: &[
        "3019a003020106a1123010300ea00c040a4e320000000000000000",
        "3041a003020106a33204306001bec9650f69b2d96edf07e18dd44757f88c6173ea7461fac10d490730c714bdac8550b6679d73945e0\
         37ddf2e8518a4060204c007030f",
    ],
};

/// The bytes of the first `count` messages, then some that belong to none.
pub fn bytes(
    alloc: Global,
    messages: &[&str],
    count: usize,
    more: &[u8],
) -> Result<Vec<u8>, AllocError> {
    let mut all = Vec::new(alloc);
    for text in messages.iter().take(count) {
        push_hex(&mut all, *text)?;
    }
    all.extend_from_slice(more)?;
    Ok(all)
}

fn value(digit: u8) -> u8 {
    match digit {
        b'0'..=b'9' => digit - b'0',
        b'a'..=b'f' => digit - b'a' + 10,
        _ => 0,
    }
}

fn push_hex(all: &mut Vec<u8>, text: &str) -> Result<(), AllocError> {
    for pair in text.as_bytes().chunks_exact(2) {
        if let [high, low] = pair {
            all.push(value(*high).wrapping_mul(16) | value(*low))?;
        }
    }
    Ok(())
}

/// How many of these messages are whole within the first `len` bytes.
pub fn whole(messages: &[&str], len: usize) -> usize {
    let mut left = len;
    for (count, text) in messages.iter().enumerate() {
        let size = text.len() / 2;
        if left < size {
            return count;
        }
        left -= size;
    }
    messages.len()
}
