//! What the client and the server of plain NTLM say to each other, for `DOM\ann` with the password
//! `pw`, the key 010203 and a nonce of zeros. `A`, `C`, `E` are the client's messages and `B`, `D`
//! the server's.

use crate::tests::desk::stage::{Test, given};

const MESSAGES: &str = "\
A 3011a003020106a10a30083006a00404024e31
B 3019a003020106a1123010300ea00c040a4e320000000000000000
C 308192a003020106a1333031302fa02d042b4e330700444f4d5c616e6e34ddc90ba7ffb071634b466e4d8ecefc8e57189f71f0576ac2bb6e173cf15e3fa33204\
30507e00ce75d8eebf639da627511157b3e1e0e7bbbd1efcbe459a5253b2f0839a676027203f86155c53b75ceb87f89c4ca5220420000000000000000000000000\
0000000000000000000000000000000000000000
D 305da003020106a332043078cc8c57f30bd91a89321eab210cec4eb4f2c13c3a9badf1d36d23a85d33afc979a1ffec6a9fcc3e9b7026299ad0c77ea522042000\
00000000000000000000000000000000000000000000000000000000000000
E 3066a003020106a23b0439a5410dbaf6a0ebe3683e10cab62877af3027a003020101a120041e301ca008040644004f004d00a108040661006e006e00a2060404\
70007700a52204200000000000000000000000000000000000000000000000000000000000000000
N 3065a003020106a3320430507e00ce75d8eebf639da627511157b3e1e0e7bbbd1efcbe459a5253b2f0839a676027203f86155c53b75ceb87f89c4ca4060204c0\
07030ea52204200000000000000000000000000000000000000000000000000000000000000000
R 300da003020106a4060204c0070308";

fn digits<'a>(name: &'a str) -> &'a str {
    for line in MESSAGES.lines() {
        if let Some((found, digits)) = line.split_once(' ') {
            if found == name {
                return digits;
            }
        }
    }
    name
}

/// The message of this name, or these hexadecimal digits. A length follows `+`: a message of
/// version 6 with these fields and an `authInfo` of that many zeros.
pub(crate) fn octets(rt: &impl Test, words: &str) -> Vec<u8> {
    match words.split_once('+') {
        Some((fields, length)) => with_zeros(rt, fields, given(rt, length.parse())),
        None => given(rt, hex::decode(rt.alloc(), digits(words))),
    }
}

/// A tag with a length of three octets.
fn push_header(rt: &impl Test, octets: &mut Vec<u8>, tag: u8, length: u32) {
    let [_, high, middle, low] = length.to_be_bytes();
    given(
        rt,
        octets.extend_from_slice(&[tag, 0x83, high, middle, low]),
    );
}

fn with_zeros(rt: &impl Test, fields: &str, length: u32) -> Vec<u8> {
    let fields = given(rt, hex::decode(rt.alloc(), fields));
    let content = given(rt, u32::try_from(fields.len()))
        .saturating_add(10)
        .saturating_add(length);
    let mut octets = Vec::new(rt.alloc());
    push_header(rt, &mut octets, 0x30, content);
    given(rt, octets.extend_from_slice(&fields));
    push_header(rt, &mut octets, 0xa2, length.saturating_add(5));
    push_header(rt, &mut octets, 0x04, length);
    for _ in 0..length {
        given(rt, octets.push(0));
    }
    octets
}
