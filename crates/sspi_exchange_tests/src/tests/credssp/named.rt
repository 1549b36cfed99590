//! Messages, proofs and sealed texts for the key `010203`, the nonce of zeros and `DOM\ann` with
//! the password `pw`. All are computed independently, and given in hex under their script names.

/// Each line is a name and its bytes. A line that begins with `#` describes what is below it.
pub const NAMED: &str = "
# The public key of the channel.
key 010203
# The five messages of an exchange at version 6.
first 3011a003020106a10a30083006a00404024e31
second 3019a003020106a1123010300ea00c040a4e320000000000000000
third 308192a003020106a1333031302fa02d042b4e330700444f4d5c616e6e34ddc90ba7ffb071634b466e4d8ecefc8e57189f71f0576ac2bb6e17\
    3cf15e3fa3320430507e00ce75d8eebf639da627511157b3e1e0e7bbbd1efcbe459a5253b2f0839a676027203f86155c53b75ceb87f89c4ca5220420\
    0000000000000000000000000000000000000000000000000000000000000000
fourth 305da003020106a332043078cc8c57f30bd91a89321eab210cec4eb4f2c13c3a9badf1d36d23a85d33afc979a1ffec6a9fcc3e9b7026299ad\
    0c77ea52204200000000000000000000000000000000000000000000000000000000000000000
fifth 3066a003020106a23b0439a5410dbaf6a0ebe3683e10cab62877af3027a003020101a120041e301ca008040644004f004d00a108040661006e\
    006e00a206040470007700a52204200000000000000000000000000000000000000000000000000000000000000000
# The server's token, the client's last one, and the client's proof beside it.
challenge 4e320000000000000000
third-token 4e330700444f4d5c616e6e34ddc90ba7ffb071634b466e4d8ecefc8e57189f71f0576ac2bb6e173cf15e3f
third-proof 507e00ce75d8eebf639da627511157b3e1e0e7bbbd1efcbe459a5253b2f0839a676027203f86155c53b75ceb87f89c4c
# SHA-256 of each end's label, the nonce and the key; the first half of the client's; both with a nonce of bytes `11`.
client-proof e1e0e7bbbd1efcbe459a5253b2f0839a676027203f86155c53b75ceb87f89c4c
server-proof b4f2c13c3a9badf1d36d23a85d33afc979a1ffec6a9fcc3e9b7026299ad0c77e
half-client-proof e1e0e7bbbd1efcbe459a5253b2f0839a
client-proof-of-11 bc247bcf014a3c46ebcc2c8795926751f0625093cd7060ee9a1a9ea38ccd2395
server-proof-of-11 84e36fc2d0ec4f007e7aaa26cd1f0d6d64712741010d4f6b7c266da3eb8a74fd
# Sealed by the server: the client's proof as its first text, the first half of its own one as its second, its own one as its third.
client-proof-by-server 37eca0d2433a032cd2329c9ed55edc49e1e0e7bbbd1efcbe459a5253b2f0839a676027203f86155c53b75ceb87f89c4c
cut-proof-by-server 7b3c398a1b5686f10505c29162a16bb3b4f2c13c3a9badf1d36d23a85d33afc9
third-proof-by-server 0287ce42eaa949891ca7259d6e9c68a1b4f2c13c3a9badf1d36d23a85d33afc979a1ffec6a9fcc3e9b7026299ad0c77e
# Sealed by the client as its first text: the server's proof, and the first half of its own one.
server-proof-by-client 3e8d7fc58bfe2a6daa16cc2ed515d761b4f2c13c3a9badf1d36d23a85d33afc979a1ffec6a9fcc3e9b7026299ad0c77e
cut-proof-by-client 4dc7a5b2246076b97c0f7789e51479afe1e0e7bbbd1efcbe459a5253b2f0839a
# Sealed by the client: the text `x` as its second text, and the credentials as its third.
no-credentials 4ce1da35451f387805ba2677e9d21ddc78
later-credentials 54c9683c274ce6511b3afcd3d7bddeda3027a003020101a120041e301ca008040644004f004d00a108040661006e006e00a206\
    040470007700
# Credentials in the clear: those of the client, and empty ones.
credentials 3027a003020101a120041e301ca008040644004f004d00a108040661006e006e00a206040470007700
empty-credentials 3017a003020101a110040e300ca0020400a1020400a2020400
# Credentials of a smart card (type 2): the PIN `12` and a key for the exchange of keys.
smart-card 301ca003020102a11504133011a006040431003200a1073005a003020101
# Credentials of the user `d\\a@b`, with an empty domain and an empty password; and the client's without the last byte of its password.
mixed-name 3021a003020101a11a04183016a0020400a10c040a64005c00610040006200a2020400
odd-password 3026a003020101a11f041d301ba008040644004f004d00a108040661006e006e00a2050403700077
# Too few bytes for a sealed text.
fifteen-zeros 000000000000000000000000000000
";
