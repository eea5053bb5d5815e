// CRC-32 of IEEE 802.3, as in zlib and Ethernet. specs/Crc.antt has the definition, proofs/ its laws; the code is `crc32_fold`.
#![tactic(auto)]
