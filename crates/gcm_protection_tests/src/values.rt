// Records made by another implementation (OpenSSL, through Python's `cryptography`).
use octets::Role;

/// A record: who seals it, its number, kind and length of content, the first 16 octets of its ciphertext (a shorter
/// one filled up with zeros) and its tag.
pub struct Record {
    pub role: Role,
    pub number: u64,
    pub kind: u8,
    pub size: usize,
    pub first: u128,
    pub tag: u128,
}

/// Records of both ends, the longest with 16,384 octets of content.
pub const RECORDS: [Record; 10] = [
    Record {
        role: Role::Client,
        number: 0,
        kind: 22,
        size: 1,
        first: 0xfb000000000000000000000000000000,
        tag: 0x018b1d62a2e13d53e76cbcd939740def,
    },
    Record {
        role: Role::Client,
        number: 1,
        kind: 23,
        size: 15,
        first: 0x2fa01d29370ec2c35c410463b62a4c00,
        tag: 0x89e0601cfea23c1c540739302078a8e0,
    },
    Record {
        role: Role::Client,
        number: 2,
        kind: 23,
        size: 16,
        first: 0xd9c5f9c1d67facdf82a41e7b615c1606,
        tag: 0x44de3afe43c2e6f0417fecf1d2bad741,
    },
    Record {
        role: Role::Server,
        number: 0,
        kind: 22,
        size: 17,
        first: 0xbe01e84a057b3f51d992ba39c68eafce,
        tag: 0x1876ddfd4805db683a6c6766883c09c8,
    },
    Record {
        role: Role::Server,
        number: 4294967296,
        kind: 21,
        size: 2,
        first: 0xfc030000000000000000000000000000,
        tag: 0xf71e4612f4397fa86239e1b1cd80e2d9,
    },
    Record {
        role: Role::Server,
        number: 18446744073709551615,
        kind: 255,
        size: 64,
        first: 0xc562730ffcbb4fbf65e979f97bdc0439,
        tag: 0x5b45da0212f69a28cc37686cf0502983,
    },
    Record {
        role: Role::Client,
        number: 16777215,
        kind: 20,
        size: 1,
        first: 0xea000000000000000000000000000000,
        tag: 0x581e3d4a34ea352b0d2d5b0f0959f065,
    },
    Record {
        role: Role::Client,
        number: 72623859790382856,
        kind: 0,
        size: 33,
        first: 0xb70ec52fff88c4f72f05293056706176,
        tag: 0xe99b748d31a0d7f8beeb1e2054ce1895,
    },
    Record {
        role: Role::Client,
        number: 3,
        kind: 23,
        size: 16384,
        first: 0x90f4ae4e45f09cb0446617c196b7925f,
        tag: 0x403c1bab393a5e17713aafdc050a8456,
    },
    Record {
        role: Role::Server,
        number: 4,
        kind: 23,
        size: 16384,
        first: 0x084fd6e132b4d1718a0af0862b623221,
        tag: 0x8355310e88fbac67a50ce22f39943837,
    },
];

/// The server's record number 5 of kind 23 with 5 octets of content, under an explicit part that is not its number.
pub const OTHER_NONCE: [u8; 29] = [
    0xa0, 0xa1, 0xa2, 0xa3, 0xa4, 0xa5, 0xa6, 0xa7, 0x80, 0x77, 0x13, 0x85, 0x1d, 0xd4, 0xfc, 0x4e,
    0x2b, 0xf5, 0x5c, 0x1d, 0x0b, 0xf5, 0xa6, 0xb8, 0xfa, 0xb2, 0xe9, 0x20, 0xfe,
];

/// The client's record number 6 of kind 23 without content.
pub const EMPTY: [u8; 24] = [
    0x00, 0x00, 0x00, 0x00, 0x00, 0x00, 0x00, 0x06, 0x3a, 0x93, 0x09, 0x5b, 0xc4, 0x72, 0xf4, 0x96,
    0x7b, 0x7a, 0x2b, 0x25, 0x68, 0x0a, 0x9a, 0x96,
];
