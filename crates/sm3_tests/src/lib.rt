// The hash run on the two examples of GB/T 32905-2016, annex A, and beside another implementation: the other values were
// made by OpenSSL 3.0.19 (through Python's hashlib), and libgcrypt gives the same.
#![tactic(auto)]

#[cfg(test)]
mod tests {
    use sm3::{Sm3, digest_of};

    // A message: the octets `of`, repeated up to `len` octets; and its hash.
    struct Case {
        of: &'static [u8],
        len: usize,
        digest: &'static [u8; 32],
    }

    // 43 octets, so that repetitions and blocks do not keep step.
    const FOX: &[u8] = b"The quick brown fox jumps over the lazy dog";

    // The longest message that is hashed in one piece.
    const LONGEST: usize = 128;

    static CASES: [Case; 13] = [
        Case {
            of: b"abc",
            len: 3,
            digest: b"\x66\xc7\xf0\xf4\x62\xee\xed\xd9\xd1\xf2\xd4\x6b\xdc\x10\xe4\xe2\x41\x67\xc4\x87\x5c\xf2\xf7\xa2\x29\x7d\xa0\x2b\x8f\x4b\xa8\xe0",
        },
        Case {
            of: b"abcd",
            len: 64,
            digest: b"\xde\xbe\x9f\xf9\x22\x75\xb8\xa1\x38\x60\x48\x89\xc1\x8e\x5a\x4d\x6f\xdb\x70\xe5\x38\x7e\x57\x65\x29\x3d\xcb\xa3\x9c\x0c\x57\x32",
        },
        Case {
            of: FOX,
            len: 0,
            digest: b"\x1a\xb2\x1d\x83\x55\xcf\xa1\x7f\x8e\x61\x19\x48\x31\xe8\x1a\x8f\x22\xbe\xc8\xc7\x28\xfe\xfb\x74\x7e\xd0\x35\xeb\x50\x82\xaa\x2b",
        },
        Case {
            of: FOX,
            len: 1,
            digest: b"\x41\x4b\xcd\x58\x22\x3a\x47\xff\x2c\xdb\x85\xef\xd7\x1f\x21\xf9\x63\xff\x9d\x1b\x0a\xcc\xa9\xb6\xba\xc8\x56\x9d\x32\xec\x75\xa4",
        },
        Case {
            of: FOX,
            len: 55,
            digest: b"\xa5\xbb\xa8\x39\x5b\x8a\x9c\x67\xfd\x22\xd4\xa1\x23\xb1\x02\xde\xc8\x25\xd9\x5f\x31\xfd\x0e\x35\x91\x35\x86\x2d\xa6\x05\x8d\x54",
        },
        Case {
            of: FOX,
            len: 56,
            digest: b"\x6d\x1d\xa7\x6d\x2c\xa1\xa3\x63\x54\xc2\x5f\x88\xdd\xd3\xc9\xd5\x32\x04\x86\x09\x67\x7f\x51\x2b\x69\xd8\xa9\xcb\x41\x4a\xdf\x46",
        },
        Case {
            of: FOX,
            len: 63,
            digest: b"\x88\xd5\x58\xa1\x7a\x6c\x95\x41\xfc\x46\xd4\x3c\x03\x99\x40\xf8\x6d\xed\x8a\x83\xde\x7e\x5b\x90\x56\x48\x95\x76\x82\x2f\x71\x0b",
        },
        Case {
            of: FOX,
            len: 64,
            digest: b"\xf4\x32\xa8\x6c\xb9\xef\xc4\xc2\x11\x78\xa3\x75\x48\x9d\xde\x5f\x32\x05\xb1\xec\x90\x8b\xdd\x07\x92\x7d\x0a\x2e\xa7\x71\x4a\xa5",
        },
        Case {
            of: FOX,
            len: 65,
            digest: b"\xf1\x78\x93\xd7\xfa\x0c\x54\x39\x3b\xdb\x66\x5b\x14\xf7\xfe\x67\xb9\x19\x6d\x5f\x03\x5b\xe4\x9a\x45\xc2\x69\xbe\xe9\xfd\xcf\x0c",
        },
        Case {
            of: FOX,
            len: 119,
            digest: b"\xa4\xcc\x91\x77\x43\x71\x0c\xf4\x27\xc0\xf7\x72\xaa\xb8\x90\x76\x34\x8c\x57\xe2\xb1\x4a\xb6\xf1\x91\x96\xb0\x5e\x91\xad\x13\xb5",
        },
        Case {
            of: FOX,
            len: 120,
            digest: b"\xc0\x80\x1d\xd0\x76\xc9\x65\xdd\x40\x7b\x8b\xd0\x6d\xfa\x97\x40\x27\x22\x7c\x81\xe7\x5e\x53\x20\x41\xd7\xa8\x8b\xda\x84\x8a\x7b",
        },
        Case {
            of: FOX,
            len: 128,
            digest: b"\x14\x4f\x7d\x04\x2a\xd4\xa2\xc7\x45\x1f\x05\xec\x35\xc2\xd5\x43\x5e\x7c\xe9\x3f\x0b\x71\xd1\xf4\x7b\xe5\x2b\xfd\xaf\xcc\x33\xea",
        },
        Case {
            of: b"a",
            len: 1000000,
            digest: b"\xc8\xaa\xf8\x94\x29\x55\x40\x29\xe2\x31\x94\x1a\x2a\xcc\x0a\xd6\x1f\xf2\xa5\xac\xd8\xfa\xdd\x25\x84\x7a\x3a\x73\x2b\x3b\x02\xc3",
        },
    ];

    // The octet at a place of the octets `of`, repeated.
    fn octet_at(of: &[u8], place: usize) -> u8 {
        if of.len() == 0 {
            0
        } else {
            of[place % of.len()]
        }
    }

    // Writes the octets `of`, repeated, from a place on.
    fn repeat(of: &[u8], from: usize, out: &mut [u8]) {
        for i in 0..out.len() {
            out[i] = octet_at(of, from.wrapping_add(i));
        }
    }

    // The hash of a case, given in pieces of 1 to 127 octets, and asked for after each.
    fn in_pieces(case: &Case) -> [u8; 32] {
        let mut hash = Sm3::new();
        let mut digest = hash.digest();
        let mut at = 0;
        let mut size = 1;
        while at < case.len {
            let mut piece = [0u8; LONGEST];
            repeat(case.of, at, &mut piece);
            let len = size.min(case.len - at);
            hash.update(&piece[0..len]);
            digest = hash.digest();
            at += len;
            size = size * 5 % 127 + 1;
        }
        digest
    }

    #[test]
    fn whole_messages(rt: HostRuntime) {
        for case in CASES.iter() {
            if case.len <= LONGEST {
                let mut message = [0u8; LONGEST];
                repeat(case.of, 0, &mut message);
                assert!(rt; digest_of(&message[0..case.len]) == *case.digest);
            }
        }
    }

    #[test]
    fn messages_in_pieces(rt: HostRuntime) {
        for case in CASES.iter() {
            assert!(rt; in_pieces(case) == *case.digest);
        }
    }

    #[test]
    fn copies_go_on_alone(rt: HostRuntime) {
        let mut hash = Sm3::new();
        hash.update(b"ab");
        let mut copy = hash;
        copy.update(b"x");
        hash.update(b"c");
        assert!(rt; hash.digest() == digest_of(b"abc"));
        assert!(rt; copy.digest() == digest_of(b"abx"));
    }
}
