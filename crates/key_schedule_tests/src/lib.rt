//! HMAC-SM3, the PRF and the key schedule on values of other implementations.
//!
//! The tags are those of Python's `hmac` with the SM3 of OpenSSL 3.0, and of `cryptography`; what the PRF yields
//! is that of OpenSSL's key derivation `TLS1-PRF` with the digest SM3, the label before the seed.
#![tactic(auto)]

#[cfg(test)]
mod tests {
    use hmac_sm3::{Hmac, hmac_of, prf};
    use key_schedule::{cbc_keys, gcm_keys, key_material, master_secret, verify_data};
    use octets::{Role, same};
    use std::test::Fail;

    // The tag of `TEXT` under the key 0, 1, 2 .. of some length.
    struct TagCase {
        key_length: usize,
        tag: &'static [u8],
    }

    const TEXT: &[u8] = b"HMAC with SM3";

    static TAGS: [TagCase; 6] = [
        TagCase {
            key_length: 0,
            tag: b"\x15\x1b\xba\x1c\x68\x4a\x7e\x60\x69\x8f\x63\xad\x16\xb8\x0f\x22\x6e\x50\xbc\x0d\xd6\x13\xc6\x58\
                \x8e\x97\x1b\x60\xa1\xc2\x53\xe9",
        },
        TagCase {
            key_length: 1,
            tag: b"\x15\x1b\xba\x1c\x68\x4a\x7e\x60\x69\x8f\x63\xad\x16\xb8\x0f\x22\x6e\x50\xbc\x0d\xd6\x13\xc6\x58\
                \x8e\x97\x1b\x60\xa1\xc2\x53\xe9",
        },
        TagCase {
            key_length: 63,
            tag: b"\x28\xb3\x12\x34\xdd\x53\xf2\xb1\xf7\x87\x07\x48\x54\x02\x62\x60\xf0\x0a\x73\x93\xa3\xe7\xa4\xb2\
                \x14\x19\x7f\x19\x3d\xb1\x1b\x0f",
        },
        TagCase {
            key_length: 64,
            tag: b"\xa5\xa1\x28\x07\xa3\xd0\xee\xcc\x54\x1b\x39\xc2\x7e\x32\x28\xef\x38\x42\xf4\xef\xe4\x41\x17\x55\
                \xd1\x6b\xd6\xb6\x09\xb9\x43\x52",
        },
        TagCase {
            key_length: 65,
            tag: b"\xb5\x1c\x76\xc6\x30\xcc\x20\x74\x35\xf1\x64\x92\x02\xc5\xe8\x22\x5c\xdf\x2a\xd7\x27\xa2\x5b\xff\
                \x88\x00\x18\x67\x93\x7d\x31\x00",
        },
        TagCase {
            key_length: 200,
            tag: b"\x63\x50\x45\x5e\xd5\x95\x3c\x2d\xbb\x44\xae\xeb\x18\xe0\x48\x45\x83\x74\x12\x47\x69\xff\x6d\x50\
                \x43\x16\xee\x18\x52\xbb\xe1\xdc",
        },
    ];

    // PRF(0 1 .. 47, "test label", "first part" + "second part"), of which a shorter output is the beginning.
    const EXPANDED: &[u8] =
        b"\x68\x70\xdc\x86\xf0\xe8\x1e\x17\xc6\xef\x0a\x2e\x1b\xfb\x79\x0d\x93\x3d\x5c\xa7\xbe\xa0\x8f\x5f\
        \x7e\xd2\x03\x68\xc7\x02\xac\x69\x7c\xe1\x9b\xf3\xab\x30\x99\xcb\xcf\xac\x41\x27\xa7\xb9\x45\x91\
        \x49\x24\x0a\xd1\x62\x98\xa4\x41\xa7\x05\xfd\x1c\x9b\x51\xec\x5c\xe9\xa0\xb5\x26\x6c\xe9\x0f\x49\
        \xab\xc7\x3a\x33\x31\x15\xd8\x82\x50\x74\x23\x58\x8b\x2a\xc5\x4e\x8d\xe8\x0c\xbc\x44\x95\x1d\xc4\
        \x37\x96\x8f\x77";

    const LENGTHS: [usize; 10] = [0, 1, 12, 31, 32, 33, 40, 48, 96, 100];

    const MASTER: &[u8] =
        b"\x07\x95\xde\xb3\x41\xf8\xfc\x3e\x71\xae\xa6\xb3\x73\x83\xc1\xb9\xd8\x4a\xc6\xa7\x02\x7c\x73\x23\
        \x68\x14\x38\x5d\x6e\xd3\x7c\x5d\x29\x48\x6f\x4d\xc5\x1a\xb6\x75\xae\x68\xf5\x09\xc1\x5d\x12\xf1";

    const MATERIAL: &[u8] =
        b"\xd6\xb3\x6d\x27\xab\xee\x8e\x9e\x61\xc9\xfd\x6e\x27\x61\x64\xca\x82\x1a\xb2\xd6\xde\x36\xa1\x7e\
        \x99\x78\x81\x74\x1c\x13\x17\xfa\x27\x51\x60\x7b\x9d\xe3\x43\x33\x50\x2d\x07\x6e\x50\x4d\xab\x55\
        \xa5\x68\x98\xf5\x5e\xbc\x44\xd5\x2e\x59\x6b\xf0\x7c\x83\xcc\x8e\x1e\xf5\xb0\x6a\xc2\x90\x3d\x2f\
        \xf6\x44\xd3\x8b\x4d\xd7\x1a\x42\x03\xdc\x7a\x87\x64\xc2\xe6\xf9\xad\x56\x2d\xb8\xcd\xef\x43\x43";

    const CLIENT_VERIFY: &[u8] = b"\x98\x0a\x98\xa9\x49\xaf\x46\x48\x01\x16\xe7\x32";

    const SERVER_VERIFY: &[u8] = b"\xfd\xfe\x20\xec\x2e\x0e\x04\x9c\x07\x37\xb5\xdc";

    // `first`, `first + 1` and so on.
    fn counted<const N: usize>(first: u8) -> [u8; N] {
        let mut out = [0u8; N];
        let mut next = first;
        for x in out.iter_mut() {
            *x = next;
            next = next.wrapping_add(1);
        }
        out
    }

    #[test]
    fn tags_under_keys_of_many_lengths(rt: HostRuntime) {
        let key: [u8; 200] = counted(0);
        for case in &TAGS {
            let used = &key[0..case.key_length.min(200)];
            assert!(rt; same(&hmac_of(used, TEXT), case.tag));
            let mut mac = Hmac::new(used);
            mac.update(&TEXT[0..4]);
            mac.update_all(&[&TEXT[4..5], &TEXT[5..5], &TEXT[5..13]]);
            assert!(rt; same(&mac.tag(), case.tag));
            assert!(rt; same(&mac.tag(), case.tag));
        }
    }

    // Whether the first octets of a place of 0xee are filled as they should be, and no others.
    fn fills(place: &mut [u8], length: usize) -> bool {
        let secret: [u8; 48] = counted(0);
        let n = length.min(place.len()).min(100);
        prf(
            &secret,
            b"test label",
            &[b"first part", b"second part"],
            &mut place[0..n],
        );
        let mut left = true;
        for x in &place[n..] {
            left = left && *x == 0xee;
        }
        left && n == length && same(&place[0..n], &EXPANDED[0..n])
    }

    #[test]
    fn outputs_of_many_lengths(rt: HostRuntime) {
        for length in &LENGTHS {
            let mut place = [0xeeu8; 101];
            assert!(rt; fills(&mut place, *length));
        }
    }

    #[test]
    fn keys_of_one_handshake(rt: HostRuntime) {
        let mut premaster: [u8; 48] = counted(0);
        premaster[0] = 1;
        let client_random: [u8; 32] = counted(0x20);
        let server_random: [u8; 32] = counted(0xa0);
        let mut master = [0u8; 48];
        master_secret(&premaster, &client_random, &server_random, &mut master);
        assert!(rt; same(&master, MASTER));
        let mut material = [0u8; 96];
        key_material(&master, &client_random, &server_random, &mut material);
        assert!(rt; same(&material, MATERIAL));
        let mut other = [0u8; 96];
        key_material(&master, &server_random, &client_random, &mut other);
        assert!(rt; !same(&other, MATERIAL));
        let mut short = [0u8; 40];
        key_material(&master, &client_random, &server_random, &mut short);
        assert!(rt; same(&short, &MATERIAL[0..40]));
    }

    #[test]
    fn verify_data_of_both_sides(rt: HostRuntime) {
        let mut premaster: [u8; 48] = counted(0);
        premaster[0] = 1;
        let mut master = [0u8; 48];
        master_secret(&premaster, &counted(0x20), &counted(0xa0), &mut master);
        let digest: [u8; 32] = counted(0x40);
        assert!(rt; same(&verify_data(&master, Role::Client, &digest), CLIENT_VERIFY));
        assert!(rt; same(&verify_data(&master, Role::Server, &digest), SERVER_VERIFY));
    }

    #[test]
    fn material_is_cut_into_keys(rt: HostRuntime) -> Result<(), Fail> {
        let material: [u8; 97] = counted(0);
        assert!(rt; cbc_keys(&material[0..95]).is_none() && cbc_keys(&material).is_none());
        assert!(rt; gcm_keys(&material[0..39]).is_none() && gcm_keys(&material[0..41]).is_none());
        let cbc = cbc_keys(&material[0..96]).ok_or("96 octets")?;
        assert!(rt; same(cbc.mac_key(Role::Client), &material[0..32]));
        assert!(rt; same(cbc.mac_key(Role::Server), &material[32..64]));
        assert!(rt; same(cbc.key(Role::Client), &material[64..80]));
        assert!(rt; same(cbc.key(Role::Server), &material[80..96]));
        let gcm = gcm_keys(&material[0..40]).ok_or("40 octets")?;
        assert!(rt; same(gcm.key(Role::Client), &material[0..16]));
        assert!(rt; same(gcm.key(Role::Server), &material[16..32]));
        assert!(rt; same(gcm.iv(Role::Client), &material[32..36]));
        assert!(rt; same(gcm.iv(Role::Server), &material[36..40]));
        Ok(())
    }
}
