use crate::values::{AAD_LENGTHS, CIPHERTEXT, LENGTHS, TAGS};
use gcm::{Gcm, inc32};
use std::process::Abort;

/// The longest text.
const LONGEST: usize = 1350;

fn key() -> [u8; 16] {
    let mut key = [0u8; 16];
    for i in 0..16usize {
        key[i] = (i * 11 + 5) as u8;
    }
    key
}

fn nonce() -> [u8; 12] {
    let mut nonce = [0u8; 12];
    for i in 0..12usize {
        nonce[i] = (i * 13 + 1) as u8;
    }
    nonce
}

fn aad() -> [u8; 20] {
    let mut aad = [0u8; 20];
    for i in 0..20usize {
        aad[i] = ((i * 17 + 9) % 256) as u8;
    }
    aad
}

fn text() -> [u8; 1350] {
    let mut text = [0u8; 1350];
    for i in 0..1350usize {
        text[i] = ((i * 7 + i / 256 + 3) % 256) as u8;
    }
    text
}

/// The tag is refused, and the octets stay as they are.
fn refuses(
    rt: &impl Abort,
    gcm: &Gcm,
    nonce: &[u8; 12],
    aad: &[u8],
    octets: &[u8; 1350],
    n: usize,
    tag: &[u8; 16],
) {
    assert!(rt; n <= LONGEST);
    let mut buffer = *octets;
    assert!(rt; !gcm.decrypt(nonce, aad, &mut buffer[0..n], tag));
    for i in 0..LONGEST {
        assert!(rt; buffer[i] == octets[i]);
    }
}

/// A text damaged in one bit of the ciphertext, the tag, the additional data or the nonce.
fn refuses_damage(
    rt: &impl Abort,
    gcm: &Gcm,
    a: usize,
    octets: &[u8; 1350],
    n: usize,
    tag: &[u8; 16],
) {
    assert!(rt; n <= LONGEST);
    assert!(rt; a <= 20);
    let aad = aad();
    if n > 0 {
        let mut damaged = *octets;
        damaged[n - 1] ^= 0x80;
        refuses(rt, gcm, &nonce(), &aad[0..a], &damaged, n, tag);
    }
    if a > 0 {
        let mut damaged = aad;
        damaged[a - 1] ^= 1;
        refuses(rt, gcm, &nonce(), &damaged[0..a], octets, n, tag);
    }
    let mut damaged = *tag;
    damaged[15] ^= 1;
    refuses(rt, gcm, &nonce(), &aad[0..a], octets, n, &damaged);
    let mut other = nonce();
    other[0] ^= 1;
    refuses(rt, gcm, &other, &aad[0..a], octets, n, tag);
}

/// The first n octets are those of the ciphertext that is expected.
fn is_expected(rt: &impl Abort, octets: &[u8; 1350], n: usize) {
    assert!(rt; n <= LONGEST);
    for i in 0..n {
        assert!(rt; octets[i] == CIPHERTEXT[i / 16].to_be_bytes()[i % 16]);
    }
}

/// The tag is taken, and the octets become the text.
fn opens(rt: &impl Abort, gcm: &Gcm, a: usize, octets: &[u8; 1350], n: usize, tag: &[u8; 16]) {
    assert!(rt; n <= LONGEST);
    assert!(rt; a <= 20);
    let aad = aad();
    let mut buffer = *octets;
    assert!(rt; gcm.decrypt(&nonce(), &aad[0..a], &mut buffer[0..n], tag));
    let plain = text();
    for i in 0..LONGEST {
        assert!(rt; buffer[i] == plain[i]);
    }
}

/// A text of n octets with additional data of a octets: sealed, refused when damaged, and opened.
fn seals_and_opens(rt: &impl Abort, gcm: &Gcm, n: usize, a: usize, expected: u128) {
    assert!(rt; n <= LONGEST);
    assert!(rt; a <= 20);
    let aad = aad();
    let mut buffer = text();
    let tag = gcm.encrypt(&nonce(), &aad[0..a], &mut buffer[0..n]);
    assert!(rt; u128::from_be_bytes(tag) == expected);
    is_expected(rt, &buffer, n);
    refuses_damage(rt, gcm, a, &buffer, n, &tag);
    opens(rt, gcm, a, &buffer, n, &tag);
}

#[test]
fn edge_lengths(rt: HostRuntime) {
    let gcm = Gcm::new(&key());
    for i in 0..10usize {
        for j in 0..5usize {
            seals_and_opens(&rt, &gcm, LENGTHS[i], AAD_LENGTHS[j], TAGS[i * 5 + j]);
        }
    }
}

#[test]
fn another_key_refuses(rt: HostRuntime) {
    let gcm = Gcm::new(&key());
    let mut buffer = text();
    let tag = gcm.encrypt(&nonce(), &aad(), &mut buffer);
    let mut other = key();
    other[7] ^= 0x10;
    refuses(
        &rt,
        &Gcm::new(&other),
        &nonce(),
        &aad(),
        &buffer,
        LONGEST,
        &tag,
    );
}

/// RFC 8998, A.1.
#[test]
fn published(rt: HostRuntime) {
    let key = 0x0123456789abcdeffedcba9876543210u128.to_be_bytes();
    let nonce = [0, 0, 0x12, 0x34, 0x56, 0x78, 0, 0, 0, 0, 0xab, 0xcd];
    let mut aad = [0u8; 20];
    aad[0..16].copy_from_slice(&0xfeedfacedeadbeeffeedfacedeadbeefu128.to_be_bytes());
    aad[16..20].copy_from_slice(&[0xab, 0xad, 0xda, 0xd2]);
    let mut buffer = [0u8; 64];
    buffer[0..16].copy_from_slice(&0xaaaaaaaaaaaaaaaabbbbbbbbbbbbbbbbu128.to_be_bytes());
    buffer[16..32].copy_from_slice(&0xccccccccccccccccddddddddddddddddu128.to_be_bytes());
    buffer[32..48].copy_from_slice(&0xeeeeeeeeeeeeeeeeffffffffffffffffu128.to_be_bytes());
    buffer[48..64].copy_from_slice(&0xeeeeeeeeeeeeeeeeaaaaaaaaaaaaaaaau128.to_be_bytes());
    let tag = Gcm::new(&key).encrypt(&nonce, &aad, &mut buffer);
    assert!(rt; u128::from_be_bytes(tag) == 0x83de3541e4c2b58177e065a9bf7b62ec);
    let expected = [
        0x17f399f08c67d5ee19d0dc9969c4bb7du128,
        0x5fd46fd3756489069157b282bb200735,
        0xd82710ca5c22f0ccfa7cbf93d496ac15,
        0xa56834cbcf98c397b4024a2691233b8d,
    ];
    for i in 0..64usize {
        assert!(rt; buffer[i] == expected[i / 16].to_be_bytes()[i % 16]);
    }
}

/// The last 32 bits wrap, and the first 96 stay.
#[test]
fn counting_wraps(rt: HostRuntime) {
    assert!(rt; inc32(0x7_ffff_fffe) == 0x7_ffff_ffff);
    assert!(rt; inc32(0x7_ffff_ffff) == 0x7_0000_0000);
    assert!(rt;
        inc32(0xffff_ffff_ffff_ffff_ffff_ffff_ffff_ffff)
            == 0xffff_ffff_ffff_ffff_ffff_ffff_0000_0000
    );
}
