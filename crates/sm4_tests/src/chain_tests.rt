use crate::vectors::{PAIRS, PairCase, TEXTS, TextCase};
use sm4::Sm4;
use std::process::Abort;

const LONGEST: usize = 16_384;

/// Octet `7 i + 13 (i / 256) + seed` at place i.
fn fill(seed: u8, octets: &mut [u8]) {
    let mut row = seed;
    let mut value = seed;
    let mut column = 0u8;
    for octet in octets.iter_mut() {
        *octet = value;
        value = value.wrapping_add(7);
        column = column.wrapping_add(1);
        if column == 0 {
            row = row.wrapping_add(13);
            value = row;
        }
    }
}

/// The fold over the blocks of a list: the fold so far rotated left by one bit, xor the block.
fn fold(octets: &[u8]) -> u128 {
    let mut folded = 0u128;
    for block in octets.chunks(16) {
        let mut value = 0u128;
        for octet in block {
            value = value.wrapping_mul(256) ^ u128::from(*octet);
        }
        folded = folded.rotate_left(1) ^ value;
    }
    folded
}

/// What both directions make of a text, and that each gives back what the other was given.
fn check_text(rt: &impl Abort, case: TextCase) {
    let cipher = Sm4::new(&case.key.to_be_bytes());
    let iv = case.iv.to_be_bytes();
    let mut buffer = [0u8; LONGEST];
    let octets = &mut buffer[..case.blocks.min(1024) * 16];
    fill(case.seed, octets);
    let plain = fold(octets);
    assert!(rt; cbc::encrypt(&cipher, &iv, octets));
    assert_eq!(rt; fold(octets), case.encrypted);
    assert!(rt; cbc::decrypt(&cipher, &iv, octets));
    assert_eq!(rt; fold(octets), plain);
    assert!(rt; cbc::decrypt(&cipher, &iv, octets));
    assert_eq!(rt; fold(octets), case.decrypted);
    assert!(rt; cbc::encrypt(&cipher, &iv, octets));
    assert_eq!(rt; fold(octets), plain);
}

#[test]
fn texts_both_ways(rt: HostRuntime) {
    for case in &TEXTS {
        check_text(&rt, *case);
    }
}

/// Two blocks as 32 octets.
fn joined(blocks: [u128; 2]) -> [u8; 32] {
    let mut octets = [0u8; 32];
    octets[..16].copy_from_slice(&blocks[0].to_be_bytes());
    octets[16..].copy_from_slice(&blocks[1].to_be_bytes());
    octets
}

fn check_pair(rt: &impl Abort, case: PairCase) {
    let cipher = Sm4::new(&case.key.to_be_bytes());
    let iv = case.iv.to_be_bytes();
    let mut octets = joined(case.plain);
    assert!(rt; cbc::encrypt(&cipher, &iv, &mut octets));
    assert!(rt; octets == joined(case.coded));
    assert!(rt; cbc::decrypt(&cipher, &iv, &mut octets));
    assert!(rt; octets == joined(case.plain));
}

#[test]
fn pairs_both_ways(rt: HostRuntime) {
    for case in &PAIRS {
        check_pair(&rt, *case);
    }
}

/// Both directions refuse a length that is no multiple of 16, and leave the octets as they are.
fn check_refused(rt: &impl Abort, length: usize) {
    let cipher = Sm4::new(&[7; 16]);
    let mut buffer = [9u8; 64];
    let octets = &mut buffer[..length.min(64)];
    assert!(rt; !cbc::encrypt(&cipher, &[1; 16], octets));
    assert!(rt; !cbc::decrypt(&cipher, &[1; 16], octets));
    assert!(rt; buffer == [9; 64]);
}

#[test]
fn other_lengths_are_refused(rt: HostRuntime) {
    for length in 0..64usize {
        if length % 16 != 0 {
            check_refused(&rt, length);
        }
    }
}
