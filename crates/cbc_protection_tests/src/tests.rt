use crate::values::{Case, LONGER, SEALED, WRONG_PADDING};
use cbc_protection::CbcProtection;
use octets::Role;
use protection::RecordProtection;
use std::process::Abort;
use std::test::Fail;

const SUITE: u16 = 0xe013;

const FRESH: [u8; 16] = [
    0xa0, 0xa1, 0xa2, 0xa3, 0xa4, 0xa5, 0xa6, 0xa7, 0xa8, 0xa9, 0xaa, 0xab, 0xac, 0xad, 0xae, 0xaf,
];

/// Octet i of the material is 5 i + 1, modulo 256.
fn material() -> [u8; 96] {
    let mut octets = [0u8; 96];
    for i in 0..96usize {
        octets[i] = ((5 * i + 1) % 256) as u8;
    }
    octets
}

/// Octet i of a content is 3 i + 7, modulo 256.
fn content() -> [u8; 16384] {
    let mut octets = [0u8; 16384];
    for i in 0..16384usize {
        octets[i] = ((3 * i + 7) % 256) as u8;
    }
    octets
}

fn keyed(rt: &impl Abort, role: Role) -> CbcProtection {
    let mut protection = CbcProtection::new();
    assert!(rt; protection.key(SUITE, role, &material()));
    protection
}

/// The peer opens a case to its content, with zeros behind it.
fn opens(rt: &impl Abort, case: Case) -> Result<(), Fail> {
    let reader = keyed(rt, case.role.peer());
    let whole = content();
    let mut place = [0xeeu8; 18432];
    let size = reader
        .open(case.number, case.kind, case.sealed, &mut place)
        .ok()
        .ok_or("refused")?;
    assert_eq!(rt; size, case.size);
    assert_eq!(rt; place.get(0..size), whole.get(0..case.size));
    assert_eq!(rt; place.get(size).copied(), Some(0u8));
    Ok(())
}

#[test]
fn equal_to_another(rt: HostRuntime) -> Result<(), Fail> {
    let whole = content();
    for case in SEALED {
        let writer = keyed(&rt, case.role);
        let mut out = [0u8; 4096];
        let part = whole.get(0..case.size).ok_or("a case is too long")?;
        let n = writer
            .seal(case.number, case.kind, part, &FRESH, &mut out)
            .ok_or("not sealed")?;
        assert_eq!(rt; out.get(0..n), Some(case.sealed));
        opens(&rt, case)?;
    }
    Ok(())
}

#[test]
fn longer_padding_is_taken(rt: HostRuntime) -> Result<(), Fail> {
    for case in LONGER {
        opens(&rt, case)?;
    }
    Ok(())
}

fn seals_to(rt: &impl Abort, size: usize, sealed: usize) -> Result<(), Fail> {
    let writer = keyed(rt, Role::Client);
    let whole = content();
    let part = whole.get(0..size).ok_or("too long")?;
    let mut out = [0u8; 18437];
    assert_eq!(rt; writer.seal(0, 23, part, &FRESH, &mut out), Some(sealed));
    Ok(())
}

#[test]
fn sealed_lengths(rt: HostRuntime) -> Result<(), Fail> {
    for (size, sealed) in [(1usize, 64usize), (15, 64), (16, 80), (16384, 16448)] {
        seals_to(&rt, size, sealed)?;
    }
    Ok(())
}

/// The first case, with some bits of one octet turned round, is refused.
fn refuses(rt: &impl Abort, reader: &CbcProtection, at: usize, bits: u8) {
    let case = SEALED[0];
    let mut damaged = [0u8; 64];
    assert!(rt; case.sealed.len() == 64 && at < 64);
    damaged.copy_from_slice(case.sealed);
    damaged[at] ^= bits;
    let mut place = [0u8; 18432];
    assert!(rt;
        reader
            .open(case.number, case.kind, &damaged, &mut place)
            .is_err()
    );
}

#[test]
fn every_damaged_bit_is_refused(rt: HostRuntime) {
    let reader = keyed(&rt, Role::Server);
    for at in 0..64usize {
        for bit in [1u8, 2, 4, 8, 16, 32, 64, 128] {
            refuses(&rt, &reader, at, bit);
        }
    }
}

#[test]
fn another_number_or_kind_is_refused(rt: HostRuntime) {
    let reader = keyed(&rt, Role::Server);
    let case = SEALED[0];
    let mut place = [0u8; 18432];
    assert!(rt;
        reader
            .open(case.number ^ 1, case.kind, case.sealed, &mut place)
            .is_err()
    );
    assert!(rt;
        reader
            .open(case.number, case.kind ^ 1, case.sealed, &mut place)
            .is_err()
    );
    assert!(rt;
        reader
            .open(case.number, case.kind, case.sealed, &mut place)
            .is_ok()
    );
}

#[test]
fn wrong_padding_is_refused(rt: HostRuntime) {
    let reader = keyed(&rt, Role::Server);
    let mut place = [0xeeu8; 18432];
    assert!(rt; reader.open(7, 23, WRONG_PADDING, &mut place).is_err());
    assert_eq!(rt; place.get(0), Some(&0u8));
    assert_eq!(rt; place.get(18431), Some(&0u8));
}

#[test]
fn grounds_that_write_none(rt: HostRuntime) {
    let unkeyed = CbcProtection::new();
    let mut out = [0xeeu8; 2100];
    assert_eq!(rt; unkeyed.seal(0, 23, b"level", &FRESH, &mut out), None);
    let mut writer = keyed(&rt, Role::Client);
    assert_eq!(rt; writer.seal(0, 23, b"", &FRESH, &mut out), None);
    assert_eq!(rt; writer.seal(0, 23, b"level", &FRESH[0..15], &mut out), None);
    assert_eq!(rt;
        writer.seal(0, 23, b"level", &FRESH, &mut out[0..2052]),
        None
    );
    assert_eq!(rt; out.get(0), Some(&0xeeu8));
    assert!(rt; !writer.key(0xe053, Role::Client, &material()));
    assert!(rt; !writer.key(SUITE, Role::Client, &material()[0..95]));
    assert_eq!(rt; writer.suite(), Some(SUITE));
}
