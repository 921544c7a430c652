use crate::values::{EMPTY, OTHER_NONCE, RECORDS, Record};
use gcm_protection::GcmProtection;
use octets::{Role, same};
use protection::{OpenError, PairedProtection, RecordProtection};
use std::process::Abort;

const LONGEST: usize = 16_384;

const ROOM: usize = 18_432;

fn material() -> [u8; 40] {
    let mut material = [0u8; 40];
    for i in 0..40usize {
        material[i] = ((i * 7 + 3) % 256) as u8;
    }
    material
}

fn text() -> [u8; 16_384] {
    let mut text = [0u8; 16_384];
    for i in 0..16_384usize {
        text[i] = ((i * 7 + i / 256 + 3) % 256) as u8;
    }
    text
}

fn keyed(rt: &impl Abort, suite: u16, role: Role) -> GcmProtection {
    let mut protection = GcmProtection::new();
    assert!(rt; protection.key(suite, role, &material()));
    protection
}

/// Octets that the protection opens to so many octets of the text, with zeros behind them.
fn opens<P: RecordProtection>(
    rt: &impl Abort,
    reader: &P,
    number: u64,
    kind: u8,
    octets: &[u8],
    size: usize,
) {
    assert!(rt; size <= LONGEST);
    let mut place = [0xffu8; 18_432];
    assert!(rt; reader.open(number, kind, octets, &mut place) == Ok(size));
    assert!(rt; same(&place[0..size], &text()[0..size]));
    assert!(rt; same(&place[size..], &[0u8; 18_432][size..]));
}

/// Octets that the protection refuses, leaving zeros everywhere.
fn refuses<P: RecordProtection>(rt: &impl Abort, reader: &P, number: u64, kind: u8, octets: &[u8]) {
    let mut place = [0xffu8; 18_432];
    assert!(rt; reader.open(number, kind, octets, &mut place) == Err(OpenError::Refused));
    assert!(rt; same(&place, &[0u8; 18_432]));
}

/// A record is sealed as the other implementation seals it, and the peer opens it.
fn agrees(rt: &impl Abort, record: &Record) {
    let size = record.size;
    assert!(rt; 1 <= size && size <= LONGEST);
    let text = text();
    let writer = keyed(rt, 0xe053, record.role);
    let mut out = [0xffu8; 18_432];
    assert!(rt;
        writer.seal(
            record.number,
            record.kind,
            &text[0..size],
            &[1u8; 16],
            &mut out,
        ) == Some(size + 24)
    );
    assert!(rt; same(&out[0..8], &record.number.to_be_bytes()));
    let first = size.min(16);
    assert!(rt; same(&out[8..8 + first], &record.first.to_be_bytes()[0..first]));
    assert!(rt; same(&out[8 + size..24 + size], &record.tag.to_be_bytes()));
    assert!(rt; same(&out[24 + size..], &[0xffu8; 18_432][24 + size..]));
    let reader = keyed(rt, 0xe053, record.role.peer());
    opens(
        rt,
        &reader,
        record.number,
        record.kind,
        &out[0..24 + size],
        size,
    );
}

#[test]
fn records_agree(rt: HostRuntime) {
    for record in &RECORDS {
        agrees(&rt, record);
    }
}

#[test]
fn explicit_part_need_not_be_the_number(rt: HostRuntime) {
    let reader = keyed(&rt, 0xe059, Role::Client);
    opens(&rt, &reader, 5, 23, &OTHER_NONCE, 5);
    refuses(&rt, &reader, 6, 23, &OTHER_NONCE);
}

#[test]
fn empty_content_opens(rt: HostRuntime) {
    let reader = keyed(&rt, 0xe059, Role::Server);
    opens(&rt, &reader, 6, 23, &EMPTY, 0);
    refuses(&rt, &reader, 6, 23, &EMPTY[0..23]);
    refuses(&rt, &reader, 6, 23, &[]);
}

#[test]
fn every_damage_is_refused(rt: HostRuntime) {
    let reader = keyed(&rt, 0xe059, Role::Client);
    for i in 0..OTHER_NONCE.len() {
        for bit in [1u8, 2, 4, 8, 16, 32, 64, 128] {
            let mut damaged = OTHER_NONCE;
            damaged[i] ^= bit;
            refuses(&rt, &reader, 5, 23, &damaged);
        }
    }
}

#[test]
fn number_kind_side_and_length_are_bound(rt: HostRuntime) {
    let reader = keyed(&rt, 0xe059, Role::Client);
    refuses(&rt, &reader, 4, 23, &OTHER_NONCE);
    refuses(&rt, &reader, 5, 22, &OTHER_NONCE);
    refuses(&rt, &reader, 5, 23, &OTHER_NONCE[0..28]);
    let own = keyed(&rt, 0xe059, Role::Server);
    refuses(&rt, &own, 5, 23, &OTHER_NONCE);
    refuses(&rt, &GcmProtection::new(), 5, 23, &OTHER_NONCE);
}

#[test]
fn other_keyings_alter_nothing(rt: HostRuntime) {
    let mut protection = GcmProtection::new();
    assert!(rt; !protection.key(0xe013, Role::Client, &material()));
    assert!(rt; !protection.key(0xe053, Role::Client, &material()[0..39]));
    assert!(rt; protection.suite() == None);
    assert!(rt; protection.key(0xe059, Role::Client, &material()));
    assert!(rt; !protection.key(0xe053, Role::Server, &[0u8; 41]));
    assert!(rt; protection.suite() == Some(0xe059));
    opens(&rt, &protection, 5, 23, &OTHER_NONCE, 5);
}

/// Lengths with which nothing is sealed, and the output is left alone.
fn seals_nothing(rt: &impl Abort, content: &[u8], fresh: &[u8], out: &mut [u8]) {
    let protection = keyed(rt, 0xe053, Role::Client);
    assert!(rt; protection.seal(0, 23, content, fresh, out) == None);
    for octet in out {
        assert!(rt; *octet == 7);
    }
}

#[test]
fn sealing_looks_at_lengths(rt: HostRuntime) {
    seals_nothing(&rt, &[], &[0u8; 16], &mut [7u8; 18_432]);
    seals_nothing(&rt, &[0u8; 16_385], &[0u8; 16], &mut [7u8; 18_433]);
    seals_nothing(&rt, &[0u8; 1], &[0u8; 15], &mut [7u8; 18_432]);
    seals_nothing(&rt, &[0u8; 16_384], &[0u8; 16], &mut [7u8; 18_431]);
}

#[test]
fn opening_looks_at_lengths(rt: HostRuntime) {
    let protection = keyed(&rt, 0xe053, Role::Client);
    refuses(&rt, &protection, 0, 23, &[0u8; 18_433]);
    let mut place = [7u8; 18_431];
    assert!(rt; protection.open(5, 23, &OTHER_NONCE, &mut place) == Err(OpenError::Refused));
    assert!(rt; same(&place, &[0u8; 18_431]));
}

#[test]
fn a_pair_has_it_as_either_member(rt: HostRuntime) {
    let mut pair = PairedProtection::new(keyed(&rt, 0xe059, Role::Client), GcmProtection::new());
    refuses(&rt, &pair, 5, 23, &OTHER_NONCE);
    assert!(rt; pair.key(0xe059, Role::Client, &material()));
    opens(&rt, &pair, 5, 23, &OTHER_NONCE, 5);
}
