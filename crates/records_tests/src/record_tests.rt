use octets::same;
use records::{
    ContentKind, HEADER_SIZE, Incoming, read_record, record_limit, write_header, write_record,
};
use std::process::Abort;
use std::test::Fail;

/// What is said of some octets.
#[derive(Clone, Copy)]
enum Answer {
    More,
    Alert(u8),
    Whole(u8, usize),
}

/// Octets, how many of them have come, whether reading is protected, and what is said.
type Case = ([u8; 8], usize, bool, Answer);

const CASES: [Case; 24] = [
    ([0, 0, 0, 0, 0, 0, 0, 0], 0, false, Answer::More),
    ([22, 0, 0, 0, 0, 0, 0, 0], 1, false, Answer::More),
    ([22, 3, 0, 0, 0, 0, 0, 0], 2, false, Answer::More),
    ([22, 1, 1, 0, 0, 0, 0, 0], 4, false, Answer::More),
    ([22, 3, 1, 0, 0, 0, 0, 0], 4, false, Answer::More),
    ([22, 3, 1, 0, 1, 0, 0, 0], 6, false, Answer::Alert(70)),
    ([22, 1, 3, 0, 1, 0, 0, 0], 6, false, Answer::Alert(70)),
    ([22, 0, 1, 255, 255, 0, 0, 0], 5, false, Answer::Alert(70)),
    ([22, 1, 0, 0, 0, 0, 0, 0], 5, true, Answer::Alert(70)),
    ([22, 1, 1, 64, 0, 0, 0, 0], 5, false, Answer::More),
    ([22, 1, 1, 64, 1, 0, 0, 0], 5, false, Answer::Alert(22)),
    ([22, 1, 1, 64, 1, 0, 0, 0], 5, true, Answer::More),
    ([23, 1, 1, 72, 0, 0, 0, 0], 5, true, Answer::More),
    ([23, 1, 1, 72, 1, 0, 0, 0], 5, true, Answer::Alert(22)),
    ([23, 1, 1, 255, 255, 0, 0, 0], 8, true, Answer::Alert(22)),
    ([22, 1, 1, 0, 0, 0, 0, 0], 5, false, Answer::Whole(22, 5)),
    ([22, 1, 1, 0, 0, 9, 9, 9], 8, false, Answer::Whole(22, 5)),
    ([22, 1, 1, 0, 2, 9, 0, 0], 6, false, Answer::More),
    ([22, 1, 1, 0, 2, 9, 8, 0], 7, false, Answer::Whole(22, 7)),
    ([22, 1, 1, 1, 2, 9, 8, 7], 8, false, Answer::More),
    ([24, 1, 1, 0, 1, 255, 0, 0], 6, false, Answer::Whole(24, 6)),
    ([0, 1, 1, 0, 1, 7, 0, 0], 6, true, Answer::Whole(0, 6)),
    ([255, 1, 1, 0, 3, 7, 8, 9], 8, true, Answer::Whole(255, 8)),
    ([21, 1, 1, 0, 2, 1, 90, 0], 7, false, Answer::Whole(21, 7)),
];

fn check_case(rt: &impl Abort, case: Case) -> Result<(), Fail> {
    let (all, len, protected, answer) = case;
    let octets = &all[..len.min(8)];
    match (read_record(octets, record_limit(protected)), answer) {
        (Ok(Incoming::More), Answer::More) => Ok(()),
        (Err(fault), Answer::Alert(number)) => {
            assert_eq!(rt; fault.alert.number(), number);
            assert_eq!(rt; fault.layer.number(), 1);
            Ok(())
        }
        (Ok(Incoming::Whole(record)), Answer::Whole(kind, size)) => {
            assert_eq!(rt; record.kind, kind);
            assert_eq!(rt; record.size(), size);
            assert!(rt; size >= HEADER_SIZE && size <= octets.len());
            assert!(rt; same(record.content, &octets[HEADER_SIZE..size]));
            Ok(())
        }
        _ => {
            assert!(rt; false);
            Ok(())
        },
    }
}

#[test]
fn headers(rt: HostRuntime) -> Result<(), Fail> {
    for case in &CASES {
        check_case(&rt, *case)?;
    }
    Ok(())
}

/// A record of two octets at place 2 of eleven: what is around it stays, and it reads back.
#[test]
fn written_in_place(rt: HostRuntime) -> Result<(), Fail> {
    let mut out = [170u8; 11];
    assert_eq!(rt; write_record(23, &[5, 6], &mut out, 2), Some(9));
    assert!(rt; same(&out, &[170, 170, 23, 1, 1, 0, 2, 5, 6, 170, 170]));
    let written: &[u8] = &out;
    match read_record(&written[2..], 2) {
        Ok(Incoming::Whole(record)) => {
            assert_eq!(rt; record.kind, 23);
            assert!(rt; same(record.content, &[5, 6]));
            Ok(())
        }
        _ => {
            assert!(rt; false);
            Ok(())
        },
    }
}

/// A header before a content that stands in place.
#[test]
fn header_before_content(rt: HostRuntime) {
    let mut out = [9u8; 8];
    assert_eq!(rt; write_header(22, 2, &mut out, 1), Some(8));
    assert!(rt; same(&out, &[9, 22, 1, 1, 0, 2, 9, 9]));
}

/// No room, by one octet and by far: nothing is written.
#[test]
fn no_room(rt: HostRuntime) {
    let mut out = [9u8; 8];
    assert_eq!(rt; write_record(22, &[1, 2, 3, 4], &mut out, 0), None);
    assert_eq!(rt; write_record(22, &[1, 2, 3], &mut out, 1), None);
    assert_eq!(rt; write_record(22, &[], &mut out, 4), None);
    assert_eq!(rt;
        write_record(22, &[], &mut out, 18_446_744_073_709_551_615),
        None
    );
    assert_eq!(rt; write_header(22, 4, &mut out, 0), None);
    assert_eq!(rt;
        write_header(22, 18_446_744_073_709_551_615, &mut out, 0),
        None
    );
    assert!(rt; same(&out, &[9; 8]));
    assert_eq!(rt; write_record(22, &[1, 2, 3], &mut out, 0), Some(8));
}

/// The longest content that a length tells, and one octet more.
#[test]
fn longest_length(rt: HostRuntime) {
    let content = [3u8; 65_536];
    let mut out = [0u8; 65_541];
    assert_eq!(rt; write_record(22, &content, &mut out, 0), None);
    assert_eq!(rt; out[0], 0);
    assert_eq!(rt;
        write_record(22, &content[..65_535], &mut out, 0),
        Some(65_540)
    );
    assert_eq!(rt; out[3], 255);
    assert_eq!(rt; out[4], 255);
    assert_eq!(rt; out[65_539], 3);
    assert_eq!(rt; out[65_540], 0);
}

/// Every octet: four are kinds, and each of these is its own kind's.
#[test]
fn kinds(rt: HostRuntime) {
    for octet in 0..=255u8 {
        match ContentKind::from_octet(octet) {
            Some(kind) => {
                assert!(rt; octet >= 20 && octet <= 23);
                assert_eq!(rt; kind.octet(), octet);
            }
            None => assert!(rt; octet < 20 || octet > 23),
        }
    }
}
