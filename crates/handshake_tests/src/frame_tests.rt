use super::cases::CLIENT_HELLO;
use handshake::HandshakeType;
use handshake_reader::{FirstMessage, first_message, is_message_ready};
use octets::lay;
use std::test::Fail;

/// What is buffered: its first octets, how many came, and whether a message is ready, not ready or too long.
const CASES: [([u8; 6], usize, FirstMessage); 12] = [
    ([0, 0, 0, 0, 0, 0], 0, FirstMessage::NotReady),
    ([20, 0, 0, 0, 0, 0], 1, FirstMessage::NotReady),
    ([20, 255, 0, 0, 0, 0], 2, FirstMessage::NotReady),
    ([20, 255, 255, 0, 0, 0], 3, FirstMessage::NotReady),
    ([20, 0, 0, 1, 0, 0], 4, FirstMessage::NotReady),
    (
        [20, 0, 0, 1, 9, 0],
        5,
        FirstMessage::Ready {
            kind: 20,
            length: 1,
        },
    ),
    (
        [20, 0, 0, 1, 9, 9],
        6,
        FirstMessage::Ready {
            kind: 20,
            length: 1,
        },
    ),
    (
        [99, 0, 0, 0, 9, 9],
        4,
        FirstMessage::Ready {
            kind: 99,
            length: 0,
        },
    ),
    ([1, 0, 15, 252, 0, 0], 6, FirstMessage::NotReady),
    ([1, 0, 15, 253, 0, 0], 4, FirstMessage::TooLong),
    ([1, 1, 0, 0, 0, 0], 4, FirstMessage::TooLong),
    ([0, 255, 255, 255, 0, 0], 6, FirstMessage::TooLong),
];

#[test]
fn first_messages(rt: HostRuntime) {
    for (octets, len, answer) in &CASES {
        let came = &octets[..(*len).min(6)];
        assert!(rt; first_message(came) == *answer);
        assert_eq!(rt; is_message_ready(came), *answer != FirstMessage::NotReady);
    }
}

/// A message is ready with its last octet, and octets behind it do not matter.
#[test]
fn ready_with_the_last_octet(rt: HostRuntime) -> Result<(), Fail> {
    let mut octets = [0u8; 60];
    lay(&mut octets, 0, &CLIENT_HELLO);
    let whole: &[u8] = &octets;
    for n in 0..60usize {
        let came = whole.get(0..n).ok_or("too long")?;
        assert_eq!(rt; is_message_ready(came), n >= 47);
    }
    Ok(())
}

/// Every number: seven are types, and each of these is its own type's.
#[test]
fn types(rt: HostRuntime) {
    let mut count = 0u8;
    for number in 0..=255u8 {
        if let Some(kind) = HandshakeType::from_number(number) {
            assert_eq!(rt; kind.number(), number);
            count = count.saturating_add(1);
        }
    }
    assert_eq!(rt; count, 7);
}
