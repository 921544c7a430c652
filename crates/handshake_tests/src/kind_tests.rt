use super::cases::read_as;
use handshake::{HandshakeType, Span};
use handshake_reader::{Certificate, read_message};
use std::test::Fail;

/// A type that is awaited, octets, how many of them have come, and what reading them comes to.
type Case = (HandshakeType, [u8; 18], usize, u8);

const CASES: [Case; 28] = [
    (
        HandshakeType::Certificate,
        [11, 0, 0, 3, 0, 0, 0, 0, 0, 0, 0, 0, 0, 0, 0, 0, 0, 0],
        7,
        0,
    ),
    (
        HandshakeType::Certificate,
        [11, 0, 0, 2, 0, 0, 0, 0, 0, 0, 0, 0, 0, 0, 0, 0, 0, 0],
        6,
        50,
    ),
    (
        HandshakeType::Certificate,
        [11, 0, 0, 7, 0, 0, 4, 0, 0, 1, 9, 0, 0, 0, 0, 0, 0, 0],
        11,
        0,
    ),
    (
        HandshakeType::Certificate,
        [11, 0, 0, 6, 0, 0, 3, 0, 0, 0, 0, 0, 0, 0, 0, 0, 0, 0],
        10,
        50,
    ),
    (
        HandshakeType::Certificate,
        [11, 0, 0, 7, 0, 0, 4, 0, 0, 0, 9, 0, 0, 0, 0, 0, 0, 0],
        11,
        50,
    ),
    (
        HandshakeType::Certificate,
        [11, 0, 0, 7, 0, 0, 4, 0, 0, 2, 9, 0, 0, 0, 0, 0, 0, 0],
        11,
        50,
    ),
    (
        HandshakeType::Certificate,
        [11, 0, 0, 7, 0, 0, 3, 0, 0, 1, 9, 0, 0, 0, 0, 0, 0, 0],
        11,
        50,
    ),
    (
        HandshakeType::Certificate,
        [11, 0, 0, 7, 0, 0, 5, 0, 0, 1, 9, 0, 0, 0, 0, 0, 0, 0],
        11,
        50,
    ),
    (
        HandshakeType::Certificate,
        [11, 0, 0, 8, 0, 0, 4, 0, 0, 1, 9, 5, 0, 0, 0, 0, 0, 0],
        12,
        50,
    ),
    (
        HandshakeType::Certificate,
        [11, 0, 0, 12, 0, 0, 9, 0, 0, 1, 9, 0, 0, 2, 8, 8, 0, 0],
        16,
        0,
    ),
    (
        HandshakeType::Certificate,
        [11, 0, 0, 12, 0, 0, 9, 0, 0, 1, 9, 0, 0, 1, 8, 8, 0, 0],
        16,
        50,
    ),
    (
        HandshakeType::Certificate,
        [11, 0, 0, 11, 0, 0, 8, 0, 0, 1, 9, 0, 0, 2, 8, 0, 0, 0],
        15,
        50,
    ),
    (
        HandshakeType::Certificate,
        [12, 0, 0, 3, 0, 0, 0, 0, 0, 0, 0, 0, 0, 0, 0, 0, 0, 0],
        7,
        110,
    ),
    (
        HandshakeType::ServerKeyExchange,
        [12, 0, 0, 3, 0, 1, 5, 0, 0, 0, 0, 0, 0, 0, 0, 0, 0, 0],
        7,
        0,
    ),
    (
        HandshakeType::ServerKeyExchange,
        [12, 0, 0, 2, 0, 0, 0, 0, 0, 0, 0, 0, 0, 0, 0, 0, 0, 0],
        6,
        50,
    ),
    (
        HandshakeType::ServerKeyExchange,
        [12, 0, 0, 3, 0, 0, 5, 0, 0, 0, 0, 0, 0, 0, 0, 0, 0, 0],
        7,
        50,
    ),
    (
        HandshakeType::ServerKeyExchange,
        [12, 0, 0, 3, 0, 2, 5, 0, 0, 0, 0, 0, 0, 0, 0, 0, 0, 0],
        7,
        50,
    ),
    (
        HandshakeType::ServerKeyExchange,
        [12, 0, 0, 1, 0, 0, 0, 0, 0, 0, 0, 0, 0, 0, 0, 0, 0, 0],
        5,
        50,
    ),
    (
        HandshakeType::ServerKeyExchange,
        [16, 0, 0, 3, 0, 1, 5, 0, 0, 0, 0, 0, 0, 0, 0, 0, 0, 0],
        7,
        110,
    ),
    (
        HandshakeType::ClientKeyExchange,
        [16, 0, 0, 3, 0, 1, 5, 0, 0, 0, 0, 0, 0, 0, 0, 0, 0, 0],
        7,
        0,
    ),
    (
        HandshakeType::ClientKeyExchange,
        [16, 0, 0, 4, 0, 1, 5, 5, 0, 0, 0, 0, 0, 0, 0, 0, 0, 0],
        8,
        50,
    ),
    (
        HandshakeType::ServerHelloDone,
        [14, 0, 0, 0, 0, 0, 0, 0, 0, 0, 0, 0, 0, 0, 0, 0, 0, 0],
        4,
        0,
    ),
    (
        HandshakeType::ServerHelloDone,
        [14, 0, 0, 1, 0, 0, 0, 0, 0, 0, 0, 0, 0, 0, 0, 0, 0, 0],
        5,
        50,
    ),
    (
        HandshakeType::ServerHelloDone,
        [14, 0, 0, 0, 0, 0, 0, 0, 0, 0, 0, 0, 0, 0, 0, 0, 0, 0],
        5,
        50,
    ),
    (
        HandshakeType::Finished,
        [20, 0, 0, 12, 1, 2, 3, 4, 5, 6, 7, 8, 9, 10, 11, 12, 0, 0],
        16,
        0,
    ),
    (
        HandshakeType::Finished,
        [20, 0, 0, 11, 1, 2, 3, 4, 5, 6, 7, 8, 9, 10, 11, 12, 0, 0],
        15,
        50,
    ),
    (
        HandshakeType::Finished,
        [20, 0, 0, 13, 1, 2, 3, 4, 5, 6, 7, 8, 9, 10, 11, 12, 0, 0],
        17,
        50,
    ),
    (
        HandshakeType::Finished,
        [20, 0, 15, 253, 1, 2, 3, 4, 5, 6, 7, 8, 9, 10, 11, 12, 0, 0],
        16,
        47,
    ),
];

#[test]
fn layouts(rt: HostRuntime) {
    for (kind, octets, len, answer) in &CASES {
        let came = &octets[..(*len).min(18)];
        assert_eq!(rt; read_as(*kind, came), *answer);
    }
}

/// Two certificates, each with its place; a third is not there.
#[test]
fn places_of_certificates(rt: HostRuntime) -> Result<(), Fail> {
    let octets: &[u8] = &[11, 0, 0, 12, 0, 0, 9, 0, 0, 1, 9, 0, 0, 2, 8, 8];
    let Ok(message) = read_message::<Certificate>(octets) else {
        assert!(rt; false);
        return Ok(());
    };
    assert_eq!(rt; message.len(), 2);
    assert!(rt; message.get(0) == Some(Span { offset: 10, len: 1 }));
    assert!(rt; message.get(1) == Some(Span { offset: 14, len: 2 }));
    assert!(rt; message.get(2) == None);
    assert!(rt; message.get(18_446_744_073_709_551_615) == None);
    Ok(())
}

/// The longest body that an end takes, filled by one certificate.
#[test]
fn longest_certificate(rt: HostRuntime) {
    let mut octets = [1u8; 4096];
    octets[0] = 11;
    octets[1] = 0;
    octets[2] = 15;
    octets[3] = 252;
    octets[4] = 0;
    octets[5] = 15;
    octets[6] = 249;
    octets[7] = 0;
    octets[8] = 15;
    octets[9] = 246;
    assert_eq!(rt; read_as(HandshakeType::Certificate, &octets), 0);
    octets[3] = 253;
    assert_eq!(rt; read_as(HandshakeType::Certificate, &octets), 47);
    assert_eq!(rt; read_as(HandshakeType::Finished, &octets), 47);
}
