use super::cases::{CLIENT_HELLO, SERVER_HELLO, read_as};
use handshake::HandshakeType;
use handshake_reader::{ClientHello, read_message};
use octets::same;
use std::test::Fail;

/// One octet of the ClientHello set to another, and what reading then comes to.
const CLIENT_CHANGES: [(usize, u8, u8); 22] = [
    (0, 1, 0),
    (0, 2, 110),
    (0, 99, 110),
    (1, 1, 47),
    (2, 16, 47),
    (3, 42, 50),
    (3, 44, 50),
    (4, 3, 70),
    (5, 0, 70),
    (5, 2, 70),
    (6, 0, 0),
    (38, 1, 50),
    (38, 32, 50),
    (38, 33, 50),
    (40, 0, 50),
    (40, 2, 50),
    (40, 3, 50),
    (40, 5, 50),
    (40, 6, 50),
    (45, 0, 50),
    (45, 2, 50),
    (46, 1, 0),
];

/// The same of the ServerHello.
const SERVER_CHANGES: [(usize, u8, u8); 12] = [
    (0, 2, 0),
    (0, 1, 110),
    (2, 16, 47),
    (3, 37, 50),
    (3, 39, 50),
    (4, 0, 70),
    (5, 3, 70),
    (37, 0, 0),
    (38, 1, 50),
    (38, 33, 50),
    (39, 0, 0),
    (41, 1, 0),
];

#[test]
fn one_octet_of_a_client_hello(rt: HostRuntime) {
    for (place, octet, answer) in &CLIENT_CHANGES {
        let mut hello = CLIENT_HELLO;
        if *place < 47 {
            hello[*place] = *octet;
        }
        assert_eq!(rt; read_as(HandshakeType::ClientHello, &hello), *answer);
    }
}

#[test]
fn one_octet_of_a_server_hello(rt: HostRuntime) {
    for (place, octet, answer) in &SERVER_CHANGES {
        let mut hello = SERVER_HELLO;
        if *place < 42 {
            hello[*place] = *octet;
        }
        assert_eq!(rt; read_as(HandshakeType::ServerHello, &hello), *answer);
    }
}

/// Every beginning of a hello, as it came and with a length that fits what came.
#[test]
fn truncated_hellos(rt: HostRuntime) {
    for n in 0..47usize {
        let mut hello = CLIENT_HELLO;
        assert_eq!(rt; read_as(HandshakeType::ClientHello, &hello[..n]), 50);
        if n >= 4 {
            hello[3] = (n - 4) as u8;
            assert_eq!(rt; read_as(HandshakeType::ClientHello, &hello[..n]), 50);
        }
    }
    for n in 0..42usize {
        let mut hello = SERVER_HELLO;
        assert_eq!(rt; read_as(HandshakeType::ServerHello, &hello[..n]), 50);
        if n >= 4 {
            hello[3] = (n - 4) as u8;
            assert_eq!(rt; read_as(HandshakeType::ServerHello, &hello[..n]), 50);
        }
    }
}

/// The parts of a ClientHello.
#[test]
fn parts_of_a_client_hello(rt: HostRuntime) -> Result<(), Fail> {
    let octets: &[u8] = &CLIENT_HELLO;
    let Ok(hello) = read_message::<ClientHello>(octets) else {
        assert!(rt; false);
        return Ok(());
    };
    assert!(rt; same(hello.random, &[7; 32]));
    assert!(rt; hello.session.is_empty());
    assert_eq!(rt; hello.suites.len(), 2);
    assert_eq!(rt; hello.suites.get(0), Some(0xe013));
    assert_eq!(rt; hello.suites.get(1), Some(0xe053));
    assert_eq!(rt; hello.suites.get(2), None);
    assert!(rt; hello.suites.contains(0xe053));
    assert!(rt; !hello.suites.contains(0x13e0));
    assert!(rt; same(hello.compressions, &[0]));
    assert!(rt; hello.offers_null_compression());
    Ok(())
}
