use super::cases::{CLIENT_HELLO, SERVER_HELLO};
use handshake::{ClientKeyExchange, Finished, ServerHello, ServerHelloDone, ServerKeyExchange};
use handshake_reader::read_message;
use handshake_writer::{ClientOffer, WriteMessage, write_message};
use octets::same;
use std::process::Abort;
use std::test::Fail;

/// Writes a message at place 3 of a buffer, and holds the whole buffer to what is expected there.
fn check_written<M: WriteMessage>(rt: &impl Abort, message: &M, expected: &[u8]) {
    let mut out = [170u8; 64];
    let end = expected.len().min(60).saturating_add(3);
    assert_eq!(rt; write_message(message, &mut out, 3), Some(end));
    assert!(rt; same(&out[..3], &[170; 3]));
    let written: &[u8] = &out;
    let end = end.min(64);
    assert!(rt; same(&written[3..end], expected));
    for i in end..64usize {
        assert_eq!(rt; out[i], 170);
    }
}

/// A message that is refused: no end is told, and nothing is written.
fn check_refused<M: WriteMessage>(rt: &impl Abort, message: &M, at: usize) {
    let mut out = [170u8; 64];
    assert_eq!(rt; write_message(message, &mut out, at), None);
    assert!(rt; same(&out, &[170; 64]));
}

#[test]
fn hellos_written(rt: HostRuntime) {
    let offer = ClientOffer {
        random: &[7; 32],
        suites: &[0xe013, 0xe053],
    };
    check_written(&rt, &offer, &CLIENT_HELLO);
    check_refused(&rt, &offer, 18);
    check_refused(
        &rt,
        &ClientOffer {
            random: &[7; 31],
            suites: &[0xe013],
        },
        0,
    );
    check_refused(
        &rt,
        &ClientOffer {
            random: &[7; 33],
            suites: &[0xe013],
        },
        0,
    );
    check_refused(
        &rt,
        &ClientOffer {
            random: &[7; 32],
            suites: &[],
        },
        0,
    );
    let answer = ServerHello {
        random: &[8; 32],
        session: &[],
        suite: 0xe053,
        compression: 0,
    };
    check_written(&rt, &answer, &SERVER_HELLO);
    check_refused(
        &rt,
        &ServerHello {
            random: &[8; 32],
            session: &[1; 33],
            suite: 0,
            compression: 0,
        },
        0,
    );
    check_refused(
        &rt,
        &ServerHello {
            random: &[8; 31],
            session: &[],
            suite: 0,
            compression: 0,
        },
        0,
    );
    check_refused(&rt, &answer, 18_446_744_073_709_551_615);
}

#[test]
fn others_written(rt: HostRuntime) {
    check_written(
        &rt,
        &ServerKeyExchange { signature: &[5] },
        &[12, 0, 0, 3, 0, 1, 5],
    );
    check_refused(&rt, &ServerKeyExchange { signature: &[] }, 0);
    check_written(&rt, &ServerHelloDone, &[14, 0, 0, 0]);
    check_refused(&rt, &ServerHelloDone, 61);
    check_written(
        &rt,
        &ClientKeyExchange { wrapped: &[5, 6] },
        &[16, 0, 0, 4, 0, 2, 5, 6],
    );
    check_refused(&rt, &ClientKeyExchange { wrapped: &[] }, 0);
    check_written(
        &rt,
        &Finished {
            verify_data: &[3; 12],
        },
        &[20, 0, 0, 12, 3, 3, 3, 3, 3, 3, 3, 3, 3, 3, 3, 3],
    );
    check_refused(
        &rt,
        &Finished {
            verify_data: &[3; 11],
        },
        0,
    );
    check_refused(
        &rt,
        &Finished {
            verify_data: &[3; 13],
        },
        0,
    );
}

/// A signature of 512 octets, the longest that the ends write.
#[test]
fn longest_written(rt: HostRuntime) {
    let mut out = [0u8; 518];
    let exchange = ServerKeyExchange {
        signature: &[6; 512],
    };
    assert_eq!(rt; write_message(&exchange, &mut out, 0), Some(518));
    assert!(rt; same(&out[..7], &[12, 0, 2, 2, 2, 0, 6]));
}

/// A ServerHello with a session id of 32 reads back to its parts.
#[test]
fn server_hello_and_back(rt: HostRuntime) -> Result<(), Fail> {
    let mut out = [0u8; 74];
    let answer = ServerHello {
        random: &[8; 32],
        session: &[4; 32],
        suite: 0xe013,
        compression: 1,
    };
    assert_eq!(rt; write_message(&answer, &mut out, 0), Some(74));
    let written: &[u8] = &out;
    let Ok(hello) = read_message::<ServerHello>(written) else {
        assert!(rt; false);
        return Ok(());
    };
    assert!(rt; same(hello.random, &[8; 32]));
    assert!(rt; same(hello.session, &[4; 32]));
    assert_eq!(rt; hello.suite, 0xe013);
    assert_eq!(rt; hello.compression, 1);
    Ok(())
}
