use handshake::{
    ClientKeyExchange, Finished, HandshakeType, ServerHello, ServerHelloDone, ServerKeyExchange,
};
use handshake_reader::{Certificate, ClientHello, ReadMessage, read_message};
use records::Fault;

/// A ClientHello of two suites: e013 and e053.
pub const CLIENT_HELLO: [u8; 47] = [
    1, 0, 0, 43, 1, 1, 7, 7, 7, 7, 7, 7, 7, 7, 7, 7, 7, 7, 7, 7, 7, 7, 7, 7, 7, 7, 7, 7, 7, 7, 7,
    7, 7, 7, 7, 7, 7, 7, 0, 0, 4, 224, 19, 224, 83, 1, 0,
];

/// A ServerHello with no session id, of suite e053.
pub const SERVER_HELLO: [u8; 42] = [
    2, 0, 0, 38, 1, 1, 8, 8, 8, 8, 8, 8, 8, 8, 8, 8, 8, 8, 8, 8, 8, 8, 8, 8, 8, 8, 8, 8, 8, 8, 8,
    8, 8, 8, 8, 8, 8, 8, 0, 224, 83, 0,
];

/// What a reading came to: 0, or the number of its alert, and 100 more where its layer is not the message's.
fn verdict<M: Drop>(read: Result<M, Fault>) -> u8 {
    match read {
        Ok(_) => 0,
        Err(fault) => {
            let elsewhere = if fault.layer.number() == 3 { 0 } else { 100 };
            fault.alert.number().min(100) + elsewhere
        }
    }
}

/// Reads the octets as a message of a type.
pub fn read_as(kind: HandshakeType, octets: &[u8]) -> u8 {
    match kind {
        HandshakeType::ClientHello => verdict(read_message::<ClientHello>(octets)),
        HandshakeType::ServerHello => verdict(read_message::<ServerHello>(octets)),
        HandshakeType::Certificate => verdict(read_message::<Certificate>(octets)),
        HandshakeType::ServerKeyExchange => verdict(read_message::<ServerKeyExchange>(octets)),
        HandshakeType::ServerHelloDone => verdict(read_message::<ServerHelloDone>(octets)),
        HandshakeType::ClientKeyExchange => verdict(read_message::<ClientKeyExchange>(octets)),
        HandshakeType::Finished => verdict(read_message::<Finished>(octets)),
    }
}
