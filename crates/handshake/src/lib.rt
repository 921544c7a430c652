//! Handshake messages as they are defined: their types, layouts and laws, and the parts that both directions share.
#![tactic(auto)]

mod endings;
mod exchanges;
mod laws;
mod limits;
mod messages;
mod server_hello;
mod spans;
mod types;

pub use endings::{Finished, ServerHelloDone};
pub use exchanges::{ClientKeyExchange, ServerKeyExchange};
pub use laws::{
    ends_stand, frame_stands, layouts_stand, messages_stand, places_stand, types_stand,
    vectors_stand,
};
pub use limits::{
    BODY_LIMIT, HEADER_LENGTH, MESSAGE_LIMIT, NULL_COMPRESSION, RANDOM_LENGTH, SESSION_LIMIT,
    VERIFY_DATA_LENGTH, VERSION, VERSION_LENGTH,
};
pub use messages::HandshakeMessage;
pub use server_hello::ServerHello;
pub use spans::Span;
pub use types::HandshakeType;
