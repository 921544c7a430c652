//! Reading handshake messages: the first of what came in, and each kind into parts of its octets.
#![tactic(auto)]

mod certificates;
mod client_hello;
mod endings;
mod exchanges;
mod faults;
mod frames;
mod messages;
mod parts;
mod server_hello;
mod suites;
mod version;

pub use certificates::Certificate;
pub use client_hello::ClientHello;
pub use frames::{FirstMessage, first_message, is_message_ready, read_message};
pub use messages::ReadMessage;
pub use suites::SuiteList;
