//! Writing handshake messages: one frame for every kind, and the body of each.
#![tactic(auto)]

mod chain;
mod client_offer;
mod endings;
mod exchanges;
mod frames;
mod messages;
mod server_hello;
mod suites;

pub use chain::CertificateChain;
pub use client_offer::ClientOffer;
pub use frames::write_message;
pub use messages::WriteMessage;
