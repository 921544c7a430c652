//! The records that an end writes over its output: bare or sealed, and handshake messages each in a record of its own.
//!
//! The functions ask for lengths and room in `requires`: an end has tested both before it calls them.
#![tactic(auto)]

mod finishing;
mod flight;
mod handshakes;
mod messages;
mod writing;

pub use finishing::{finished_message, write_change, write_finished};
pub use flight::write_server_flight;
pub use handshakes::write_handshake;
pub use messages::{write_client_hello, write_client_key_exchange};
pub use writing::{write_bare, write_one, write_sealed};
