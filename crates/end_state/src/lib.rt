//! What an end holds beside its record protection, and how each step changes it in place.
#![tactic(auto)]

mod buffer;
mod keys;
mod line_end;
mod passing;
mod state;
mod steps;
mod suites;

pub use keys::make_keys;
pub use line_end::LineEnd;
pub use state::{BUFFER_SIZE, HandshakeBuffer, KeyScratch, State, SuiteList};
pub use steps::join_front;
