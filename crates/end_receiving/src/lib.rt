//! What the first record received does to an end: the inside of the call hand in.
#![tactic(auto)]

mod receipt;
mod receiving;

pub use receiving::{report, take_first};
