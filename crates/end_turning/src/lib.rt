//! What the first message of the buffer does to an end: the inside of the call turn.
#![tactic(auto)]

mod awaited;
mod judging;
mod turning;

pub use turning::turn_first;
