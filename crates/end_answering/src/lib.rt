//! What an answer of the key card does to an end: the inside of the call answer.
#![tactic(auto)]

mod answering;
mod greeting;
mod keying;

pub use answering::take_answer;
