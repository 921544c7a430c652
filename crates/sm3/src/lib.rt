// SM3, the hash function of GB/T 32905-2016, taken in pieces of any length.
#![tactic(auto)]

mod chain;
mod hash;
mod laws;
mod rounds;
mod schedule;
mod words;

pub use hash::{Sm3, digest_of};
pub use laws::{digests_are_octets, examples_hold, pieces_join};
