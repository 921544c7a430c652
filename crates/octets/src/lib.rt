//! What every layer shares: parts of buffers, numbers in octets, comparing, and the two roles.
#![tactic(auto)]

mod buffer;
mod numbers;
mod role;

pub use buffer::{lay, same, wipe};
pub use numbers::{eight_octets, three_octets, two_octets};
pub use role::Role;
