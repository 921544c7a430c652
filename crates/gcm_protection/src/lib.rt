//! Record protection by SM4 in Galois/Counter Mode: the suites e053 and e059.
#![tactic(auto)]

mod interface;
mod keys;
mod laws;
mod layout;
mod suites;

pub use interface::GcmProtection;
pub use laws::{laws_stand, vectors_stand};
