//! HMAC (RFC 2104) with SM3, and the pseudo-random function of GB/T 38636-2020 on it.
#![tactic(auto)]

mod expand;
mod laws;
mod mac;

pub use expand::prf;
pub use laws::{hmac_stands, prf_stands, vectors_stand};
pub use mac::{Hmac, hmac_of};
