//! SM4 in Galois/Counter Mode (NIST SP 800-38D): authenticated encryption with nonces of 12 octets and tags of 16.
#![tactic(auto)]

mod blocks;
mod counter;
mod field;
mod ghash;
mod hash_key;
mod key;
mod laws;

pub use counter::inc32;
pub use key::Gcm;
pub use laws::{
    counter_mode_undoes_itself, counting_stands, keeps_lengths_and_octets, opens_exactly,
    opens_what_is_sealed, product_adds_up, vectors_stand,
};
