//! Cipher block chaining (NIST SP 800-38A, 6.2) over SM4, in place, on whole blocks of 16 octets.
#![tactic(auto)]

mod blocks;
mod laws;
mod mode;

pub use laws::{
    decryption_undoes_encryption, encryption_undoes_decryption, example_stands, keeps_length,
    keeps_octets,
};
pub use mode::{decrypt, encrypt};
