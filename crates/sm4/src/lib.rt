//! SM4, the block cipher of GB/T 32907-2016: 16-octet blocks under a 16-octet key.
#![tactic(auto)]

mod cipher;
mod laws;
mod round_keys;
mod sbox;
mod state;
mod transform;

pub use cipher::Sm4;
pub use laws::{
    decryption_undoes_encryption, encryption_undoes_decryption, example_stands, gives_a_block,
    sbox_permutes,
};
