//! The keys of a connection: master secret, key material and its parts, and the verify data of a handshake.
#![tactic(auto)]

mod cbc_parts;
mod derive;
mod gcm_parts;
mod laws;

pub use cbc_parts::{CbcKeys, cbc_keys};
pub use derive::{key_material, master_secret, verify_data};
pub use gcm_parts::{GcmKeys, gcm_keys};
pub use laws::{schedule_stands, split_stands, vectors_stand};
