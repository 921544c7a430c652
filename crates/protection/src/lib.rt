//! The interface of record protection, and the pair that makes one protection of any two.
//!
//! A protection turns the content of a record into the octets that stand on the wire, and back. It holds a suite,
//! a role and key material, or is unkeyed. The trait says all that a protection owes; the laws in it are what
//! the layers above rest on.
#![tactic(auto)]

mod bounds;
mod error;
mod pair;
mod record_protection;

pub use bounds::{
    CONTENT_LIMIT, FRESH_SIZE, GROWTH, MATERIAL_LIMIT, SEALED_LIMIT, limits, may_open, may_seal,
};
pub use error::OpenError;
pub use pair::PairedProtection;
pub use record_protection::RecordProtection;
