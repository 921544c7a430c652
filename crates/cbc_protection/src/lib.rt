//! Record protection by SM4 in CBC mode with HMAC-SM3: the suites e013 and e019.
#![tactic(auto)]

mod interface;
mod keys;
mod laws;
mod layout;

pub use interface::CbcProtection;
pub use laws::laws_stand;
