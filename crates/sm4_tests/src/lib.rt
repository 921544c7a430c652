//! Vectors for SM4 and for its CBC mode, run.
#![tactic(auto)]

#[cfg(test)]
mod block_tests;
#[cfg(test)]
mod chain_tests;
#[cfg(test)]
mod vectors;
