//! SM4 in Galois/Counter Mode against the values of other implementations.
#![tactic(auto)]

#[cfg(test)]
mod tests;
#[cfg(test)]
mod values;
