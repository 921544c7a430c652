//! Tests of the interface of record protection and of the pair, over a small protection of another make.
#![tactic(auto)]

mod marked;
mod marking;
#[cfg(test)]
mod tests;
