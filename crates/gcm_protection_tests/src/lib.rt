//! GCM protection against the records of another implementation, and against damage.
#![tactic(auto)]

#[cfg(test)]
mod tests;
#[cfg(test)]
mod values;
