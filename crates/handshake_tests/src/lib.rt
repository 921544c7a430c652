//! Handshake messages against tables of cases.
#![tactic(auto)]

#[cfg(test)]
mod cases;
#[cfg(test)]
mod frame_tests;
#[cfg(test)]
mod hello_tests;
#[cfg(test)]
mod kind_tests;
#[cfg(test)]
mod write_tests;
