//! What a call tells, and how an end leaves the line with an alert: the inside of `endpoint`.
#![tactic(auto)]

mod leaving;
mod report;

pub use leaving::{raise, say_goodbye};
pub use report::{HandInReport, Report};
