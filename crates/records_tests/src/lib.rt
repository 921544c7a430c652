//! Records and alerts against tables of cases.
#![tactic(auto)]

#[cfg(test)]
mod alert_tests;
#[cfg(test)]
mod record_tests;
