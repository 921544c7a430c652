//! Numbers, questions and octets as scripts write them.
#![tactic(auto)]

mod fault;
mod number;
mod octet_text;
mod question;
mod suite;

pub use fault::OctetsFault;
pub use number::{LIMIT, read_number};
pub use octet_text::{append_times, read_octets};
pub use question::question_of_number;
pub use suite::read_suite;
