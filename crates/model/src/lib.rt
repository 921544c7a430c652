//! What every call of a line end does, defined on an abstract end, and the law of a whole line.
#![tactic(auto)]

mod laws;
mod question;
mod refusal;
mod stage;

pub use laws::{bench_stands, end_laws_stand, transcript_is_sm3};
pub use question::Question;
pub use refusal::Refusal;
pub use stage::Stage;
