//! Scripts of calls to the two ends of a line, read line by line.
//!
//! A line names an end, a call and what the call brings. `#` begins a comment.
#![tactic(auto)]

mod answer_parts;
mod fault;
mod names;
mod reader;
mod room;
mod script_line;
mod suites;

pub use answer_parts::AnswerOctets;
pub use fault::ScriptFault;
pub use names::{EndName, ProtectionKind};
pub use reader::read_line;
pub use room::CallRoom;
pub use script_line::{Received, ScriptAnswer, ScriptCall, ScriptLine, StepCall};
