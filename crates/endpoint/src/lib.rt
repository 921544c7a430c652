//! The two ends of a line: the client end in the gauge and the server end in the office.
#![tactic(auto)]

mod answering;
mod closing;
mod end;
mod looking;
mod receiving;
mod sending;
mod set_up_refused;
mod setting_up;
mod shown;
mod turning;

pub use end::Endpoint;
pub use end_reports::{HandInReport, Report};
pub use set_up_refused::SetUpRefused;
pub use shown::{Part, Shown, ShownParts};
