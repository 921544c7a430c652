use crate::state::State;
use protection::RecordProtection;

/// An end of a line, as its calls change it: its protection and its state.
#[derive(Drop)]
pub struct LineEnd<P: RecordProtection> {
    pub protection: P,
    pub state: State,
}
