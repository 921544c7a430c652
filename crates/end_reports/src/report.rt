use model::Stage;
use records::Fault;

/// What a call tells: the stage after it, the octets written first in the output, and any fault.
#[derive(Clone, Copy)]
pub struct Report {
    pub stage: Stage,
    pub written: usize,
    pub fault: Option<Fault>,
}

/// What a hand-in tells beside that: the octets consumed, those released first in the opening place, and whether
/// more are needed before a record is whole.
#[derive(Clone, Copy)]
pub struct HandInReport {
    pub stage: Stage,
    pub written: usize,
    pub fault: Option<Fault>,
    pub consumed: usize,
    pub released: usize,
    pub more: bool,
}
