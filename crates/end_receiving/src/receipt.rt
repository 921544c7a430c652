use end_reports::Report;

/// What a record taken has done: the call's report, and the octets that stay in the opening place.
#[derive(Clone, Copy)]
pub struct Receipt {
    pub report: Report,
    pub released: usize,
}
