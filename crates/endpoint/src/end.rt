use end_state::LineEnd;
use protection::RecordProtection;

/// One end of a line, over any kind of record protection.
#[derive(Drop)]
pub struct Endpoint<P: RecordProtection> {
    pub(crate) end: LineEnd<P>,
}
