use model::Refusal;
use protection::RecordProtection;

/// A set-up that was refused: why, and the protection as it was.
#[derive(Drop)]
pub struct SetUpRefused<P: RecordProtection> {
    pub refusal: Refusal,
    pub protection: P,
}
