ghost use Rattle.std.specs.Prelude.{◌≡◌};
ghost use Rattle.handshake.specs.Parts.{among};
ghost use Rattle.model.specs.Refusals.{distinct, all_served, set_up_refusal};

use crate::bounds::SUITE_LIMIT;
use model::Refusal;
use protection::RecordProtection;

/// Whether a suite is in a list.
pub fn is_among(suite: u16, list: &[u16]) -> bool
    ensures { result ≡ among suite list.now }
{
    for listed in list {
        if *listed == suite {
            return true;
        }
    }
    false
}

/// Whether no suite of a list stands in it twice.
fn are_distinct(suites: &[u16]) -> bool
    ensures { result ≡ distinct suites.now }
{
    for i in 0..suites.len() {
        let later = &suites[i + 1..];
        if is_among(suites[i], later) {
            return false;
        }
    }
    true
}

/// Whether a protection serves every suite of a list.
fn are_served<P: RecordProtection>(suites: &[u16]) -> bool
    ensures { result ≡ all_served P.RecordProtection.serves suites.now }
{
    for suite in suites {
        if !P::serves(*suite) {
            return false;
        }
    }
    true
}

/// Why an end with these suites is not set up: they are 1 to 8, each once, each served.
pub fn set_up_refusal<P: RecordProtection>(suites: &[u16]) -> Option<Refusal>
    ensures { result ≡ set_up_refusal P.RecordProtection.serves suites.now }
{
    if suites.len() < 1
        || suites.len() > SUITE_LIMIT
        || !are_distinct(suites)
        || !are_served::<P>(suites)
    {
        Some(Refusal::BadSuites)
    } else {
        None
    }
}
