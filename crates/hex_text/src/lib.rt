//! Octets written in hexadecimal, read for the programs.
#![tactic(auto)]

ghost use Rattle.std.specs.Prelude.{◌≡◌, ℕ, ◌+◌, ◌*◌, ◌<◌, length, Some, None, MatchResult};
ghost use Rattle.hex_text.specs.Hex.{digit, pair, decoded};
ghost use Rattle.hex_text.specs.Faults.{Told};
ghost use Rattle.hex_text.specs.declared.HexFault.TheVariants.{NoMemory};

use std::alloc::{AllocError, AllocFailed, Global};

/// Why a text is not read as octets.
#[derive(Clone, Copy)]
pub enum HexFault {
    /// The number of digits is odd.
    OddLength,
    /// The two characters at this place are not two digits.
    NotDigits(usize),
    /// There was no memory for the octets.
    NoMemory,
}

impl<T: Drop> From<AllocFailed<T>> for HexFault {
    ghost from_gives = { λ e m. m ≡ NoMemory };

    fn from(value: AllocFailed<T>) -> HexFault {
        drop(value);
        HexFault::NoMemory
    }
}

/// The value of a digit.
pub fn digit_value(code: u8) -> Option<u8>
    ensures { result ≡ digit code }
{
    match code {
        b'0'..=b'9' => Some(code - 48),
        b'a'..=b'f' => Some(code - 87),
        b'A'..=b'F' => Some(code - 55),
        _ => None,
    }
}

/// The octet of two digits.
pub fn octet_of(high: u8, low: u8) -> Option<u8>
    ensures { result ≡ pair (digit high) (digit low) }
{
    match (digit_value(high), digit_value(low)) {
        (Some(h), Some(l)) => Some(16 * h + l),
        _ => None,
    }
}

/// The octets that a text of digits stands for.
pub fn decode(heap: Global, text: &[u8]) -> Result<Vec<u8>, HexFault>
    ensures { MatchResult result (λ v. decoded text.now ≡ Some v.items) (λ e. Told e text.now) }
{
    if text.len() % 2 == 1 {
        return Err(HexFault::OddLength);
    }
    let mut octets = Vec::new(heap);
    for i in 0..text.len() / 2 {
        match octet_of(text[2 * i], text[2 * i + 1]) {
            Some(x) => octets.push(x)?,
            None => return Err(HexFault::NotDigits(2 * i)),
        }
    }
    Ok(octets)
}
