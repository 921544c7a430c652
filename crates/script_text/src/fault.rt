use crate::number::LIMIT;
use hex_text::HexFault;
use std::alloc::AllocError;
use std::fmt;

/// Why a text is not read as octets.
#[derive(Clone, Copy)]
pub enum OctetsFault {
    /// There are no digits, and no `-` either.
    Missing,
    /// The number of digits is odd.
    OddLength,
    /// The two characters at this place are not two digits.
    NotDigits(usize),
    /// Behind a star stands no number, or one above the limit.
    BadCount,
    /// The text stands for more octets than the limit.
    TooMany,
    /// There was no memory for the octets.
    NoMemory,
}

impl fmt::Display for OctetsFault {
    fn fmt<W: fmt::Write>(&self, f: &mut fmt::Formatter<W>) -> fmt::Result {
        match self {
            OctetsFault::Missing => write!(f, "octets in hexadecimal are expected, or - for none"),
            OctetsFault::OddLength => write!(f, "an odd number of hexadecimal digits"),
            OctetsFault::NotDigits(at) => write!(
                f,
                "the two characters at place {at} are not hexadecimal digits"
            ),
            OctetsFault::BadCount => write!(
                f,
                "behind a star stands a decimal number of at most {LIMIT}"
            ),
            OctetsFault::TooMany => write!(f, "a text stands for at most {LIMIT} octets"),
            OctetsFault::NoMemory => write!(f, "out of memory"),
        }
    }
}

impl From<AllocError> for OctetsFault {
    fn from(_value: AllocError) -> OctetsFault {
        OctetsFault::NoMemory
    }
}

impl From<HexFault> for OctetsFault {
    fn from(value: HexFault) -> OctetsFault {
        match value {
            HexFault::OddLength => OctetsFault::OddLength,
            HexFault::NotDigits(at) => OctetsFault::NotDigits(at),
            HexFault::NoMemory => OctetsFault::NoMemory,
        }
    }
}
