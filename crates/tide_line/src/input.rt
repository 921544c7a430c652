//! What the program is given: one name and one value in hexadecimal a line; `#` begins a comment.
use hex_text::{HexFault, decode};
use std::alloc::{AllocError, AllocFailed, Global};
use std::fmt;

/// What a line was opened with.
#[derive(Drop)]
pub struct Input {
    pub premaster: [u8; 48],
    pub client_random: [u8; 32],
    pub server_random: [u8; 32],
    /// The handshake messages that both check values are made over, whole, in their order.
    pub messages: Vec<Vec<u8>>,
    /// A reading of the gauge, two blocks long.
    pub reading: [u8; 32],
    /// Octets that the gauge uses once, for sealing.
    pub fresh: [u8; 16],
}

/// Why the input was not taken.
#[derive(Drop)]
pub enum InputFault {
    NoValue,
    UnknownName,
    OddDigits,
    NotDigits(usize),
    WrongLength { expected: usize, found: usize },
    NoMemory,
}

impl fmt::Display for InputFault {
    fn fmt<W: fmt::Write>(&self, f: &mut fmt::Formatter<W>) -> fmt::Result {
        match self {
            InputFault::NoValue => write!(
                f,
                "a name, a blank and octets in hexadecimal are expected"
            ),
            InputFault::UnknownName => write!(
                f,
                "unknown name: premaster, client_random, server_random, message, reading or fresh is expected"
            ),
            InputFault::OddDigits => write!(f, "an odd number of hexadecimal digits"),
            InputFault::NotDigits(at) => write!(
                f,
                "no hexadecimal digits at place {at} of the value"
            ),
            InputFault::WrongLength { expected, found } => write!(
                f,
                "{expected} octets are expected, {found} were found"
            ),
            InputFault::NoMemory => write!(f, "out of memory"),
        }
    }
}

impl From<AllocError> for InputFault {
    fn from(_value: AllocError) -> InputFault {
        InputFault::NoMemory
    }
}

impl<T: Drop> From<AllocFailed<T>> for InputFault {
    fn from(_value: AllocFailed<T>) -> InputFault {
        InputFault::NoMemory
    }
}

impl From<HexFault> for InputFault {
    fn from(value: HexFault) -> InputFault {
        match value {
            HexFault::OddLength => InputFault::OddDigits,
            HexFault::NotDigits(at) => InputFault::NotDigits(at),
            HexFault::NoMemory => InputFault::NoMemory,
        }
    }
}

/// Copies octets to a place of exactly their length.
fn copy_whole(octets: &[u8], place: &mut [u8]) -> Result<(), InputFault> {
    if octets.len() != place.len() {
        return Err(InputFault::WrongLength {
            expected: place.len(),
            found: octets.len(),
        });
    }
    place.copy_from_slice(octets);
    Ok(())
}

impl Input {
    pub fn new(heap: Global) -> Input {
        Input {
            premaster: [0; 48],
            client_random: [0; 32],
            server_random: [0; 32],
            messages: Vec::new(heap),
            reading: [0; 32],
            fresh: [0; 16],
        }
    }

    /// Takes one line in.
    pub fn take_line(&mut self, heap: Global, line: &str) -> Result<(), InputFault> {
        let text = line.trim();
        if text.is_empty() || text.starts_with('#') {
            return Ok(());
        }
        let Some((name, digits)) = text.split_once(' ') else {
            return Err(InputFault::NoValue);
        };
        let octets = decode(heap, digits.trim().as_bytes())?;
        match name {
            "premaster" => copy_whole(octets.as_slice(), &mut self.premaster),
            "client_random" => copy_whole(octets.as_slice(), &mut self.client_random),
            "server_random" => copy_whole(octets.as_slice(), &mut self.server_random),
            "reading" => copy_whole(octets.as_slice(), &mut self.reading),
            "fresh" => copy_whole(octets.as_slice(), &mut self.fresh),
            "message" => {
                self.messages.push(octets)?;
                Ok(())
            }
            _ => Err(InputFault::UnknownName),
        }
    }
}
