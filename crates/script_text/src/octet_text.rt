ghost use Rattle.std.specs.Prelude.{◌≡◌, ◌++◌, OnOk};
ghost use Rattle.script_text.specs.Octets.{repeated};

use crate::fault::OctetsFault;
use crate::number::{LIMIT, read_number};
use hex_text::decode;
use std::alloc::Global;

/// Appends octets so many times, if there are then no more than the limit.
pub fn append_times(all: &mut Vec<u8>, octets: &[u8], times: usize) -> Result<(), OctetsFault>
    ensures { OnOk result (all.new.items ≡ all.old.items ++ repeated times octets.now) }
{
    let Some(more) = octets.len().checked_mul(times) else {
        return Err(OctetsFault::TooMany);
    };
    if more > LIMIT || all.len() > LIMIT - more {
        return Err(OctetsFault::TooMany);
    }
    for _i in 0..times {
        all.extend_from_slice(octets)?;
    }
    Ok(())
}

/// Appends what one part of a text stands for: `-`, digits, or digits, a star and how many times.
fn append_part(heap: Global, part: &str, all: &mut Vec<u8>) -> Result<(), OctetsFault> {
    if part == "-" {
        return Ok(());
    }
    let (digits, count) = match part.split_once('*') {
        Some((digits, count)) => (digits, count),
        None => (part, "1"),
    };
    let Some(times) = read_number(count.as_bytes()) else {
        return Err(OctetsFault::BadCount);
    };
    if digits.is_empty() {
        return Err(OctetsFault::Missing);
    }
    let octets = decode(heap, digits.as_bytes())?;
    append_times(all, octets.as_slice(), times)
}

/// The octets that a text stands for: parts joined by `+`.
pub fn read_octets(heap: Global, text: &str) -> Result<Vec<u8>, OctetsFault> {
    let mut all = Vec::new(heap);
    for part in text.split('+') {
        append_part(heap, part, &mut all)?;
    }
    Ok(all)
}
