use crate::fault::ScriptFault;
use script_text::{read_number, read_octets};
use std::alloc::Global;

/// What a call is given to work with: the sizes of its places, and fresh octets.
#[derive(Drop)]
pub struct CallRoom {
    /// The size of the output.
    pub out: usize,
    /// The size of the opening place, at a call that has one.
    pub place: Option<usize>,
    /// Octets that are used once, for sealing.
    pub fresh: Vec<u8>,
}

impl CallRoom {
    /// The room of a call whose line says nothing of it: the fresh octets are a0, a1, .. af.
    pub fn new(heap: Global, out: usize, place: Option<usize>) -> Result<CallRoom, ScriptFault> {
        let mut fresh = Vec::new(heap);
        for octet in 0xa0..0xb0u8 {
            fresh.push(octet)?;
        }
        Ok(CallRoom { out, place, fresh })
    }

    /// Takes one option in; of two alike the last counts.
    pub fn take_option(
        &mut self,
        heap: Global,
        name: &str,
        value: &str,
    ) -> Result<(), ScriptFault> {
        match name {
            "out" => self.out = read_size(value)?,
            "place" => {
                if self.place.is_none() {
                    return Err(ScriptFault::NotTaken);
                }
                self.place = Some(read_size(value)?);
            }
            "fresh" => self.fresh = read_octets(heap, value)?,
            _ => return Err(ScriptFault::UnknownOption),
        }
        Ok(())
    }
}

fn read_size(text: &str) -> Result<usize, ScriptFault> {
    match read_number(text.as_bytes()) {
        Some(size) => Ok(size),
        None => Err(ScriptFault::BadNumber),
    }
}
