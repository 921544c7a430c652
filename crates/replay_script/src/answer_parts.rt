use crate::fault::ScriptFault;
use script_text::read_octets;
use std::alloc::Global;

/// What a yes of the key card brings; a part that is not given is empty.
#[derive(Drop)]
pub struct AnswerOctets {
    pub random: Vec<u8>,
    pub session: Vec<u8>,
    pub certificates: Vec<Vec<u8>>,
    pub signature: Vec<u8>,
    pub premaster: Vec<u8>,
    pub wrapped: Vec<u8>,
}

impl AnswerOctets {
    /// A yes that brings nothing.
    pub fn new(heap: Global) -> AnswerOctets {
        AnswerOctets {
            random: Vec::new(heap),
            session: Vec::new(heap),
            certificates: Vec::new(heap),
            signature: Vec::new(heap),
            premaster: Vec::new(heap),
            wrapped: Vec::new(heap),
        }
    }

    /// Takes one part in, and says whether there is a part of this name. Of two alike the last counts, but for certificates.
    pub fn take_part(
        &mut self,
        heap: Global,
        name: &str,
        value: &str,
    ) -> Result<bool, ScriptFault> {
        let Some(part) = PartName::named(name) else {
            return Ok(false);
        };
        let octets = read_octets(heap, value)?;
        match part {
            PartName::Random => self.random = octets,
            PartName::Session => self.session = octets,
            PartName::Certificate => self.certificates.push(octets)?,
            PartName::Signature => self.signature = octets,
            PartName::Premaster => self.premaster = octets,
            PartName::Wrapped => self.wrapped = octets,
        }
        Ok(true)
    }
}

/// The parts of a yes.
#[derive(Clone, Copy)]
enum PartName {
    Random,
    Session,
    Certificate,
    Signature,
    Premaster,
    Wrapped,
}

impl PartName {
    /// The part of this name.
    fn named(word: &str) -> Option<PartName> {
        match word {
            "random" => Some(PartName::Random),
            "id" => Some(PartName::Session),
            "cert" => Some(PartName::Certificate),
            "sig" => Some(PartName::Signature),
            "premaster" => Some(PartName::Premaster),
            "wrap" => Some(PartName::Wrapped),
            _ => None,
        }
    }
}
