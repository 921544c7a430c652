ghost use Rattle.std.specs.Prelude.{◌≡◌, None};
ghost use Rattle.std.specs.Option.{option_map};
ghost use Rattle.protection_tests.specs.Marks.{mark_serves, mark_sealing, mark_opening};
ghost use Rattle.protection_tests.specs.Held.{keying_of};
ghost use Rattle.std.proofs.Common.{rules};

use crate::marked::{Keys, Mark, Marked};
use octets::{Role, lay, same, wipe};
use protection::{OpenError, RecordProtection, may_open, may_seal};

impl<M: Mark> Marked<M> {
    /// An unkeyed protection.
    pub fn new(mark: M) -> Marked<M>
        ensures { option_map (keying_of M.Mark.number) result.keys ≡ None }
    {
        Marked { mark, keys: None }
    }
}

impl<M: Mark> RecordProtection for Marked<M> {
    ghost serves = { mark_serves M.Mark.number };

    ghost size = { λ s. 2 };

    ghost sealing = { mark_sealing M.Mark.number };

    ghost opening = { mark_opening M.Mark.number };

    ghost holds = { λ p. option_map (keying_of M.Mark.number) p.keys };

    ghost sizes = { Prim.search rules };

    ghost opens = { Prim.search rules };

    ghost grows = { Prim.search rules };

    ghost fits = { Prim.search rules };

    ghost served = { Prim.search rules };

    fn serves(suite: u16) -> bool {
        suite == 7 || suite == M::number() as u16
    }

    fn size(suite: u16) -> usize {
        2
    }

    fn suite(&self) -> Option<u16> {
        match &self.keys {
            Some(keys) => Some(if keys.shared { 7 } else { M::number() as u16 }),
            None => None,
        }
    }

    fn key(&mut self, suite: u16, role: Role, material: &[u8]) -> bool {
        if !Self::serves(suite) || material.len() != 2 {
            return false;
        }
        let mut held = [0u8; 2];
        held.copy_from_slice(material);
        self.keys = Some(Keys {
            shared: suite == 7,
            role,
            material: held,
        });
        true
    }

    fn seal(
        &self,
        number: u64,
        kind: u8,
        content: &[u8],
        fresh: &[u8],
        out: &mut [u8],
    ) -> Option<usize> {
        let Some(keys) = &self.keys else {
            return None;
        };
        if !may_seal(content.len(), fresh.len(), out.len()) {
            return None;
        }
        let front = [M::number(), kind, keys.material[0]];
        let at = lay(out, 0, &front);
        Some(lay(out, at, content))
    }

    fn open(
        &self,
        number: u64,
        kind: u8,
        octets: &[u8],
        place: &mut [u8],
    ) -> Result<usize, OpenError> {
        wipe(place);
        let Some(keys) = &self.keys else {
            return Err(OpenError::Refused);
        };
        if !may_open(octets.len(), place.len()) || octets.len() < 3 {
            return Err(OpenError::Refused);
        }
        let front = [M::number(), kind, keys.material[0]];
        if !same(&octets[0..3], &front) {
            return Err(OpenError::Refused);
        }
        Ok(lay(place, 0, &octets[3..]))
    }
}
