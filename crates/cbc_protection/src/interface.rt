ghost use Rattle.std.specs.Prelude.{◌≡◌, None};
ghost use Rattle.cbc_protection.specs.Records.{cbc_serves, cbc_size, cbc_sealing, cbc_opening};
ghost use Rattle.cbc_protection.specs.View.{cbc_holds};
ghost use Rattle.cbc_protection.specs.Agrees;
ghost use Rattle.std.proofs.Common.{arith, rules};
ghost use Rattle.cbc_protection.specs.Sealed.{sealed_length};
ghost use Rattle.cbc_protection.specs.Agrees.{size_of};

use crate::keys::{CbcKeys, SIZE, serves};
use octets::{Role, wipe};
use protection::{OpenError, RecordProtection, may_open, may_seal};

/// Record protection by SM4 in CBC mode with HMAC-SM3, for the suites e013 and e019.
#[derive(Drop)]
pub struct CbcProtection {
    keys: Option<CbcKeys>,
}

impl CbcProtection {
    /// An unkeyed protection.
    pub fn new() -> CbcProtection
        ensures { cbc_holds result ≡ None }
    {
        CbcProtection { keys: None }
    }
}

impl RecordProtection for CbcProtection {
    ghost serves = { cbc_serves };

    ghost size = { cbc_size };

    ghost sealing = { cbc_sealing };

    ghost opening = { cbc_opening };

    ghost holds = { cbc_holds };

    ghost sizes = { Prim.search rules };

    ghost opens = { λ k n t c f held sealable. Agrees.opens k n t c f sealable.least sealable.sixteen sealable.content sealable.fresh };

    ghost grows = { λ k n t c f held sealable. let l = sealed_length k n t c f sealable.sixteen in omega arith };

    ghost fits = { λ k n t l c held openable e. let s = size_of k n t l c e in omega (arith, openable.most) };

    ghost served = { Prim.search rules };

    fn serves(suite: u16) -> bool {
        serves(suite)
    }

    fn size(_suite: u16) -> usize {
        SIZE
    }

    fn suite(&self) -> Option<u16> {
        match &self.keys {
            Some(keys) => Some(keys.suite()),
            None => None,
        }
    }

    fn key(&mut self, suite: u16, role: Role, material: &[u8]) -> bool {
        match CbcKeys::new(suite, role, material) {
            Some(keys) => {
                self.keys = Some(keys);
                true
            }
            None => false,
        }
    }

    fn seal(
        &self,
        number: u64,
        kind: u8,
        content: &[u8],
        fresh: &[u8],
        out: &mut [u8],
    ) -> Option<usize> {
        let Some(keys) = &self.keys else {
            return None;
        };
        if !may_seal(content.len(), fresh.len(), out.len()) {
            return None;
        }
        Some(keys.seal(number, kind, content, fresh, out))
    }

    fn open(
        &self,
        number: u64,
        kind: u8,
        octets: &[u8],
        place: &mut [u8],
    ) -> Result<usize, OpenError> {
        match &self.keys {
            Some(keys) if may_open(octets.len(), place.len()) => keys.open(
                number, kind, octets, place,
            ),
            _ => {
                wipe(place);
                Err(OpenError::Refused)
            }
        }
    }
}
