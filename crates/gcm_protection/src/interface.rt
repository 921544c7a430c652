ghost use Rattle.std.specs.Prelude.{◌≡◌, None};
ghost use Rattle.gcm_protection.specs.Records.{gcm_serves, gcm_size, gcm_sealing, gcm_opening};
ghost use Rattle.gcm_protection.specs.View.{gcm_holds};
ghost use Rattle.gcm_protection.specs.Agrees;
ghost use Rattle.std.proofs.Common.{arith, rules};
ghost use Rattle.gcm_protection.specs.Sealed.{sealed_length};

use crate::keys::GcmKeys;
use crate::suites::{SIZE, serves};
use octets::{Role, wipe};
use protection::{OpenError, RecordProtection, may_open, may_seal};

/// Record protection by SM4 in Galois/Counter Mode, for the suites e053 and e059.
#[derive(Drop)]
pub struct GcmProtection {
    keys: Option<GcmKeys>,
}

impl GcmProtection {
    /// An unkeyed protection.
    pub fn new() -> GcmProtection
        ensures { gcm_holds result ≡ None }
    {
        GcmProtection { keys: None }
    }
}

impl RecordProtection for GcmProtection {
    ghost serves = { gcm_serves };

    ghost size = { gcm_size };

    ghost sealing = { gcm_sealing };

    ghost opening = { gcm_opening };

    ghost holds = { gcm_holds };

    ghost sizes = { Prim.search rules };

    ghost opens = { λ k n t c f held sealable. Agrees.opens k n t c f };

    ghost grows = { λ k n t c f held sealable. let l = sealed_length k n t c f in omega arith };

    ghost fits = { λ k n t l c held openable e. let s = Agrees.size k n t l c e in omega arith };

    ghost served = { Prim.search rules };

    fn serves(suite: u16) -> bool {
        serves(suite)
    }

    fn size(_suite: u16) -> usize {
        SIZE
    }

    fn suite(&self) -> Option<u16> {
        match &self.keys {
            Some(keys) => Some(keys.suite()),
            None => None,
        }
    }

    fn key(&mut self, suite: u16, role: Role, material: &[u8]) -> bool {
        match GcmKeys::new(suite, role, material) {
            Some(keys) => {
                self.keys = Some(keys);
                true
            }
            None => false,
        }
    }

    fn seal(
        &self,
        number: u64,
        kind: u8,
        content: &[u8],
        fresh: &[u8],
        out: &mut [u8],
    ) -> Option<usize> {
        let Some(keys) = &self.keys else {
            return None;
        };
        if !may_seal(content.len(), fresh.len(), out.len()) {
            return None;
        }
        Some(keys.seal(number, kind, content, out))
    }

    fn open(
        &self,
        number: u64,
        kind: u8,
        octets: &[u8],
        place: &mut [u8],
    ) -> Result<usize, OpenError> {
        match &self.keys {
            Some(keys) if may_open(octets.len(), place.len()) => keys.open(
                number, kind, octets, place,
            ),
            _ => {
                wipe(place);
                Err(OpenError::Refused)
            }
        }
    }
}
