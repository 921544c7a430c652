ghost use Rattle.std.specs.Prelude.{◌≡◌, ℕ, ◌+◌, ◌≤◌, [], length, if◌then◌else◌, Some, None};
ghost use Rattle.std.specs.Option.{option_map};
ghost use Rattle.octets.specs.Laid.{laid};
ghost use Rattle.protection.specs.Limits.{content_limit, sealed_limit};
ghost use Rattle.protection.specs.Keys.{keying, taken};
ghost use Rattle.protection.specs.Calls.{opened_length, placed};
ghost use Rattle.gcm_protection.specs.Records.{gcm_serves, gcm_size, overhead, gcm_sealing, gcm_opening};
ghost use Rattle.gcm_protection.specs.View.{keying_of};

use super::GcmKeys;
use crate::layout::{additional, key, nonce, sixteen};
use crate::suites::{SIZE, serves};
use gcm::Gcm;
use octets::{Role, eight_octets, lay, wipe};
use protection::OpenError;

/// The explicit part of the nonce, before the ciphertext.
const EXPLICIT: usize = 8;

/// What stands in a record beside the content: that part, and the tag behind the ciphertext.
const OVERHEAD: usize = 24;

impl GcmKeys {
    /// The keys made ready, if the suite is served and the material is whole.
    pub fn new(suite: u16, role: Role, material: &[u8]) -> Option<GcmKeys>
        ensures { option_map keying_of result ≡ (if taken gcm_serves gcm_size (keying suite role material.now) then Some (keying suite role material.now) else None) }
    {
        if !serves(suite) || material.len() != SIZE {
            return None;
        }
        let mut held = [0u8; SIZE];
        held.copy_from_slice(material);
        let writing = Gcm::new(&key(role, material));
        let reading = Gcm::new(&key(role.peer(), material));
        Some(GcmKeys {
            suite,
            role,
            material: held,
            writing,
            reading,
        })
    }

    /// The suite that they are for.
    pub fn suite(&self) -> u16
        ensures { result ≡ self.now.suite }
    {
        self.suite
    }

    /// Seals the content first in `out`: the number, the ciphertext, the tag.
    pub fn seal(&self, number: u64, kind: u8, content: &[u8], out: &mut [u8]) -> usize
        requires { (length content.now ≤ content_limit) × (length content.now + overhead ≤ length out.old) }
        ensures end { result ≡ length (gcm_sealing (keying_of self.now) number kind content.now []) }
        ensures after { out.new ≡ laid out.old 0 (gcm_sealing (keying_of self.now) number kind content.now []) }
    {
        let explicit = eight_octets(number);
        let nonce = nonce(self.role, &self.material, &explicit);
        let data = additional(number, kind, content.len());
        let at = lay(out, 0, &explicit);
        let end = lay(out, at, content);
        let tag = self.writing.encrypt(&nonce, &data, &mut out[at..end]);
        lay(out, end, &tag)
    }

    /// Opens octets into `place`, which holds zeros past the content, and everywhere after a no.
    pub fn open(
        &self,
        number: u64,
        kind: u8,
        octets: &[u8],
        place: &mut [u8],
    ) -> Result<usize, OpenError>
        requires { (length octets.now ≤ sealed_limit) × (sealed_limit ≤ length place.old) }
        ensures answer { result ≡ opened_length (gcm_opening (keying_of self.now) number kind octets.now) }
        ensures after { place.new ≡ placed (gcm_opening (keying_of self.now) number kind octets.now) place.old }
    {
        wipe(place);
        if octets.len() < OVERHEAD {
            return Err(OpenError::Refused);
        }
        let size = octets.len() - OVERHEAD;
        let end = EXPLICIT + size;
        let nonce = nonce(self.role.peer(), &self.material, &octets[0..EXPLICIT]);
        let data = additional(number, kind, size);
        let tag = sixteen(&octets[end..]);
        lay(place, 0, &octets[EXPLICIT..end]);
        let right = self
            .reading
            .decrypt(&nonce, &data, &mut place[0..size], &tag);
        if !right {
            wipe(place);
            return Err(OpenError::Refused);
        }
        Ok(size)
    }
}
