ghost use Rattle.std.specs.Prelude.{◌≡◌, ℕ, ◌+◌, ◌<◌, ◌≤◌, length, if◌then◌else◌, Some, None};
ghost use Rattle.std.specs.Option.{option_map};
ghost use Rattle.octets.specs.Laid.{laid};
ghost use Rattle.octets.specs.Roles.{peer};
ghost use Rattle.protection.specs.Keys.{keying, taken};
ghost use Rattle.protection.specs.Limits.{content_limit, sealed_limit};
ghost use Rattle.protection.specs.Calls.{opened_length, placed};
ghost use Rattle.cbc_protection.specs.Padding.{pad, least_pad, told_pad};
ghost use Rattle.cbc_protection.specs.Records.{cbc_serves, cbc_size, cbc_sealing, cbc_opening, text_of, checked};
ghost use Rattle.cbc_protection.specs.View.{keying_of};

use crate::keys::CbcKeys;
use crate::layout::{key, repeated, sixteen, tag_of};
use octets::{Role, lay, same, wipe};
use protection::OpenError;
use sm4::Sm4;

/// The octets of material that every suite takes.
pub const SIZE: usize = 96;

/// The suites.
const FIRST_SUITE: u16 = 0xe013;

const SECOND_SUITE: u16 = 0xe019;

/// The octets of a block, and so of the IV.
const BLOCK: usize = 16;

/// The least that can be a record.
const LEAST: usize = 64;

/// The octets behind the content beside the padding's p: the MAC, and the padding's last octet.
const TRAILER: usize = 33;

/// Whether a suite is served.
pub fn serves(suite: u16) -> bool
    ensures { result ≡ cbc_serves suite }
{
    suite == FIRST_SUITE || suite == SECOND_SUITE
}

/// Lays the padding behind `size` octets over `out` from `at` on, and says where it ends.
fn lay_padding(out: &mut [u8], at: usize, size: usize) -> usize
    requires { at + 16 ≤ length out.old }
    ensures end { result ≡ at + (least_pad size + 1) }
    ensures after { out.new ≡ laid out.old at (pad (least_pad size)) }
{
    let p = 15 - size % BLOCK;
    let octets = repeated(p as u8);
    lay(out, at, &octets[0..p + 1])
}

impl CbcKeys {
    /// The keys made ready, if the suite is served and the material is whole.
    pub fn new(suite: u16, role: Role, material: &[u8]) -> Option<CbcKeys>
        ensures { option_map keying_of result ≡ (if taken cbc_serves cbc_size (keying suite role material.now) then Some (keying suite role material.now) else None) }
    {
        if !serves(suite) || material.len() != SIZE {
            return None;
        }
        let mut held = [0u8; SIZE];
        held.copy_from_slice(material);
        let peer = role.peer();
        Some(CbcKeys {
            suite,
            role,
            material: held,
            writing: Sm4::new(&key(role, material)),
            reading: Sm4::new(&key(peer, material)),
        })
    }

    /// The suite that they are for.
    pub fn suite(&self) -> u16
        ensures { result ≡ self.now.suite }
    {
        self.suite
    }

    /// Lays content, MAC and padding over `out` from `at` on, and says where they end.
    fn lay_text(&self, number: u64, kind: u8, content: &[u8], out: &mut [u8], at: usize) -> usize
        requires { (length content.now ≤ content_limit) × (at + (length content.now + 48) ≤ length out.old) }
        ensures end { result ≡ at + length (text_of self.now.role self.now.material number kind content.now) }
        ensures after { out.new ≡ laid out.old at (text_of self.now.role self.now.material number kind content.now) }
    {
        let mac = tag_of(self.role, &self.material, number, kind, content);
        let behind = lay(out, at, content);
        let end = lay(out, behind, &mac);
        lay_padding(out, end, content.len() + 32)
    }

    /// Seals the content first in `out`: the fresh octets as IV, and the text encrypted.
    pub fn seal(&self, number: u64, kind: u8, content: &[u8], fresh: &[u8], out: &mut [u8]) -> usize
        requires fresh { length fresh.now ≡ 16 }
        requires most { length content.now ≤ content_limit }
        requires room { length content.now + 64 ≤ length out.old }
        ensures end { result ≡ length (cbc_sealing (keying_of self.now) number kind content.now fresh.now) }
        ensures after { out.new ≡ laid out.old 0 (cbc_sealing (keying_of self.now) number kind content.now fresh.now) }
    {
        let iv = sixteen(fresh);
        let at = lay(out, 0, fresh);
        let end = self.lay_text(number, kind, content, out, at);
        cbc::encrypt(&self.writing, &iv, &mut out[at..end]);
        end
    }

    /// How long the content of a decrypted text is, if its padding and its MAC are right.
    fn check(&self, number: u64, kind: u8, text: &[u8]) -> Option<usize>
        requires { (1 ≤ length text.now) × (length text.now ≤ sealed_limit) }
        ensures { result ≡ option_map length (checked (peer self.now.role) self.now.material number kind text.now) }
    {
        let n = text.len();
        let last = text[n - 1];
        let p = last as usize;
        if n < p + TRAILER {
            return None;
        }
        let octets = repeated(last);
        if !same(&text[n - (p + 1)..], &octets[0..p + 1]) {
            return None;
        }
        let size = n - (p + TRAILER);
        let mac = tag_of(
            self.role.peer(),
            &self.material,
            number,
            kind,
            &text[0..size],
        );
        if !same(&text[size..size + 32], &mac) {
            return None;
        }
        Some(size)
    }

    /// Opens octets into `place`, which holds zeros past the content, and everywhere after a no.
    pub fn open(
        &self,
        number: u64,
        kind: u8,
        octets: &[u8],
        place: &mut [u8],
    ) -> Result<usize, OpenError>
        requires { (length octets.now ≤ sealed_limit) × (sealed_limit ≤ length place.old) }
        ensures answer { result ≡ opened_length (cbc_opening (keying_of self.now) number kind octets.now) }
        ensures after { place.new ≡ placed (cbc_opening (keying_of self.now) number kind octets.now) place.old }
    {
        wipe(place);
        if octets.len() < LEAST || octets.len() % BLOCK != 0 {
            return Err(OpenError::Refused);
        }
        let iv = sixteen(&octets[0..BLOCK]);
        let n = octets.len() - BLOCK;
        lay(place, 0, &octets[BLOCK..]);
        cbc::decrypt(&self.reading, &iv, &mut place[0..n]);
        match self.check(number, kind, &place[0..n]) {
            Some(size) => {
                wipe(&mut place[size..]);
                Ok(size)
            }
            None => {
                wipe(place);
                Err(OpenError::Refused)
            }
        }
    }
}
