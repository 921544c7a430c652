ghost use Rattle.std.specs.Prelude.{◌≡◌, ℕ, ◌+◌, ◌≤◌, Bool, true, false, List, length, Some, Ok, Option, Result};
ghost use Rattle.std.specs.Option.{option_map};
ghost use Rattle.protection.specs.declared.error.OpenError.{OpenError};
ghost use Rattle.protection.specs.Limits.{growth, sealed_limit, material_limit};
ghost use Rattle.protection.specs.Keys.{Keying, keying, suite_of, across, taken, rekeyed};
ghost use Rattle.protection.specs.Calls.{sealed_with, written, opened_with, opened_length, placed};
ghost use Rattle.protection.specs.Owed.{Keyed, Sealable, Openable};

use crate::OpenError;
use octets::Role;

/// A protection of records. It holds a suite, a role and key material, or is unkeyed.
///
/// An implementer says by the ghost members what its kind does, shows the laws of them, and writes the methods, each of
/// which answers and leaves in its buffers exactly what specs/Calls.antt makes of the ghost members. Sealing and
/// opening take `&self`: they are functions of what is held and given, and alter nothing.
pub trait RecordProtection {
    /// Whether a suite is served: alike for all protections of the kind, at all times.
    ghost serves: { ℕ → Bool };

    /// How many octets of key material a suite takes.
    ghost size: { ℕ → ℕ };

    /// The sealed list: by a keying, at a number and for a kind of record, of a content, with fresh octets.
    ghost sealing: { Keying → ℕ → ℕ → List ℕ → List ℕ → List ℕ };

    /// The content of octets, or a no: by a keying, at a number and for a kind of record.
    ghost opening: { Keying → ℕ → ℕ → List ℕ → Result (List ℕ) OpenError };

    /// What a protection holds.
    ghost holds: { Self → Option Keying };

    /// Whether a suite is served.
    fn serves(suite: u16) -> bool
        ensures { result ≡ serves suite };

    /// How many octets of key material a suite takes.
    fn size(suite: u16) -> usize
        ensures { result ≡ size suite };

    /// The suite that is held, or none when unkeyed.
    fn suite(&self) -> Option<u16>
        ensures { result ≡ option_map suite_of (holds self.now) };

    /// Takes a served suite with exactly as much material as it has to have, and says yes. To any other keying it
    /// says no, and alters nothing.
    fn key(&mut self, suite: u16, role: Role, material: &[u8]) -> bool
        ensures answer { result ≡ taken serves size (keying suite role material.now) }
        ensures after { holds self.new ≡ rekeyed serves size (keying suite role material.now) (holds self.old) }
        ensures unaltered { result ≡ false → self.new ≡ self.old };

    /// Seals a content of 1 to 16,384 octets with 16 fresh octets: the sealed list stands first in `out`, and its
    /// length is told. When unkeyed, with another length, or with less room than the content and 2,048 octets,
    /// there is none and `out` is left alone. A sealed list may be empty.
    fn seal(
        &self,
        number: u64,
        kind: u8,
        content: &[u8],
        fresh: &[u8],
        out: &mut [u8],
    ) -> Option<usize>
        ensures answer { result ≡ option_map length (sealed_with sealing (holds self.now) number kind content.now fresh.now (length out.old)) }
        ensures after { out.new ≡ written (sealed_with sealing (holds self.now) number kind content.now fresh.now (length out.old)) out.old };

    /// Opens up to 18,432 octets into a place of at least 18,432: the content stands first in `place`, and its length
    /// is told. It says no when unkeyed, with another length or less room, and where the kind says no. Past the
    /// content, and everywhere after a no, `place` holds zeros.
    fn open(
        &self,
        number: u64,
        kind: u8,
        octets: &[u8],
        place: &mut [u8],
    ) -> Result<usize, OpenError>
        ensures answer { result ≡ opened_length (opened_with opening (holds self.now) number kind octets.now (length place.old)) }
        ensures after { place.new ≡ placed (opened_with opening (holds self.now) number kind octets.now (length place.old)) place.old };

    /// A served suite takes 1 to 96 octets of material.
    ghost sizes: { (s : ℕ) → serves s ≡ true → (1 ≤ size s) × (size s ≤ material_limit) };

    /// What one side seals, the other with the same suite and material opens at that number and kind to that content.
    ghost opens: { (k : Keying) (n t : ℕ) (c f : List ℕ) → Keyed serves size k → Sealable n t c f → opening (across k) n t (sealing k n t c f) ≡ Ok c };

    /// A sealed list is at most 2,048 octets longer than its content.
    ghost grows: { (k : Keying) (n t : ℕ) (c f : List ℕ) → Keyed serves size k → Sealable n t c f → length (sealing k n t c f) ≤ length c + growth };

    /// An opened content has at most 18,432 octets.
    ghost fits: { (k : Keying) (n t : ℕ) (l c : List ℕ) → Keyed serves size k → Openable n t l → opening k n t l ≡ Ok c → length c ≤ sealed_limit };

    /// What is held is of a served suite, with exactly as much material as that takes.
    ghost served: { (p : Self) (k : Keying) → holds p ≡ Some k → (serves k.suite ≡ true) × (length k.material ≡ size k.suite) };
}
