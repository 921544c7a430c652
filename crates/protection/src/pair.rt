ghost use Rattle.std.specs.Prelude.{◌≡◌, ℕ, Bool, true, false, None};
ghost use Rattle.protection.specs.Keys.{Keying, keying, taken, rekeyed};
ghost use Rattle.protection.specs.Pairs.{shared, pair_serves, pair_size, pair_holds};
ghost use Rattle.std.proofs.Common.{rules};

use crate::{OpenError, RecordProtection};
use octets::{Role, wipe};

/// Which of its two a pair has keyed last.
#[derive(Clone, Copy)]
enum Member {
    Neither,
    First,
    Second,
}

/// Two protections as one, serving what either serves. A suite that both serve is the first's alone.
#[derive(Drop)]
pub struct PairedProtection<A: RecordProtection, B: RecordProtection> {
    first: A,
    second: B,
    keyed: Member,
}

impl<A: RecordProtection, B: RecordProtection> PairedProtection<A, B> {
    /// The two as one, unkeyed whatever they hold.
    pub fn new(first: A, second: B) -> PairedProtection<A, B>
        ensures unkeyed { pair_holds A.RecordProtection.serves result.keyed (A.RecordProtection.holds result.first) (B.RecordProtection.holds result.second) ≡ None }
        ensures first { result.first ≡ first }
        ensures second { result.second ≡ second }
    {
        PairedProtection {
            first,
            second,
            keyed: Member::Neither,
        }
    }
}

impl<A: RecordProtection, B: RecordProtection> RecordProtection for PairedProtection<A, B> {
    ghost serves = { pair_serves A.RecordProtection.serves B.RecordProtection.serves };

    ghost size = { pair_size A.RecordProtection.serves A.RecordProtection.size B.RecordProtection.size };

    ghost sealing = { λ k n t c f. shared A.RecordProtection.serves k.suite (A.RecordProtection.sealing k n t c f) (B.RecordProtection.sealing k n t c f) };

    ghost opening = { λ k n t l. shared A.RecordProtection.serves k.suite (A.RecordProtection.opening k n t l) (B.RecordProtection.opening k n t l) };

    ghost holds = { λ p. pair_holds A.RecordProtection.serves p.keyed (A.RecordProtection.holds p.first) (B.RecordProtection.holds p.second) };

    ghost sizes = { Prim.search rules };

    ghost opens = { Prim.search rules };

    ghost grows = { Prim.search rules };

    ghost fits = { Prim.search rules };

    ghost served = { Prim.search rules };

    fn serves(suite: u16) -> bool {
        A::serves(suite) || B::serves(suite)
    }

    fn size(suite: u16) -> usize {
        if A::serves(suite) {
            A::size(suite)
        } else {
            B::size(suite)
        }
    }

    fn suite(&self) -> Option<u16> {
        match self.keyed {
            Member::Neither => None,
            Member::First => self.first.suite(),
            Member::Second => match self.second.suite() {
                Some(suite) => if A::serves(suite) { None } else { Some(suite) },
                None => None,
            },
        }
    }

    /// Keys the member whose suite it is, and leaves the other as it is.
    fn key(&mut self, suite: u16, role: Role, material: &[u8]) -> bool
        ensures answer { result ≡ taken (pair_serves A.RecordProtection.serves B.RecordProtection.serves) (pair_size A.RecordProtection.serves A.RecordProtection.size B.RecordProtection.size) (keying suite role material.now) }
        ensures after { pair_holds A.RecordProtection.serves self.new.keyed (A.RecordProtection.holds self.new.first) (B.RecordProtection.holds self.new.second) ≡ rekeyed (pair_serves A.RecordProtection.serves B.RecordProtection.serves) (pair_size A.RecordProtection.serves A.RecordProtection.size B.RecordProtection.size) (keying suite role material.now) (pair_holds A.RecordProtection.serves self.old.keyed (A.RecordProtection.holds self.old.first) (B.RecordProtection.holds self.old.second)) }
        ensures unaltered { result ≡ false → self.new ≡ self.old }
        ensures second { A.RecordProtection.serves suite ≡ true → self.new.second ≡ self.old.second }
        ensures first { A.RecordProtection.serves suite ≡ false → self.new.first ≡ self.old.first }
    {
        let first_serves = A::serves(suite);
        if first_serves {
            if !self.first.key(suite, role, material) {
                return false;
            }
            self.keyed = Member::First;
        } else {
            if !self.second.key(suite, role, material) {
                return false;
            }
            self.keyed = Member::Second;
        }
        true
    }

    fn seal(
        &self,
        number: u64,
        kind: u8,
        content: &[u8],
        fresh: &[u8],
        out: &mut [u8],
    ) -> Option<usize> {
        match (self.keyed, self.suite()) {
            (Member::First, _) => self.first.seal(number, kind, content, fresh, out),
            (Member::Second, Some(_)) => self.second.seal(number, kind, content, fresh, out),
            _ => None,
        }
    }

    fn open(
        &self,
        number: u64,
        kind: u8,
        octets: &[u8],
        place: &mut [u8],
    ) -> Result<usize, OpenError> {
        match (self.keyed, self.suite()) {
            (Member::First, _) => self.first.open(number, kind, octets, place),
            (Member::Second, Some(_)) => self.second.open(number, kind, octets, place),
            _ => {
                wipe(place);
                Err(OpenError::Refused)
            }
        }
    }
}
