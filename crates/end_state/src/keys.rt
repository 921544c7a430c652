//! Keys, made in their place, which holds zeros again whichever way the making ends.
ghost use Rattle.std.specs.Prelude.{◌≡◌, ◌≤◌, length, replicate};
ghost use Rattle.key_schedule.specs.Schedule.{master_secret};
ghost use Rattle.end_state.specs.Keys.{keyed_by};

use crate::state::KeyScratch;
use key_schedule::{key_material, master_secret};
use octets::Role;
use protection::RecordProtection;

/// Lends the place for keys, and leaves zeros in it.
struct KeyGuard<'a>(&'a mut KeyScratch);

impl Drop for KeyGuard<'_> {
    fn drop(self)
        ensures premaster { self.exit.0.now.premaster ≡ replicate 48 0 }
        ensures material { self.exit.0.now.material ≡ replicate 96 0 }
    {
        self.0.premaster = [0; 48];
        self.0.material = [0; 96];
        let KeyGuard(_) = self;
    }
}

/// Makes the master secret from a premaster, and keys the protection from it.
/// Premaster and material stand in `keys` only, which holds zeros afterwards.
pub fn make_keys<P: RecordProtection>(
    premaster: &[u8],
    client_random: &[u8; 32],
    server_random: &[u8; 32],
    suite: u16,
    role: Role,
    keys: &mut KeyScratch,
    master: &mut [u8; 48],
    protection: &mut P,
)
    requires { length premaster.now ≡ 48 }
    ensures master { master.new ≡ master_secret premaster.now client_random.now server_random.now }
    ensures held { P.RecordProtection.holds protection.new ≡ keyed_by P.RecordProtection.serves P.RecordProtection.size suite role (master_secret premaster.now client_random.now server_random.now) client_random.now server_random.now (P.RecordProtection.holds protection.old) }
    ensures premaster { keys.new.premaster ≡ replicate 48 0 }
    ensures material { keys.new.material ≡ replicate 96 0 }
{
    let guard = KeyGuard(keys);
    guard.0.premaster.copy_from_slice(premaster);
    master_secret(&guard.0.premaster, client_random, server_random, master);
    if !P::serves(suite) {
        return;
    }
    let material: &mut [u8] = &mut guard.0.material;
    let whole = &mut material[0..P::size(suite)];
    key_material(master, client_random, server_random, whole);
    protection.key(suite, role, whole);
}
