ghost use Rattle.std.specs.Prelude.{◌≡◌, true, length};
ghost use Rattle.octets.specs.Roles.{peer};
ghost use Rattle.sm4.specs.Cipher.{round_keys};
ghost use Rattle.gcm.specs.View.{keys_of};
ghost use Rattle.gcm_protection.specs.Layout.{key_of};
ghost use Rattle.gcm_protection.specs.Records.{gcm_serves};

mod records;

use crate::suites::SIZE;
use gcm::Gcm;
use octets::Role;

/// What a keyed protection holds, with the ciphers of both directions made ready once.
#[derive(Drop)]
pub struct GcmKeys {
    suite: u16,
    role: Role,
    material: [u8; SIZE],
    writing: Gcm,
    reading: Gcm,
    ghost served: { gcm_serves suite ≡ true },
    ghost whole: { length material ≡ 40 },
    ghost writes: { keys_of writing ≡ round_keys (key_of role material) },
    ghost reads: { keys_of reading ≡ round_keys (key_of (peer role) material) },
}
