ghost use Rattle.std.specs.Prelude.{◌≡◌, true, length};
ghost use Rattle.octets.specs.Roles.{peer};
ghost use Rattle.sm4.specs.Cipher.{round_keys};
ghost use Rattle.sm4.specs.View.{keys_of};
ghost use Rattle.cbc_protection.specs.Layout.{key_of};
ghost use Rattle.cbc_protection.specs.Records.{cbc_serves};

mod records;

use octets::Role;
pub use records::{SIZE, serves};
use sm4::Sm4;

/// What a keyed protection holds, with the ciphers of both directions made ready once.
#[derive(Drop)]
pub struct CbcKeys {
    suite: u16,
    role: Role,
    material: [u8; 96],
    writing: Sm4,
    reading: Sm4,
    ghost served: { cbc_serves suite ≡ true },
    ghost whole: { length material ≡ 96 },
    ghost writes: { keys_of writing ≡ round_keys (key_of role material) },
    ghost reads: { keys_of reading ≡ round_keys (key_of (peer role) material) },
}
