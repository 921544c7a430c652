// A key prepared for authenticated encryption.
ghost use Rattle.std.specs.Prelude.{◌≡◌};
ghost use Rattle.sm4.specs.View.{keys_of};
ghost use Rattle.gcm.specs.Gcm.{hash_key};

mod seal;

use crate::hash_key::HashKey;
use sm4::Sm4;

/// The round keys of a key, and its hash key.
#[derive(Clone, Copy)]
pub struct Gcm {
    cipher: Sm4,
    hash: HashKey,
    ghost keyed: { hash.h ≡ hash_key (keys_of cipher) },
}
