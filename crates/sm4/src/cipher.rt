ghost use Rattle.std.specs.Prelude.{◌≡◌, reverse};
ghost use Rattle.sm4.specs.Cipher.{crypt, round_keys};
ghost use Rattle.sm4.specs.View.{keys_of};

use crate::round_keys::RoundKeys;
use crate::state::load;

/// The cipher under one key: what it holds are the round keys, which no one outside can see or set.
#[derive(Clone, Copy)]
pub struct Sm4 {
    round_keys: RoundKeys,
}

impl Sm4 {
    /// The cipher under a key.
    pub fn new(key: &[u8; 16]) -> Sm4
        ensures { keys_of result ≡ round_keys key.now }
    {
        Sm4 {
            round_keys: RoundKeys::expand(key),
        }
    }

    /// A block encrypted.
    pub fn encrypt(&self, block: [u8; 16]) -> [u8; 16]
        ensures { result ≡ crypt (keys_of self.now) block }
    {
        self.round_keys.forwards(load(&block)).reversed().store()
    }

    /// A block decrypted: the round keys are used from the last to the first.
    pub fn decrypt(&self, block: [u8; 16]) -> [u8; 16]
        ensures { result ≡ crypt (reverse (keys_of self.now)) block }
    {
        self.round_keys.backwards(load(&block)).reversed().store()
    }
}
