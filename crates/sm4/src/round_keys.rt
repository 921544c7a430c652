ghost use Rattle.std.specs.Prelude.{◌≡◌, reverse};
ghost use Rattle.sm4.specs.Cipher.{rounds, whitened, round_keys};
ghost use Rattle.sm4.specs.View.{quad_of};

use crate::state::{State, load};

/// The system parameter FK.
const FK: [u32; 4] = [0xa3b1bac6, 0x56aa3350, 0x677d9197, 0xb27022dc];

/// The fixed parameters CK.
const CK: [u32; 32] = [
    0x00070e15, 0x1c232a31, 0x383f464d, 0x545b6269, 0x70777e85, 0x8c939aa1, 0xa8afb6bd, 0xc4cbd2d9,
    0xe0e7eef5, 0xfc030a11, 0x181f262d, 0x343b4249, 0x50575e65, 0x6c737a81, 0x888f969d, 0xa4abb2b9,
    0xc0c7ced5, 0xdce3eaf1, 0xf8ff060d, 0x141b2229, 0x30373e45, 0x4c535a61, 0x686f767d, 0x848b9299,
    0xa0a7aeb5, 0xbcc3cad1, 0xd8dfe6ed, 0xf4fb0209, 0x10171e25, 0x2c333a41, 0x484f565d, 0x646b7279,
];

/// The 32 round keys, in the sequence of encryption.
#[derive(Clone, Copy)]
pub struct RoundKeys {
    words: [u32; 32],
}

/// The key xor the system parameter.
fn whiten(key: State) -> State
    ensures { quad_of result ≡ whitened (quad_of key) }
{
    State {
        a: key.a ^ FK[0],
        b: key.b ^ FK[1],
        c: key.c ^ FK[2],
        d: key.d ^ FK[3],
    }
}

impl RoundKeys {
    /// The round keys of a key.
    pub fn expand(key: &[u8; 16]) -> RoundKeys
        ensures { result.words ≡ round_keys key.now }
    {
        let mut state = whiten(load(key));
        let mut words = [0u32; 32];
        for i in 0..32 {
            state = state.key_round(CK[i]);
            words[i] = state.d;
        }
        RoundKeys { words }
    }

    /// The rounds of encryption: the first key first.
    pub fn forwards(&self, start: State) -> State
        ensures { quad_of result ≡ rounds self.now.words (quad_of start) }
    {
        let keys: &[u32] = &self.words;
        let mut state = start;
        for key in keys {
            state = state.round(*key);
        }
        state
    }

    /// The rounds of decryption: the last key first.
    pub fn backwards(&self, start: State) -> State
        ensures { quad_of result ≡ rounds (reverse self.now.words) (quad_of start) }
    {
        let keys: &[u32] = &self.words;
        let mut state = start;
        for i in (0..keys.len()).rev() {
            state = state.round(keys[i]);
        }
        state
    }
}
