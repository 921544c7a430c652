ghost use Rattle.std.specs.Prelude.{◌≡◌, ◌+◌, ◌≤◌};
ghost use Rattle.sm4.specs.Cipher.{loaded, stored, reversed as reversedOf, round as roundOf, key_round};
ghost use Rattle.sm4.specs.View.{quad_of};
ghost use Rattle.sm4.specs.Words.{word_at};

use crate::transform::{transform, transform_key};

/// Four words, which a round moves on by one place.
#[derive(Clone, Copy)]
pub struct State {
    pub a: u32,
    pub b: u32,
    pub c: u32,
    pub d: u32,
}

/// The word that begins at octet `at` of a block.
fn word_from(block: &[u8; 16], at: usize) -> u32
    requires { at + 4 ≤ 16 }
    ensures { result ≡ word_at block.now at }
{
    u32::from_be_bytes([block[at], block[at + 1], block[at + 2], block[at + 3]])
}

/// A block as four words.
pub fn load(block: &[u8; 16]) -> State
    ensures { quad_of result ≡ loaded block.now }
{
    State {
        a: word_from(block, 0),
        b: word_from(block, 4),
        c: word_from(block, 8),
        d: word_from(block, 12),
    }
}

impl State {
    /// Four words as a block.
    pub fn store(self) -> [u8; 16]
        ensures { result ≡ stored (quad_of self) }
    {
        let [a0, a1, a2, a3] = self.a.to_be_bytes();
        let [b0, b1, b2, b3] = self.b.to_be_bytes();
        let [c0, c1, c2, c3] = self.c.to_be_bytes();
        let [d0, d1, d2, d3] = self.d.to_be_bytes();
        [
            a0, a1, a2, a3, b0, b1, b2, b3, c0, c1, c2, c3, d0, d1, d2, d3,
        ]
    }

    /// The words in the opposite sequence.
    pub fn reversed(self) -> State
        ensures { quad_of result ≡ reversedOf (quad_of self) }
    {
        State {
            a: self.d,
            b: self.c,
            c: self.b,
            d: self.a,
        }
    }

    /// A round with a round key.
    pub fn round(self, key: u32) -> State
        ensures { quad_of result ≡ roundOf key (quad_of self) }
    {
        State {
            a: self.b,
            b: self.c,
            c: self.d,
            d: self.a ^ transform(self.b ^ self.c ^ self.d ^ key),
        }
    }

    /// A step of the key expansion with a fixed parameter.
    pub fn key_round(self, fixed: u32) -> State
        ensures { quad_of result ≡ key_round fixed (quad_of self) }
    {
        State {
            a: self.b,
            b: self.c,
            c: self.d,
            d: self.a ^ transform_key(self.b ^ self.c ^ self.d ^ fixed),
        }
    }
}
