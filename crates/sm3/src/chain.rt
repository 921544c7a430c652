// The chaining value: eight words, and what a block makes of them.
ghost use Rattle.std.specs.Prelude.{◌≡◌, length};
ghost use Rattle.sm3.specs.Compress.{xors, compress};
ghost use Rattle.sm3.specs.Hash.{iv, output};

use crate::rounds::all_rounds;

/// A chaining value.
#[derive(Clone, Copy)]
pub struct Chain {
    /// The words A to H.
    pub words: [u32; 8],
}

// The initial value.
const INITIAL: [u32; 8] = [
    0x7380_166f,
    0x4914_b2b9,
    0x1724_42d7,
    0xda8a_0600,
    0xa96f_30bc,
    0x1631_38aa,
    0xe38d_ee4d,
    0xb0fb_0e4e,
];

// Two chaining values, added bit by bit.
fn mixed(u: [u32; 8], v: [u32; 8]) -> [u32; 8]
    ensures { result ≡ xors u v }
{
    [
        u[0] ^ v[0],
        u[1] ^ v[1],
        u[2] ^ v[2],
        u[3] ^ v[3],
        u[4] ^ v[4],
        u[5] ^ v[5],
        u[6] ^ v[6],
        u[7] ^ v[7],
    ]
}

impl Chain {
    /// The chaining value before the first block.
    pub fn new() -> Chain
        ensures { result.words ≡ iv }
    {
        Chain { words: INITIAL }
    }

    /// Goes on by a block of 64 octets.
    pub fn compress(&mut self, block: &[u8])
        requires { length block.now ≡ 64 }
        ensures { self.new.words ≡ compress self.old.words block.now }
    {
        let before = self.words;
        let after = mixed(all_rounds(before, block), before);
        self.words = after;
    }

    /// The words as 32 octets.
    pub fn octets(&self) -> [u8; 32]
        ensures { result ≡ output self.now.words }
    {
        let v = self.words;
        let mut out = [0u8; 32];
        for i in 0..32usize {
            out[i] = ((v[i / 4] >> (24 - 8 * (i % 4))) % 256) as u8;
        }
        out
    }
}
