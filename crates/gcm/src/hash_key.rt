// The hash key of GHASH, prepared for multiplying.
ghost use Rattle.std.specs.Prelude.{◌≡◌};
ghost use Rattle.gcm.specs.Field.{product};
ghost use Rattle.gcm.specs.Tables.{multiples};

use crate::field::{multiple, shift_octet};

/// The hash key H with its multiples by every octet.
#[derive(Clone, Copy)]
pub struct HashKey {
    h: u128,
    table: [u128; 256],
    ghost filled: { table ≡ multiples h },
}

impl HashKey {
    /// The multiples of a hash key.
    pub fn new(h: u128) -> HashKey
        ensures { result.h ≡ h }
    {
        let mut table = [0u128; 256];
        for i in 0..256 {
            table[i] = multiple(i as u128, h);
        }
        HashKey { h, table }
    }

    /// The product of a block and the hash key, octet by octet from the last.
    pub fn times(&self, x: u128) -> u128
        ensures { result ≡ product x self.now.h }
    {
        let mut z: u128 = 0;
        let mut left = x;
        for _i in 0..16u32 {
            z = shift_octet(z) ^ self.table[(left & 0xff) as usize];
            left >>= 8;
        }
        z
    }
}
