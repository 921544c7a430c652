// GHASH of additional data and ciphertext.
ghost use Rattle.std.specs.Prelude.{◌≡◌, ◌++◌, length, bit_xor};
ghost use Rattle.gcm.specs.Blocks.{value};
ghost use Rattle.gcm.specs.Field.{product};
ghost use Rattle.gcm.specs.Gcm.{bits64};
ghost use Rattle.gcm.specs.Ghash.{absorbed};

use crate::blocks::{block_at, last_block, load};
use crate::hash_key::HashKey;

/// The hash from `y` on over a text, with zeros up to whole blocks.
fn absorb(key: &HashKey, y: u128, octets: &[u8]) -> u128
    ensures { result ≡ absorbed key.now.h y octets.now }
{
    let mut sum = y;
    for i in 0..octets.len() / 16 {
        sum = key.times(sum ^ load(block_at(octets, i * 16)));
    }
    if octets.len() % 16 == 0 {
        return sum;
    }
    key.times(sum ^ load(last_block(octets)))
}

/// How many bits two texts have, in 64 bits each, as one block.
fn length_block(aad: usize, octets: usize) -> u128
    ensures { result ≡ value (bits64 aad ++ bits64 octets) }
{
    let first = (aad as u64).wrapping_mul(8);
    let second = (octets as u64).wrapping_mul(8);
    ((first as u128) << 64) | second as u128
}

/// GHASH of the additional data, the text and their lengths.
pub fn digest(key: &HashKey, aad: &[u8], octets: &[u8]) -> u128
    ensures { result ≡ product (bit_xor (absorbed key.now.h (absorbed key.now.h 0 aad.now) octets.now) (value (bits64 (length aad.now) ++ bits64 (length octets.now)))) key.now.h }
{
    let first = absorb(key, 0, aad);
    let second = absorb(key, first, octets);
    key.times(second ^ length_block(aad.len(), octets.len()))
}
