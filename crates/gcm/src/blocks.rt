// Blocks of a text.
ghost use Rattle.std.specs.Prelude.{◌≡◌, ◌+◌, ◌-◌, ◌*◌, ◌/◌, ◌%◌, ◌≤◌, ◌++◌, length, take, drop, replicate};
ghost use Rattle.gcm.specs.Blocks.{value};

/// A block as a number.
pub fn load(block: [u8; 16]) -> u128
    ensures { result ≡ value block }
{
    u128::from_be_bytes(block)
}

/// The whole block at a place.
pub fn block_at(octets: &[u8], at: usize) -> [u8; 16]
    requires { at + 16 ≤ length octets.now }
    ensures { result ≡ take 16 (drop at octets.now) }
{
    let mut block = [0u8; 16];
    block.copy_from_slice(&octets[at..at + 16]);
    block
}

/// The octets behind the whole blocks, with zeros up to a block.
pub fn last_block(octets: &[u8]) -> [u8; 16]
    ensures { result ≡ drop (length octets.now / 16 * 16) octets.now ++ replicate (16 - length octets.now % 16) 0 }
{
    let mut block = [0u8; 16];
    let n = octets.len() % 16;
    block[0..n].copy_from_slice(&octets[octets.len() - n..]);
    block
}
