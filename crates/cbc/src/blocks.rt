ghost use Rattle.std.specs.Prelude.{◌≡◌, ◌+◌, ◌≤◌, ◌++◌, length, take, drop};
ghost use Rattle.cbc.specs.Cbc.{xors};

/// The octets in a block.
pub const BLOCK: usize = 16;

/// A block xor another.
pub fn xor(block: [u8; 16], other: [u8; 16]) -> [u8; 16]
    ensures { result ≡ xors block other }
{
    let mut out = block;
    for i in 0..BLOCK {
        out[i] ^= other[i];
    }
    out
}

/// The block that begins at a place.
pub fn block_at(octets: &[u8], at: usize) -> [u8; 16]
    requires { at + 16 ≤ length octets.now }
    ensures { result ≡ take 16 (drop at octets.now) }
{
    let mut out = [0u8; 16];
    out.copy_from_slice(&octets[at..at + BLOCK]);
    out
}

/// Writes a block from a place on.
pub fn put_block(octets: &mut [u8], at: usize, block: [u8; 16])
    requires { at + 16 ≤ length octets.old }
    ensures { octets.new ≡ take at octets.old ++ (block ++ drop (at + 16) octets.old) }
{
    octets[at..at + BLOCK].copy_from_slice(&block);
}
