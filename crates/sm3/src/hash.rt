// The hash under way: whole blocks are compressed where they stand in the input, the rest of a block is kept.
ghost use Rattle.std.specs.Prelude.{◌≡◌, ◌+◌, ◌-◌, ◌*◌, ◌%◌, ◌^◌, ◌<◌, ◌++◌, length, replicate};
ghost use Rattle.sm3.specs.Hash.{octets64, padding, sm3, start, absorb, finished};
ghost use Rattle.sm3.specs.View.{view};

use crate::chain::Chain;

// The octets of a block.
const BLOCK: usize = 64;

/// The SM3 hash of the octets given so far. A copy goes on by itself.
#[derive(Clone, Copy)]
pub struct Sm3 {
    // the chaining value after the whole blocks
    chain: Chain,
    // the octets since, first in it; what stands behind them does not count
    block: [u8; 64],
    // the number of octets, modulo 2^64
    count: u64,
}

impl Sm3 {
    /// A hash that has been given nothing.
    pub fn new() -> Sm3
        ensures { view result ≡ start }
    {
        Sm3 {
            chain: Chain::new(),
            block: [0; 64],
            count: 0,
        }
    }

    // How many octets of the last block are kept.
    fn held(&self) -> usize
        ensures { result ≡ self.now.count % 64 }
    {
        (self.count % 64) as usize
    }

    // Keeps octets that do not fill the block.
    fn hold(&mut self, octets: &[u8])
        requires { self.old.count % 64 + length octets.now < 64 }
        ensures { view self.new ≡ absorb (view self.old) octets.now }
    {
        let at = self.held();
        self.block[at..at + octets.len()].copy_from_slice(octets);
        self.count = self.count.wrapping_add(octets.len() as u64);
    }

    // Takes the octets that fill the block.
    fn complete(&mut self, octets: &[u8])
        requires { self.old.count % 64 + length octets.now ≡ 64 }
        ensures { view self.new ≡ absorb (view self.old) octets.now }
    {
        let at = self.held();
        self.block[at..BLOCK].copy_from_slice(octets);
        self.count = self.count.wrapping_add(octets.len() as u64);
        self.chain.compress(&self.block);
    }

    // Takes whole blocks, with none begun.
    fn take_blocks(&mut self, octets: &[u8])
        requires { (self.old.count % 64 ≡ 0) × (length octets.now % 64 ≡ 0) }
        ensures { view self.new ≡ absorb (view self.old) octets.now }
    {
        let mut at = 0;
        while at < octets.len() {
            self.chain.compress(&octets[at..at + BLOCK]);
            at += BLOCK;
        }
        self.count = self.count.wrapping_add(octets.len() as u64);
    }

    // Takes octets with no block begun.
    fn take_aligned(&mut self, octets: &[u8])
        requires { self.old.count % 64 ≡ 0 }
        ensures { view self.new ≡ absorb (view self.old) octets.now }
    {
        let whole = octets.len() - octets.len() % BLOCK;
        self.take_blocks(&octets[0..whole]);
        self.hold(&octets[whole..]);
    }

    /// Takes more octets.
    pub fn update(&mut self, octets: &[u8])
        ensures { view self.new ≡ absorb (view self.old) octets.now }
    {
        let room = BLOCK - self.held();
        if octets.len() < room {
            self.hold(octets);
        } else if room < BLOCK {
            self.complete(&octets[0..room]);
            self.take_aligned(&octets[room..]);
        } else {
            self.take_aligned(octets);
        }
    }

    /// The hash of all octets so far, which does not end it.
    pub fn digest(&self) -> [u8; 32]
        ensures { result ≡ finished (view self.now) }
    {
        let tail = padding_octets(self.count);
        let mut whole = *self;
        whole.update(&tail[0..padding_len(self.count)]);
        whole.chain.octets()
    }
}

// The length of the padding of a message of `count` octets.
fn padding_len(count: u64) -> usize
    ensures { result ≡ (119 - count % 64) % 64 + 9 }
{
    ((119 - count % 64) % 64) as usize + 9
}

// The number of bits of a message of `count` octets, as the padding ends with it.
fn bit_count(count: u64) -> [u8; 8]
    ensures { result ≡ octets64 (count * 8 % 2 ^ 64) }
{
    count.wrapping_mul(8).to_be_bytes()
}

// This padding, with zeros behind it.
fn padding_octets(count: u64) -> [u8; 72]
    ensures { result ≡ padding count ++ replicate (63 - (119 - count % 64) % 64) 0 }
{
    let end = padding_len(count);
    let bits = bit_count(count);
    let mut tail = [0u8; 72];
    tail[0] = 0x80;
    tail[end - 8..end].copy_from_slice(&bits);
    tail
}

// A hash that has been given a message.
fn begun(octets: &[u8]) -> Sm3
    ensures { view result ≡ absorb start octets.now }
{
    let mut hash = Sm3::new();
    hash.update(octets);
    hash
}

/// The SM3 hash of a message.
pub fn digest_of(octets: &[u8]) -> [u8; 32]
    ensures { result ≡ sm3 octets.now }
{
    begun(octets).digest()
}
