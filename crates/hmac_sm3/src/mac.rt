ghost use Rattle.std.specs.Prelude.{◌≡◌, ◌≤◌, length};
ghost use Rattle.hmac_sm3.specs.Pieces.{pieced};
ghost use Rattle.hmac_sm3.specs.Hmac.{filled, key_block, xored, hmac};
ghost use Rattle.hmac_sm3.specs.Keyed.{keyed, fed, tag};
ghost use Rattle.hmac_sm3.specs.View.{seen};

use octets::lay;
use sm3::{Sm3, digest_of};

// The octets of a block of SM3, which a longer key is hashed to fit.
const BLOCK: usize = 64;

// What goes into every octet of the key for the inner digest.
const INNER_PAD: u8 = 0x36;

// What goes into every octet of the key for the outer digest.
const OUTER_PAD: u8 = 0x5c;

/// A tag under way: the key is taken in, and the text so far.
#[derive(Clone, Copy)]
pub struct Hmac {
    inner: Sm3,
    outer: Sm3,
}

// At most a block of octets, and zeros up to a block.
fn filled_up(octets: &[u8]) -> [u8; 64]
    requires { length octets.now ≤ 64 }
    ensures { result ≡ filled octets.now }
{
    let mut block = [0u8; 64];
    lay(&mut block, 0, octets);
    block
}

// The key, or its digest if it is longer than a block, as a block.
fn block_of(key: &[u8]) -> [u8; 64]
    ensures { result ≡ key_block key.now }
{
    if key.len() > BLOCK {
        filled_up(&digest_of(key))
    } else {
        filled_up(key)
    }
}

// The exclusive or of every octet with `pad`.
fn padded(block: &[u8; 64], pad: u8) -> [u8; 64]
    ensures { result ≡ xored pad block.now }
{
    let mut out = [0u8; 64];
    for i in 0..64 {
        out[i] = block[i] ^ pad;
    }
    out
}

impl Hmac {
    /// Takes in a key of any length.
    pub fn new(key: &[u8]) -> Hmac
        ensures { seen result ≡ keyed key.now }
    {
        let block = block_of(key);
        let inside = padded(&block, INNER_PAD);
        let outside = padded(&block, OUTER_PAD);
        let mut inner = Sm3::new();
        inner.update(&inside);
        let mut outer = Sm3::new();
        outer.update(&outside);
        Hmac { inner, outer }
    }

    /// Takes in a piece of text.
    pub fn update(&mut self, octets: &[u8])
        ensures { seen self.new ≡ fed (seen self.old) octets.now }
    {
        self.inner.update(octets);
    }

    /// Takes in pieces of text, one after the other.
    pub fn update_all(&mut self, pieces: &[&[u8]])
        ensures { seen self.new ≡ fed (seen self.old) (pieced (λ x. x.now) pieces.now) }
    {
        for piece in pieces {
            self.update(piece);
        }
    }

    /// The tag of the text so far; more text can follow.
    pub fn tag(&self) -> [u8; 32]
        ensures { result ≡ tag (seen self.now) }
    {
        let digest = self.inner.digest();
        let mut outer = self.outer;
        outer.update(&digest);
        outer.digest()
    }
}

// A tag under way that has been given a text.
fn begun(key: &[u8], octets: &[u8]) -> Hmac
    ensures { seen result ≡ fed (keyed key.now) octets.now }
{
    let mut mac = Hmac::new(key);
    mac.update(octets);
    mac
}

/// The tag of a text under a key.
pub fn hmac_of(key: &[u8], octets: &[u8]) -> [u8; 32]
    ensures { result ≡ hmac key.now octets.now }
{
    begun(key, octets).tag()
}
