// Sealing and opening in place.
ghost use Rattle.std.specs.Prelude.{◌≡◌, is_some};
ghost use Rattle.std.specs.Option.{unwrap_or};
ghost use Rattle.sm4.specs.Cipher.{round_keys};
ghost use Rattle.gcm.specs.Counter.{inc32 as counted};
ghost use Rattle.gcm.specs.Gcm.{J0, enciphered, tag as tag_of, opened};
ghost use Rattle.gcm.specs.View.{keys_of};

use super::Gcm;
use crate::blocks::load;
use crate::counter::{gctr, inc32};
use crate::ghash::digest;
use crate::hash_key::HashKey;
use octets::same;
use sm4::Sm4;

/// The counter block that a nonce gives: its 96 bits, and 1 in the last 32.
fn first_block(nonce: &[u8; 12]) -> u128
    ensures { result ≡ J0 nonce.now }
{
    let mut block = [0u8; 16];
    block[0..12].copy_from_slice(nonce);
    block[15] = 1;
    load(block)
}

/// The counter block of the first block of a text.
fn text_block(nonce: &[u8; 12]) -> u128
    ensures { result ≡ counted (J0 nonce.now) }
{
    inc32(first_block(nonce))
}

impl Gcm {
    /// A key, prepared.
    pub fn new(key: &[u8; 16]) -> Gcm
        ensures { keys_of result ≡ round_keys key.now }
    {
        let cipher = Sm4::new(key);
        let hash = HashKey::new(load(cipher.encrypt([0u8; 16])));
        Gcm { cipher, hash }
    }

    /// The ciphertext of a plaintext, or the plaintext of a ciphertext, in place.
    fn encipher(&self, nonce: &[u8; 12], octets: &mut [u8])
        ensures { octets.new ≡ enciphered (keys_of self.now) nonce.now octets.old }
    {
        gctr(&self.cipher, text_block(nonce), octets);
    }

    /// The tag of a ciphertext.
    fn tag(&self, nonce: &[u8; 12], aad: &[u8], octets: &[u8]) -> [u8; 16]
        ensures { result ≡ tag_of (keys_of self.now) nonce.now aad.now octets.now }
    {
        let mut block = digest(&self.hash, aad, octets).to_be_bytes();
        gctr(&self.cipher, first_block(nonce), &mut block);
        block
    }

    /// Encrypts the octets in place, and gives the tag of the ciphertext and the additional data.
    pub fn encrypt(&self, nonce: &[u8; 12], aad: &[u8], octets: &mut [u8]) -> [u8; 16]
        ensures ciphertext { octets.new ≡ enciphered (keys_of self.now) nonce.now octets.old }
        ensures tag { result ≡ tag_of (keys_of self.now) nonce.now aad.now (enciphered (keys_of self.now) nonce.now octets.old) }
    {
        self.encipher(nonce, octets);
        self.tag(nonce, aad, octets)
    }

    /// Whether the tag is right; if so the octets are decrypted in place, else they stay as they are.
    pub fn decrypt(&self, nonce: &[u8; 12], aad: &[u8], octets: &mut [u8], tag: &[u8; 16]) -> bool
        ensures right { result ≡ is_some (opened (keys_of self.now) nonce.now aad.now octets.old tag.now) }
        ensures plaintext { octets.new ≡ unwrap_or (opened (keys_of self.now) nonce.now aad.now octets.old tag.now) octets.old }
    {
        let expected = self.tag(nonce, aad, octets);
        if !same(&expected, tag) {
            return false;
        }
        self.encipher(nonce, octets);
        true
    }
}
