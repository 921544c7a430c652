ghost use Rattle.std.specs.Prelude.{◌≡◌, if◌then◌else◌};
ghost use Rattle.cbc.specs.Cbc.{encrypt_block, decrypt_block, cbc_encrypt, cbc_decrypt, whole_blocks};
ghost use Rattle.sm4.specs.View.{keys_of};

use crate::blocks::{BLOCK, block_at, put_block, xor};
use sm4::Sm4;

/// Whether a list is made of whole blocks.
fn is_whole(octets: &[u8]) -> bool
    ensures { result ≡ whole_blocks octets.now }
{
    octets.len() % BLOCK == 0
}

/// The ciphertext block of a plaintext block, given the ciphertext block before it.
fn encrypt_block(cipher: &Sm4, before: [u8; 16], block: [u8; 16]) -> [u8; 16]
    ensures { result ≡ encrypt_block (keys_of cipher.now) before block }
{
    cipher.encrypt(xor(block, before))
}

/// The plaintext block of a ciphertext block, given the ciphertext block before it.
fn decrypt_block(cipher: &Sm4, before: [u8; 16], block: [u8; 16]) -> [u8; 16]
    ensures { result ≡ decrypt_block (keys_of cipher.now) before block }
{
    xor(cipher.decrypt(block), before)
}

/// Encrypts every block of a list in place; what is less than a block at its end stays.
fn encrypt_blocks(cipher: &Sm4, iv: &[u8; 16], octets: &mut [u8])
    ensures { octets.new ≡ cbc_encrypt (keys_of cipher.now) iv.now octets.old }
{
    let mut before = *iv;
    for i in 0..octets.len() / BLOCK {
        let block = block_at(octets, i * BLOCK);
        let next = encrypt_block(cipher, before, block);
        put_block(octets, i * BLOCK, next);
        before = next;
    }
}

/// Decrypts every block of a list in place; what is less than a block at its end stays.
fn decrypt_blocks(cipher: &Sm4, iv: &[u8; 16], octets: &mut [u8])
    ensures { octets.new ≡ cbc_decrypt (keys_of cipher.now) iv.now octets.old }
{
    let mut before = *iv;
    for i in 0..octets.len() / BLOCK {
        let block = block_at(octets, i * BLOCK);
        let plain = decrypt_block(cipher, before, block);
        put_block(octets, i * BLOCK, plain);
        before = block;
    }
}

/// Encrypts a list of whole blocks in place. A list of another length is refused, with `false`, and stays as it is.
pub fn encrypt(cipher: &Sm4, iv: &[u8; 16], octets: &mut [u8]) -> bool
    ensures done { result ≡ whole_blocks octets.old }
    ensures after { octets.new ≡ (if whole_blocks octets.old then cbc_encrypt (keys_of cipher.now) iv.now octets.old else octets.old) }
{
    if !is_whole(octets) {
        return false;
    }
    encrypt_blocks(cipher, iv, octets);
    true
}

/// Decrypts a list of whole blocks in place. A list of another length is refused, with `false`, and stays as it is.
pub fn decrypt(cipher: &Sm4, iv: &[u8; 16], octets: &mut [u8]) -> bool
    ensures done { result ≡ whole_blocks octets.old }
    ensures after { octets.new ≡ (if whole_blocks octets.old then cbc_decrypt (keys_of cipher.now) iv.now octets.old else octets.old) }
{
    if !is_whole(octets) {
        return false;
    }
    decrypt_blocks(cipher, iv, octets);
    true
}
