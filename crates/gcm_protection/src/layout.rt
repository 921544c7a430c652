ghost use Rattle.std.specs.Prelude.{◌≡◌, ℕ, ◌^◌, ◌<◌, length};
ghost use Rattle.gcm_protection.specs.Layout.{key_of, nonce_of, additional as data_of};

use octets::{Role, eight_octets, lay, two_octets};

/// Where the keys, and behind them the implicit parts of the nonces, of client and server stand in the material.
const CLIENT_KEY: usize = 0;

const SERVER_KEY: usize = 16;

const CLIENT_IV: usize = 32;

const SERVER_IV: usize = 36;

/// Sixteen octets as an array.
pub fn sixteen(part: &[u8]) -> [u8; 16]
    requires { length part.now ≡ 16 }
    ensures { result ≡ part.now }
{
    let mut all = [0u8; 16];
    all.copy_from_slice(part);
    all
}

/// The key under which an end seals.
pub fn key(sender: Role, material: &[u8]) -> [u8; 16]
    requires { length material.now ≡ 40 }
    ensures { result ≡ key_of sender material.now }
{
    let at = match sender {
        Role::Client => CLIENT_KEY,
        Role::Server => SERVER_KEY,
    };
    sixteen(&material[at..at + 16])
}

/// The nonce of a record of the sender, with its explicit part.
pub fn nonce(sender: Role, material: &[u8], explicit: &[u8]) -> [u8; 12]
    requires { (length material.now ≡ 40) × (length explicit.now ≡ 8) }
    ensures { result ≡ nonce_of sender material.now explicit.now }
{
    let at = match sender {
        Role::Client => CLIENT_IV,
        Role::Server => SERVER_IV,
    };
    let mut all = [0u8; 12];
    let end = lay(&mut all, 0, &material[at..at + 4]);
    lay(&mut all, end, explicit);
    all
}

/// The additional data of a record.
pub fn additional(number: u64, kind: u8, size: usize) -> [u8; 13]
    requires { size < 2 ^ 16 }
    ensures { result ≡ data_of number kind size }
{
    let [a, b, c, d, e, f, g, h] = eight_octets(number);
    let [high, low] = two_octets(size as u16);
    [a, b, c, d, e, f, g, h, kind, 1, 1, high, low]
}
