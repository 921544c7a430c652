ghost use Rattle.std.specs.Prelude.{◌≡◌, ℕ, ◌^◌, ◌<◌, length, replicate};
ghost use Rattle.cbc_protection.specs.Layout.{key_of, mac, heading as heading_of};

use hmac_sm3::Hmac;
use octets::{Role, eight_octets, two_octets};

/// Where MAC keys and keys of client and server stand in the material.
const CLIENT_MAC: usize = 0;

const SERVER_MAC: usize = 32;

const CLIENT_KEY: usize = 64;

const SERVER_KEY: usize = 80;

/// Sixteen octets as an array.
pub fn sixteen(part: &[u8]) -> [u8; 16]
    requires { length part.now ≡ 16 }
    ensures { result ≡ part.now }
{
    let mut all = [0u8; 16];
    all.copy_from_slice(part);
    all
}

/// The key under which an end seals.
pub fn key(sender: Role, material: &[u8]) -> [u8; 16]
    requires { length material.now ≡ 96 }
    ensures { result ≡ key_of sender material.now }
{
    let at = match sender {
        Role::Client => CLIENT_KEY,
        Role::Server => SERVER_KEY,
    };
    sixteen(&material[at..at + 16])
}

/// What the MAC takes in before a content.
fn heading(number: u64, kind: u8, size: usize) -> [u8; 13]
    requires { size < 2 ^ 16 }
    ensures { result ≡ heading_of number kind size }
{
    let [a, b, c, d, e, f, g, h] = eight_octets(number);
    let [high, low] = two_octets(size as u16);
    [a, b, c, d, e, f, g, h, kind, 1, 1, high, low]
}

/// The MAC of a content that `sender` sends.
pub fn tag_of(sender: Role, material: &[u8], number: u64, kind: u8, content: &[u8]) -> [u8; 32]
    requires { (length material.now ≡ 96) × (length content.now < 2 ^ 16) }
    ensures { result ≡ mac sender material.now number kind content.now }
{
    let at = match sender {
        Role::Client => CLIENT_MAC,
        Role::Server => SERVER_MAC,
    };
    let mut whole = Hmac::new(&material[at..at + 32]);
    whole.update(&heading(number, kind, content.len()));
    whole.update(content);
    whole.tag()
}

/// Any number of octets of one value, to be cut.
pub fn repeated(value: u8) -> [u8; 256]
    ensures { result ≡ replicate 256 value }
{
    [value; 256]
}
