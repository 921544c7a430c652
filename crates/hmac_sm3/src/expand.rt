ghost use Rattle.std.specs.Prelude.{◌≡◌, ◌*◌, ◌<◌, [], length, if◌then◌else◌, nat_eq};
ghost use Rattle.octets.specs.Laid.{laid};
ghost use Rattle.hmac_sm3.specs.Pieces.{pieced};
ghost use Rattle.hmac_sm3.specs.Keyed.{fed, tag};
ghost use Rattle.hmac_sm3.specs.Prf.{prf};
ghost use Rattle.hmac_sm3.specs.View.{seen};

use crate::mac::Hmac;
use octets::lay;

// The octets of a tag, and so of each block that is put out.
const BLOCK: usize = 32;

// The tag of a text.
fn tag_of(keyed: &Hmac, text: &[u8]) -> [u8; 32]
    ensures { result ≡ tag (fed (seen keyed.now) text.now) }
{
    let mut mac = *keyed;
    mac.update(text);
    mac.tag()
}

// The tag of a text, a label and a seed, joined.
fn seeded_tag_of(keyed: &Hmac, text: &[u8], label: &[u8], seed: &[&[u8]]) -> [u8; 32]
    ensures { result ≡ tag (fed (fed (fed (seen keyed.now) text.now) label.now) (pieced (λ x. x.now) seed.now)) }
{
    let mut mac = *keyed;
    mac.update(text);
    mac.update(label);
    mac.update_all(seed);
    mac.tag()
}

// A(i + 1): the first is made of the label and the seed, every other of the one before it.
fn next_link(keyed: &Hmac, i: usize, link: &[u8; 32], label: &[u8], seed: &[&[u8]]) -> [u8; 32]
    ensures { result ≡ (if nat_eq i 0 then tag (fed (fed (fed (seen keyed.now) []) label.now) (pieced (λ x. x.now) seed.now)) else tag (fed (seen keyed.now) link.now)) }
{
    if i == 0 {
        seeded_tag_of(keyed, &[], label, seed)
    } else {
        tag_of(keyed, link)
    }
}

// Puts block `i`, made of A(i + 1), the label and the seed, in its place.
fn put_block(keyed: &Hmac, i: usize, link: &[u8; 32], label: &[u8], seed: &[&[u8]], out: &mut [u8])
    requires { 32 * i < length out.old }
    ensures { out.new ≡ laid out.old (32 * i) (tag (fed (fed (fed (seen keyed.now) link.now) label.now) (pieced (λ x. x.now) seed.now))) }
{
    let block = seeded_tag_of(keyed, link, label, seed);
    lay(out, BLOCK * i, &block);
}

/// Fills `out` with PRF(secret, label, seed); the seed is its parts joined.
pub fn prf(secret: &[u8], label: &[u8], seed: &[&[u8]], out: &mut [u8])
    ensures { out.new ≡ prf secret.now label.now (pieced (λ x. x.now) seed.now) (length out.old) }
{
    let keyed = Hmac::new(secret);
    let mut link = [0u8; 32];
    for i in 0..out.len().div_ceil(BLOCK) {
        let next = next_link(&keyed, i, &link, label, seed);
        link = next;
        put_block(&keyed, i, &link, label, seed, out);
    }
}
