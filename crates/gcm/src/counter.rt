// Counter mode.
ghost use Rattle.std.specs.Prelude.{◌≡◌, ◌≤◌, length};
ghost use Rattle.sm4.specs.View.{keys_of};
ghost use Rattle.gcm.specs.Counter.{inc32 as counted, xored, gctr as counterMode};

use sm4::Sm4;

/// The next counter block: the first 96 bits stay, the last 32 are counted on and wrap.
pub fn inc32(block: u128) -> u128
    ensures { result ≡ counted block }
{
    let count = (block % 0x1_0000_0000) as u32;
    block / 0x1_0000_0000 * 0x1_0000_0000 + count.wrapping_add(1) as u128
}

/// Adds the pad to a block or a part of one.
fn add(part: &mut [u8], pad: &[u8; 16])
    requires { length part.old ≤ 16 }
    ensures { part.new ≡ xored part.old pad.now }
{
    for i in 0..part.len() {
        part[i] ^= pad[i];
    }
}

/// Encrypts or decrypts a text in place, counting from `start` on.
pub fn gctr(cipher: &Sm4, start: u128, octets: &mut [u8])
    ensures { octets.new ≡ counterMode (keys_of cipher.now) start octets.old }
{
    let whole = octets.len() / 16 * 16;
    let mut counter = start;
    for i in 0..octets.len() / 16 {
        let pad = cipher.encrypt(counter.to_be_bytes());
        add(&mut octets[i * 16..i * 16 + 16], &pad);
        counter = inc32(counter);
    }
    if whole < octets.len() {
        let pad = cipher.encrypt(counter.to_be_bytes());
        add(&mut octets[whole..], &pad);
    }
}
