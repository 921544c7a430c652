// The field of GHASH: shifts, and multiples by an octet.
ghost use Rattle.std.specs.Prelude.{◌≡◌, ◌<◌};
ghost use Rattle.gcm.specs.Field.{shifted, added, turns};
ghost use Rattle.gcm.specs.Tables.{shifts};

/// 11100001 and 120 zeros.
const R: u128 = 0xe1 << 120;

/// `z` with `v` added where the bit is one, with no branch.
fn add_if(bit: u128, z: u128, v: u128) -> u128
    requires { bit < 2 }
    ensures { result ≡ added bit z v }
{
    z ^ (v & 0u128.wrapping_sub(bit))
}

/// One place to the right in the field.
fn shift(v: u128) -> u128
    ensures { result ≡ shifted v }
{
    add_if(v % 2, v >> 1, R)
}

/// Eight places to the right in the field: what falls out comes in at the front, times R.
pub fn shift_octet(z: u128) -> u128
    ensures { result ≡ shifts 8 z }
{
    let out = z & 0xff;
    (z >> 8) ^ (((out << 1) ^ (out << 6) ^ (out << 7) ^ (out << 8)) << 112)
}

/// The multiple of `h` by the octet.
pub fn multiple(octet: u128, h: u128) -> u128
    ensures { result ≡ turns 8 octet 0 h }
{
    let mut z: u128 = 0;
    let mut v = h;
    let mut n: u32 = 8;
    while n > 0 {
        n -= 1;
        z = add_if((octet >> n) % 2, z, v);
        v = shift(v);
    }
    z
}
