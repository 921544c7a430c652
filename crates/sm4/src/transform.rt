ghost use Rattle.std.specs.Prelude.{◌≡◌};
ghost use Rattle.sm4.specs.Transform.{tau as tauOf, linear as linearOf, linear_key, transform as transformOf, transform_key};

use crate::sbox::substitute;

/// Each octet of a word through the S-box.
fn tau(x: u32) -> u32
    ensures { result ≡ tauOf x }
{
    let [a, b, c, d] = x.to_be_bytes();
    u32::from_be_bytes([substitute(a), substitute(b), substitute(c), substitute(d)])
}

/// The linear transform of the rounds.
fn linear(x: u32) -> u32
    ensures { result ≡ linearOf x }
{
    x ^ x.rotate_left(2) ^ x.rotate_left(10) ^ x.rotate_left(18) ^ x.rotate_left(24)
}

/// The linear transform of the key expansion.
fn linear_key(x: u32) -> u32
    ensures { result ≡ linear_key x }
{
    x ^ x.rotate_left(13) ^ x.rotate_left(23)
}

/// The transform of a word in a round.
pub fn transform(x: u32) -> u32
    ensures { result ≡ transformOf x }
{
    linear(tau(x))
}

/// The transform of a word in the key expansion.
pub fn transform_key(x: u32) -> u32
    ensures { result ≡ transform_key x }
{
    linear_key(tau(x))
}
