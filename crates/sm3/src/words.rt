// The constants and functions on words that rounds and expansion are made of.
ghost use Rattle.std.specs.Prelude.{◌≡◌};
ghost use Rattle.sm3.specs.Words.{tj, ff, gg, p0, p1};

// The first round that takes the second constant and the second boolean functions.
const LATER: u32 = 16;

// The constant T of the rounds before that one.
const EARLY_T: u32 = 0x79cc_4519;

// The constant T of that round and those after it.
const LATE_T: u32 = 0x7a87_9d8a;

/// The constant of round `j`, rotated left by `j`.
pub fn round_constant(j: u32) -> u32
    ensures { result ≡ tj j }
{
    if j < LATER {
        EARLY_T.rotate_left(j)
    } else {
        LATE_T.rotate_left(j)
    }
}

/// The boolean function FF of round `j`: parity, later majority.
pub fn combine_f(j: u32, x: u32, y: u32, z: u32) -> u32
    ensures { result ≡ ff j x y z }
{
    if j < LATER {
        x ^ y ^ z
    } else {
        (x & y) | (x & z) | (y & z)
    }
}

/// The boolean function GG of round `j`: parity, later the choice of `y` or `z` by `x`.
pub fn combine_g(j: u32, x: u32, y: u32, z: u32) -> u32
    ensures { result ≡ gg j x y z }
{
    if j < LATER {
        x ^ y ^ z
    } else {
        (x & y) | (!x & z)
    }
}

/// The permutation P0, of the rounds.
pub fn permute0(x: u32) -> u32
    ensures { result ≡ p0 x }
{
    x ^ x.rotate_left(9) ^ x.rotate_left(17)
}

/// The permutation P1, of the expansion.
pub fn permute1(x: u32) -> u32
    ensures { result ≡ p1 x }
{
    x ^ x.rotate_left(15) ^ x.rotate_left(23)
}
