// The 64 rounds of the compression function. The number of a group of four is a const parameter, so that
// each group is compiled by itself, with its constants in place and the registers never moved.
ghost use Rattle.std.specs.Prelude.{◌≡◌, ◌+◌, ◌<◌, ◌≤◌, length, bit_xor};
ghost use Rattle.sm3.specs.Compress.{round, rounds, expand, words};
ghost use Rattle.sm3.specs.Steps.{extended_four, round_at, rounds_four};

use crate::schedule::{extend, first_words};
use crate::words::{combine_f, combine_g, permute0, round_constant};

// Round `j` on the registers, with the words `w` = W_j and `w4` = W_(j+4).
fn one_round(j: u32, w: u32, w4: u32, v: [u32; 8]) -> [u32; 8]
    ensures { result ≡ round j w (bit_xor w w4) v }
{
    let [a, b, c, d, e, f, g, h] = v;
    let a12 = a.rotate_left(12);
    let ss1 = a12
        .wrapping_add(e)
        .wrapping_add(round_constant(j))
        .rotate_left(7);
    let ss2 = ss1 ^ a12;
    let tt1 = combine_f(j, a, b, c)
        .wrapping_add(d)
        .wrapping_add(ss2)
        .wrapping_add(w ^ w4);
    let tt2 = combine_g(j, e, f, g)
        .wrapping_add(h)
        .wrapping_add(ss1)
        .wrapping_add(w);
    [
        tt1,
        a,
        b.rotate_left(9),
        c,
        permute0(tt2),
        e,
        f.rotate_left(19),
        g,
    ]
}

// Round `j`, with its words from the table.
fn round_with(j: usize, ws: &[u32; 68], v: [u32; 8]) -> [u32; 8]
    requires { j < 64 }
    ensures { result ≡ round_at j ws.now v }
{
    one_round(j as u32, ws[j], ws[j + 4], v)
}

// Rounds J to J + 3.
fn four_rounds<const J: usize>(ws: &[u32; 68], v: [u32; 8]) -> [u32; 8]
    requires { J ≤ 60 }
    ensures { result ≡ rounds_four J ws.now v }
{
    let v1 = round_with(J, ws, v);
    let v2 = round_with(J + 1, ws, v1);
    let v3 = round_with(J + 2, ws, v2);
    round_with(J + 3, ws, v3)
}

// Writes words K + 16 to K + 19, and takes the rounds that these are needed for.
fn advance<const K: usize>(ws: &mut [u32; 68], v: [u32; 8]) -> [u32; 8]
    requires { K ≤ 48 }
    ensures table { ws.new ≡ extended_four K ws.old }
    ensures registers { result ≡ rounds_four (K + 12) (extended_four K ws.old) v }
{
    extend(K, ws);
    extend(K + 1, ws);
    extend(K + 2, ws);
    extend(K + 3, ws);
    let v1 = round_with(K + 12, ws, v);
    let v2 = round_with(K + 13, ws, v1);
    let v3 = round_with(K + 14, ws, v2);
    round_with(K + 15, ws, v3)
}

/// All rounds over a block, from the registers `start`.
pub fn all_rounds(start: [u32; 8], block: &[u8]) -> [u32; 8]
    requires { length block.now ≡ 64 }
    ensures { result ≡ rounds 64 (expand 52 (words block.now)) start }
{
    let mut ws = first_words(block);
    let v4 = four_rounds::<0>(&ws, start);
    let v8 = four_rounds::<4>(&ws, v4);
    let v12 = four_rounds::<8>(&ws, v8);
    let v16 = advance::<0>(&mut ws, v12);
    let v20 = advance::<4>(&mut ws, v16);
    let v24 = advance::<8>(&mut ws, v20);
    let v28 = advance::<12>(&mut ws, v24);
    let v32 = advance::<16>(&mut ws, v28);
    let v36 = advance::<20>(&mut ws, v32);
    let v40 = advance::<24>(&mut ws, v36);
    let v44 = advance::<28>(&mut ws, v40);
    let v48 = advance::<32>(&mut ws, v44);
    let v52 = advance::<36>(&mut ws, v48);
    let v56 = advance::<40>(&mut ws, v52);
    let v60 = advance::<44>(&mut ws, v56);
    advance::<48>(&mut ws, v60)
}
