// The expansion of a block's sixteen words to 68, in a table that is filled as the rounds go on.
ghost use Rattle.std.specs.Prelude.{◌≡◌, ◌<◌, ◌++◌, length, replicate};
ghost use Rattle.sm3.specs.Compress.{word, words, next};
ghost use Rattle.sm3.specs.Steps.{extended};

use crate::words::permute1;

// Word `i` of a block.
fn word_at(block: &[u8], i: usize) -> u32
    requires { (length block.now ≡ 64) × (i < 16) }
    ensures { result ≡ word block.now i }
{
    u32::from_be_bytes([
        block[4 * i],
        block[4 * i + 1],
        block[4 * i + 2],
        block[4 * i + 3],
    ])
}

/// The table with the sixteen words of a block, and zeros for the others.
pub fn first_words(block: &[u8]) -> [u32; 68]
    requires { length block.now ≡ 64 }
    ensures { result ≡ words block.now ++ replicate 52 0 }
{
    let mut ws = [0u32; 68];
    for i in 0..16 {
        ws[i] = word_at(block, i);
    }
    ws
}

// Word `k + 16`, from those before it.
fn next_word(k: usize, ws: &[u32; 68]) -> u32
    requires { k < 52 }
    ensures { result ≡ next k ws.now }
{
    permute1(ws[k] ^ ws[k + 7] ^ ws[k + 13].rotate_left(15)) ^ ws[k + 3].rotate_left(7) ^ ws[k + 10]
}

/// Writes word `k + 16`.
pub fn extend(k: usize, ws: &mut [u32; 68])
    requires { k < 52 }
    ensures { ws.new ≡ extended k ws.old }
{
    ws[k + 16] = next_word(k, ws);
}
