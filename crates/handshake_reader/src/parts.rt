ghost use Rattle.std.specs.Prelude.{◌≡◌};
ghost use Rattle.handshake.specs.Parts.{part as part_of, part1 as part1-of, part2 as part2-of, part3 as part3-of};
ghost use Rattle.handshake_reader.specs.Views.{seen_cut};

/// A part cut off the front, and what follows it.
#[derive(Clone, Copy)]
pub struct Cut<'a> {
    pub part: &'a [u8],
    pub rest: &'a [u8],
}

/// The first `n` octets and what follows them.
pub fn part(octets: &[u8], n: usize) -> Option<Cut<'_>>
    ensures { seen_cut result ≡ part_of n octets.now }
{
    if n > octets.len() {
        return None;
    }
    Some(Cut {
        part: &octets[..n],
        rest: &octets[n..],
    })
}

/// The part behind its length in one octet, and what follows it.
pub fn part1(octets: &[u8]) -> Option<Cut<'_>>
    ensures { seen_cut result ≡ part1-of octets.now }
{
    match octets {
        [length, rest @ ..] => part(rest, *length as usize),
        _ => None,
    }
}

/// The part behind its length in two octets, and what follows it.
pub fn part2(octets: &[u8]) -> Option<Cut<'_>>
    ensures { seen_cut result ≡ part2-of octets.now }
{
    match octets {
        [high, low, rest @ ..] => part(rest, *high as usize * 256 + *low as usize),
        _ => None,
    }
}

/// The part behind its length in three octets, and what follows it.
pub fn part3(octets: &[u8]) -> Option<Cut<'_>>
    ensures { seen_cut result ≡ part3-of octets.now }
{
    match octets {
        [high, mid, low, rest @ ..] => part(
            rest,
            *high as usize * 65536 + *mid as usize * 256 + *low as usize,
        ),
        _ => None,
    }
}
