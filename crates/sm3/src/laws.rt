// Theorems on the definitions, each on the contract of a function that does nothing.
ghost use Rattle.sm3.specs.Laws.{Pieces, TwoPieces, DigestLength, DigestOctets, Abc, Abcd16, Long};

/// Hashing in pieces is hashing the whole.
pub fn pieces_join() -> u8
    ensures any { Pieces }
    ensures two { TwoPieces }
{
    0
}

/// A hash is 32 octets.
pub fn digests_are_octets() -> u8
    ensures many { DigestLength }
    ensures small { DigestOctets }
{
    0
}

/// The standard's two examples, and a message of 1,000 octets.
pub fn examples_hold() -> u8
    ensures abc { Abc }
    ensures abcd { Abcd16 }
    ensures long { Long }
{
    0
}
