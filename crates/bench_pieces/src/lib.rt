//! The pieces for the bench: what an end does with ten small records, and how long CBC records are, as one fact.
#![tactic(auto)]

ghost use Rattle.bench_pieces.specs.Pieces.{Pieces};

/// All of the pieces stand.
pub fn pieces_stand() -> u8
    ensures { Pieces }
{
    0
}
