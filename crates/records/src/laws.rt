ghost use Rattle.records.specs.Laws.{AlertsUndo, LevelsUndo, KindsUndo, Listed, Known};
ghost use Rattle.records.specs.Laws.{ReadsBack, WritesAgain, PartsFix, MakesOctets, MoreOnly, MoreAlways, Completes};
ghost use Rattle.records.specs.Laws.{AlertReadsBack, AlertWritesAgain, AlertMakesOctets, EffectFollows};
ghost use Rattle.records.specs.Bench.{Headers, UnknownKind, AlertsReceived};

/// Numbers and the names that they stand for undo each other. Answers 0.
pub fn numbers_stand() -> u8
    ensures alerts { AlertsUndo }
    ensures levels { LevelsUndo }
    ensures kinds { KindsUndo }
    ensures list { Listed }
    ensures four { Known }
{
    0
}

/// Records written read back, records read fix their octets, and when "more" is said. Answers 0.
pub fn records_stand() -> u8
    ensures back { ReadsBack }
    ensures again { WritesAgain }
    ensures fixed { PartsFix }
    ensures makes { MakesOctets }
    ensures only { MoreOnly }
    ensures always { MoreAlways }
    ensures completes { Completes }
{
    0
}

/// Alerts written read back, alerts read fix their octets, and their parts decide what they do. Answers 0.
pub fn alerts_stand() -> u8
    ensures back { AlertReadsBack }
    ensures again { AlertWritesAgain }
    ensures makes { AlertMakesOctets }
    ensures effects { EffectFollows }
{
    0
}

/// What is said of small records, case by case. Answers 0.
pub fn bench_stands() -> u8
    ensures headers { Headers }
    ensures unknown { UnknownKind }
    ensures alerts { AlertsReceived }
{
    0
}
