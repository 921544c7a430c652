// What is proved of the definitions as a whole.
ghost use Rattle.gcm.specs.Laws.{CountsOn, CountersDiffer, UndoesItself, AddsUp, OpensSealed, DecryptsEncrypted, OnlySealedOpens, OpensExactly, Lengths, OctetsStay};
ghost use Rattle.gcm.specs.Vectors.{Hashes, Seals, Opens};

/// Counting leaves the first 96 bits, and comes back to no counter block within 2^32.
pub fn counting_stands() -> u8
    ensures { CountsOn × CountersDiffer }
{
    0
}

/// Counter mode undoes itself.
pub fn counter_mode_undoes_itself() -> u8
    ensures { UndoesItself }
{
    0
}

/// The product adds up in its first factor.
pub fn product_adds_up() -> u8
    ensures { AddsUp }
{
    0
}

/// What is sealed opens to the same content, and nothing else opens to it.
pub fn opens_what_is_sealed() -> u8
    ensures { OpensSealed × DecryptsEncrypted × OnlySealedOpens }
{
    0
}

/// A content comes out exactly when the tag is right.
pub fn opens_exactly() -> u8
    ensures { OpensExactly }
{
    0
}

/// Lengths, and that octets stay octets.
pub fn keeps_lengths_and_octets() -> u8
    ensures { Lengths × OctetsStay }
{
    0
}

/// The published vectors.
pub fn vectors_stand() -> u8
    ensures { Hashes × Seals × Opens }
{
    0
}
