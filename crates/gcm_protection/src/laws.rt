ghost use Rattle.gcm_protection.specs.Laws.{ChecksTag, OpensSealedAlone, SealedLength};
ghost use Rattle.gcm_protection.specs.Vectors.{Seals, Opens};

/// What opens has the computed tag, is a sealing of the content that comes out, and is 24 octets longer.
pub fn laws_stand() -> u8
    ensures { (ChecksTag) × ((OpensSealedAlone) × (SealedLength)) }
{
    0
}

/// Records of another implementation, by the definitions.
pub fn vectors_stand() -> u8
    ensures { (Seals) × (Opens) }
{
    0
}
