ghost use Rattle.hmac_sm3.specs.Laws.{TagLength, TagOctets, TagPieces, PrfLength, PrfOctets, PrfBegins, PrfJoined};
ghost use Rattle.hmac_sm3.specs.Vectors.{TagStandard, TagNone, TagHashed, PrfTwelve, PrfLong};

/// The laws of HMAC-SM3.
pub fn hmac_stands() -> u8
    ensures length { TagLength }
    ensures octets { TagOctets }
    ensures pieces { TagPieces }
{
    0
}

/// The laws of the PRF.
pub fn prf_stands() -> u8
    ensures length { PrfLength }
    ensures octets { PrfOctets }
    ensures begins { PrfBegins }
    ensures joined { PrfJoined }
{
    0
}

/// Worked values.
pub fn vectors_stand() -> u8
    ensures standard { TagStandard }
    ensures none { TagNone }
    ensures hashed { TagHashed }
    ensures twelve { PrfTwelve }
    ensures long { PrfLong }
{
    0
}
