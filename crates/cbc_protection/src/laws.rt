ghost use Rattle.cbc_protection.specs.Laws.{ChecksPadding, ChecksMac, SealedLength};

/// What opens has right padding in every octet and the computed MAC; sealed lists have the length of whole blocks.
pub fn laws_stand() -> u8
    ensures { (ChecksPadding) × ((ChecksMac) × (SealedLength)) }
{
    0
}
