ghost use Rattle.cbc.specs.Laws.{DecryptionUndoes, EncryptionUndoes, KeepsLength, KeepsOctets, Example};

/// Decryption undoes encryption, under every round keys, IV and list of octets.
pub fn decryption_undoes_encryption() -> u8
    ensures { DecryptionUndoes }
{
    0
}

/// Encryption undoes decryption, under every round keys, IV and list of octets.
pub fn encryption_undoes_decryption() -> u8
    ensures { EncryptionUndoes }
{
    0
}

/// Neither changes the length.
pub fn keeps_length() -> u8
    ensures { KeepsLength }
{
    0
}

/// Both make octets of octets.
pub fn keeps_octets() -> u8
    ensures { KeepsOctets }
{
    0
}

/// Two blocks there and back, computed by the definitions.
pub fn example_stands() -> u8
    ensures { Example }
{
    0
}
