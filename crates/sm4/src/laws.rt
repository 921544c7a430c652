ghost use Rattle.sm4.specs.Laws.{DecryptionUndoes, EncryptionUndoes, GivesABlock, SboxPermutes, Example};

/// Decryption undoes encryption, under every key and at every block.
pub fn decryption_undoes_encryption() -> u8
    ensures { DecryptionUndoes }
{
    0
}

/// Encryption undoes decryption, under every key and at every block.
pub fn encryption_undoes_decryption() -> u8
    ensures { EncryptionUndoes }
{
    0
}

/// Whatever the round keys and the block, the cipher gives 16 octets.
pub fn gives_a_block() -> u8
    ensures { GivesABlock }
{
    0
}

/// Each octet is the value of the S-box at exactly one octet.
pub fn sbox_permutes() -> u8
    ensures { SboxPermutes }
{
    0
}

/// The standard's example, computed by the definitions from the key to the ciphertext and back.
pub fn example_stands() -> u8
    ensures { Example }
{
    0
}
