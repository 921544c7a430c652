ghost use Rattle.std.specs.Prelude.{◌≡◌};
ghost use Rattle.handshake.specs.Parts.{versioned, other_version};

/// Whether the octets begin with the version, 01 01.
pub fn is_version(octets: &[u8]) -> bool
    ensures { result ≡ versioned octets.now }
{
    match octets {
        [1, 1, ..] => true,
        _ => false,
    }
}

/// Whether the octets have a version and it is another.
pub fn is_other_version(octets: &[u8]) -> bool
    ensures { result ≡ other_version octets.now }
{
    octets.len() >= 2 && !is_version(octets)
}
