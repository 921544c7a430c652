ghost use Rattle.std.specs.Prelude.{◌≡◌, ℕ, ◌%◌};
ghost use Rattle.octets.specs.Numbers.{two, three, eight};

/// A number in two octets, the highest first.
pub fn two_octets(n: u16) -> [u8; 2]
    ensures { result ≡ two n }
{
    n.to_be_bytes()
}

/// The lowest 24 bits of a number in three octets, the highest first.
pub fn three_octets(n: u32) -> [u8; 3]
    ensures { result ≡ three (n % 16777216) }
{
    let low = n % 16_777_216;
    [
        (low / 65536) as u8,
        (low / 256 % 256) as u8,
        (low % 256) as u8,
    ]
}

/// A number in eight octets, the highest first.
pub fn eight_octets(number: u64) -> [u8; 8]
    ensures { result ≡ eight number }
{
    number.to_be_bytes()
}
