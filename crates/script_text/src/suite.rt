ghost use Rattle.std.specs.Prelude.{◌≡◌};
ghost use Rattle.script_text.specs.Numbers.{two_octets, suite_of};

use hex_text::octet_of;

/// Two octets as one number, the higher first.
fn join(high: Option<u8>, low: Option<u8>) -> Option<u16>
    ensures { result ≡ two_octets high low }
{
    match (high, low) {
        (Some(h), Some(l)) => Some(256 * h as u16 + l as u16),
        _ => None,
    }
}

/// The suite that four hexadecimal digits stand for.
pub fn read_suite(text: &[u8]) -> Option<u16>
    ensures { result ≡ suite_of text.now }
{
    if text.len() != 4 {
        return None;
    }
    join(octet_of(text[0], text[1]), octet_of(text[2], text[3]))
}
