ghost use Rattle.std.specs.Prelude.{◌≡◌, ℕ, ◌+◌, ◌-◌, min, length};
ghost use Rattle.octets.specs.Laid.{laid};
ghost use Rattle.handshake.specs.Parts.{from_words};

use octets::{lay, two_octets};

/// Lays suites over `out` from `at` on, as far as there is room, and says where they end.
pub fn lay_suites(out: &mut [u8], at: usize, suites: &[u16]) -> usize
    ensures end { result ≡ at + min (length (from_words suites.now)) (length out.old - at) }
    ensures after { out.new ≡ laid out.old at (from_words suites.now) }
{
    let mut end = at;
    for suite in suites {
        end = lay(out, end, &two_octets(*suite));
    }
    end
}
