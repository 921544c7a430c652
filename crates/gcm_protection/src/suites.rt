ghost use Rattle.std.specs.Prelude.{◌≡◌};
ghost use Rattle.gcm_protection.specs.Records.{gcm_serves};

/// The suites that are served.
const SUITES: [u16; 2] = [0xe053, 0xe059];

/// The octets of key material that each takes.
pub const SIZE: usize = 40;

/// Whether a suite is served.
pub fn serves(suite: u16) -> bool
    ensures { result ≡ gcm_serves suite }
{
    suite == SUITES[0] || suite == SUITES[1]
}
