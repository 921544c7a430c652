ghost use Rattle.std.specs.Prelude.{◌≡◌};
ghost use Rattle.handshake.specs.Kinds.{server_key_exchange_parts, client_key_exchange_parts, body_size, with_body};

use super::WriteMessage;
use handshake::{ClientKeyExchange, ServerKeyExchange};
use octets::{lay, two_octets};

/// The most octets that a length of two octets can tell.
const CARRIED_LIMIT: usize = 65535;

/// The length of a key exchange's body.
fn exchange_size(carried: &[u8]) -> Option<usize>
    ensures { result ≡ body_size (server_key_exchange_parts carried.now) }
{
    let length = carried.len();
    if length < 1 || length > CARRIED_LIMIT {
        return None;
    }
    Some(2 + length)
}

/// Lays the body of a key exchange over `out` from `at` on.
fn lay_exchange(out: &mut [u8], at: usize, carried: &[u8])
    ensures { out.new ≡ with_body (server_key_exchange_parts carried.now) out.old at }
{
    if exchange_size(carried).is_none() {
        return;
    }
    let at = lay(out, at, &two_octets(carried.len() as u16));
    lay(out, at, carried);
}

impl<'a> WriteMessage for ServerKeyExchange<'a> {
    fn size(&self) -> Option<usize>
        ensures { result ≡ body_size (server_key_exchange_parts self.now.signature.now) }
    {
        exchange_size(self.signature)
    }

    fn write_body(&self, out: &mut [u8], at: usize)
        ensures { out.new ≡ with_body (server_key_exchange_parts self.now.signature.now) out.old at }
    {
        lay_exchange(out, at, self.signature);
    }
}

impl<'a> WriteMessage for ClientKeyExchange<'a> {
    fn size(&self) -> Option<usize>
        ensures { result ≡ body_size (client_key_exchange_parts self.now.wrapped.now) }
    {
        exchange_size(self.wrapped)
    }

    fn write_body(&self, out: &mut [u8], at: usize)
        ensures { out.new ≡ with_body (client_key_exchange_parts self.now.wrapped.now) out.old at }
    {
        lay_exchange(out, at, self.wrapped);
    }
}
