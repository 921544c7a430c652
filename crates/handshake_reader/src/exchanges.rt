ghost use Rattle.std.specs.Prelude.{◌≡◌};
ghost use Rattle.std.specs.Option.{option_map};
ghost use Rattle.handshake.specs.declared.types.HandshakeType.TheVariants.{ServerKeyExchange as ServerKeyExchangeType, ClientKeyExchange as ClientKeyExchangeType};
ghost use Rattle.handshake.specs.Exchanges.{read_exchange};
ghost use Rattle.handshake.specs.Kinds.{server_key_exchange_parts, client_key_exchange_parts};
ghost use Rattle.handshake.specs.Faults.{viewed, read_parts};

use super::ReadMessage;
use super::faults::LAYOUT_FAULT;
use handshake::{ClientKeyExchange, ServerKeyExchange};
use records::Fault;

/// The fewest octets that a key exchange carries.
const CARRIED_LEAST: usize = 1;

/// What the body of a key exchange carries: a two-octet length of 1 or more and that many octets.
fn read_exchange(body: &[u8]) -> Option<&[u8]>
    ensures { option_map (λ x. x.now) result ≡ read_exchange body.now }
{
    let [high, low, carried @ ..] = body else {
        return None;
    };
    let length = *high as usize * 256 + *low as usize;
    if length < CARRIED_LEAST || carried.len() != length {
        return None;
    }
    Some(carried)
}

impl<'a> ReadMessage<'a> for ServerKeyExchange<'a> {
    fn read(body: &'a [u8]) -> Result<ServerKeyExchange<'a>, Fault>
        ensures { viewed (λ m. server_key_exchange_parts m.signature.now) result ≡ read_parts ServerKeyExchangeType body.now }
    {
        match read_exchange(body) {
            Some(signature) => Ok(ServerKeyExchange { signature }),
            None => Err(LAYOUT_FAULT),
        }
    }
}

impl<'a> ReadMessage<'a> for ClientKeyExchange<'a> {
    fn read(body: &'a [u8]) -> Result<ClientKeyExchange<'a>, Fault>
        ensures { viewed (λ m. client_key_exchange_parts m.wrapped.now) result ≡ read_parts ClientKeyExchangeType body.now }
    {
        match read_exchange(body) {
            Some(wrapped) => Ok(ClientKeyExchange { wrapped }),
            None => Err(LAYOUT_FAULT),
        }
    }
}
