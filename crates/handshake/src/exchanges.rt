ghost use Rattle.std.specs.Prelude.{◌≡◌};
ghost use Rattle.handshake.specs.declared.types.HandshakeType.TheVariants.{ServerKeyExchange as ServerKeyExchangeType, ClientKeyExchange as ClientKeyExchangeType};
ghost use Rattle.handshake.specs.Types.{type_number};
ghost use Rattle.handshake.specs.Kinds.{server_key_exchange_parts, client_key_exchange_parts};
ghost use Rattle.handshake.specs.Places.{exchange_span};

use super::{HandshakeMessage, HandshakeType, Span};

/// The octets of a key exchange message before what it carries: the header and a length of two octets.
const CARRIED_OFFSET: usize = 6;

/// A ServerKeyExchange, read or to be written.
#[derive(Clone, Copy)]
pub struct ServerKeyExchange<'a> {
    pub signature: &'a [u8],
}

/// A ClientKeyExchange, read or to be written.
#[derive(Clone, Copy)]
pub struct ClientKeyExchange<'a> {
    pub wrapped: &'a [u8],
}

impl<'a> ServerKeyExchange<'a> {
    /// Where the signature stands in its message.
    pub fn span(&self) -> Span
        ensures { result ≡ exchange_span self.now.signature.now }
    {
        Span {
            offset: CARRIED_OFFSET,
            len: self.signature.len(),
        }
    }
}

impl<'a> ClientKeyExchange<'a> {
    /// Where the wrapped premaster stands in its message.
    pub fn span(&self) -> Span
        ensures { result ≡ exchange_span self.now.wrapped.now }
    {
        Span {
            offset: CARRIED_OFFSET,
            len: self.wrapped.len(),
        }
    }
}

impl<'a> HandshakeMessage for ServerKeyExchange<'a> {
    const TYPE: u8 = HandshakeType::ServerKeyExchange as u8;

    ghost kind = { ServerKeyExchangeType };

    ghost parts = { λ m. server_key_exchange_parts m.signature.now };

    fn kind() -> u8
        ensures { result ≡ type_number ServerKeyExchangeType }
    {
        Self::TYPE
    }
}

impl<'a> HandshakeMessage for ClientKeyExchange<'a> {
    const TYPE: u8 = HandshakeType::ClientKeyExchange as u8;

    ghost kind = { ClientKeyExchangeType };

    ghost parts = { λ m. client_key_exchange_parts m.wrapped.now };

    fn kind() -> u8
        ensures { result ≡ type_number ClientKeyExchangeType }
    {
        Self::TYPE
    }
}
