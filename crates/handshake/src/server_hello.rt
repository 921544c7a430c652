ghost use Rattle.std.specs.Prelude.{◌≡◌};
ghost use Rattle.handshake.specs.declared.types.HandshakeType.TheVariants.{ServerHello as ServerHelloType};
ghost use Rattle.handshake.specs.Types.{type_number};
ghost use Rattle.handshake.specs.Kinds.{server_hello_parts};
ghost use Rattle.handshake.specs.Views.{seen_server_hello};

use super::{HandshakeMessage, HandshakeType};

/// A ServerHello, read or to be written.
#[derive(Clone, Copy)]
pub struct ServerHello<'a> {
    pub random: &'a [u8],
    pub session: &'a [u8],
    pub suite: u16,
    pub compression: u8,
}

impl<'a> HandshakeMessage for ServerHello<'a> {
    const TYPE: u8 = HandshakeType::ServerHello as u8;

    ghost kind = { ServerHelloType };

    ghost parts = { λ m. server_hello_parts (seen_server_hello m) };

    fn kind() -> u8
        ensures { result ≡ type_number ServerHelloType }
    {
        Self::TYPE
    }
}
