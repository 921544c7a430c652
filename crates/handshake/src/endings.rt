ghost use Rattle.std.specs.Prelude.{◌≡◌};
ghost use Rattle.handshake.specs.declared.types.HandshakeType.TheVariants.{ServerHelloDone as ServerHelloDoneType, Finished as FinishedType};
ghost use Rattle.handshake.specs.Types.{type_number};
ghost use Rattle.handshake.specs.Kinds.{server_hello_done_parts, finished_parts};

use super::{HandshakeMessage, HandshakeType};

/// A ServerHelloDone: it has no parts.
#[derive(Clone, Copy)]
pub struct ServerHelloDone;

/// A Finished, read or to be written.
#[derive(Clone, Copy)]
pub struct Finished<'a> {
    pub verify_data: &'a [u8],
}

impl HandshakeMessage for ServerHelloDone {
    const TYPE: u8 = HandshakeType::ServerHelloDone as u8;

    ghost kind = { ServerHelloDoneType };

    ghost parts = { λ _. server_hello_done_parts };

    fn kind() -> u8 {
        Self::TYPE
    }
}

impl<'a> HandshakeMessage for Finished<'a> {
    const TYPE: u8 = HandshakeType::Finished as u8;

    ghost kind = { FinishedType };

    ghost parts = { λ m. finished_parts m.verify_data.now };

    fn kind() -> u8
        ensures { result ≡ type_number FinishedType }
    {
        Self::TYPE
    }
}
