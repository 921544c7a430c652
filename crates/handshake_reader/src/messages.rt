ghost use Rattle.std.specs.Prelude.{◌≡◌};
ghost use Rattle.handshake.specs.Faults.{viewed, read_parts};

use handshake::HandshakeMessage;
use records::Fault;

/// A kind that can be read: its parts are parts of the octets.
pub trait ReadMessage<'a>: HandshakeMessage {
    /// Reads a body.
    fn read(body: &'a [u8]) -> Result<Self, Fault>
        ensures { viewed Self.HandshakeMessage.parts result ≡ read_parts Self.HandshakeMessage.kind body.now };
}
