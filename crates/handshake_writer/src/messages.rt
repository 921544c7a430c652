ghost use Rattle.std.specs.Prelude.{◌≡◌};
ghost use Rattle.handshake.specs.Kinds.{body_size, with_body};

use handshake::HandshakeMessage;

/// A kind that can be written.
pub trait WriteMessage: HandshakeMessage {
    /// The length of the body, where the parts have lengths that the layout can tell.
    fn size(&self) -> Option<usize>
        ensures { result ≡ body_size (Self.HandshakeMessage.parts self.now) };

    /// Lays the body over `out` from `at` on, where it has a size.
    fn write_body(&self, out: &mut [u8], at: usize)
        ensures { out.new ≡ with_body (Self.HandshakeMessage.parts self.now) out.old at };
}
