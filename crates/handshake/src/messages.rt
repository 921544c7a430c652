ghost use Rattle.std.specs.Prelude.{◌≡◌};
ghost use Rattle.handshake.specs.declared.types.HandshakeType.{HandshakeType};
ghost use Rattle.handshake.specs.Types.{type_number};
ghost use Rattle.handshake.specs.Kinds.{Parts};

/// A kind of handshake message: its type, and the parts that its layout has.
pub trait HandshakeMessage: Sized {
    /// The type, the first octet of each message of this kind.
    const TYPE: u8;

    ghost kind: { HandshakeType };

    ghost parts: { Self → Parts };

    /// The type, which is `TYPE`: a clause cannot name the constant, and `kind` is its twin there.
    fn kind() -> u8
        ensures { result ≡ type_number kind };
}
