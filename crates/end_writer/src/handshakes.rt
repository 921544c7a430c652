//! Handshake messages, each in a record of its own.
ghost use Rattle.std.specs.Prelude.{◌≡◌, ℕ, ◌+◌, ◌≤◌, true, length};
ghost use Rattle.octets.specs.Laid.{laid};
ghost use Rattle.sm3.specs.Hash.{absorb};
ghost use Rattle.sm3.specs.View.{view};
ghost use Rattle.handshake.specs.Kinds.{body_of, writable};
ghost use Rattle.end_writer.specs.Written.{message_of, message_record};

use handshake_writer::{WriteMessage, write_message};
use records::{HEADER_SIZE, write_header};
use sm3::Sm3;

/// The kind of a handshake record.
pub(crate) const HANDSHAKE: u8 = 22;

/// Writes a handshake message in a record at `at`, lets it join the running hash, and says where the record ends.
pub fn write_handshake<M: WriteMessage>(
    message: &M,
    transcript: &mut Sm3,
    out: &mut [u8],
    at: usize,
) -> usize
    requires fits { writable (M.HandshakeMessage.parts message.now) ≡ true }
    requires most { length (body_of (M.HandshakeMessage.parts message.now)) ≤ 16380 }
    requires room { at + (9 + length (body_of (M.HandshakeMessage.parts message.now))) ≤ length out.old }
    ensures end { result ≡ at + length (message_record (message_of M.HandshakeMessage.kind (M.HandshakeMessage.parts message.now))) }
    ensures after { out.new ≡ laid out.old at (message_record (message_of M.HandshakeMessage.kind (M.HandshakeMessage.parts message.now))) }
    ensures joined { view transcript.new ≡ absorb (view transcript.old) (message_of M.HandshakeMessage.kind (M.HandshakeMessage.parts message.now)) }
{
    let from = at + HEADER_SIZE;
    let end = write_message(message, out, from).unwrap_or(from);
    transcript.update(&out[from..end]);
    write_header(HANDSHAKE, end - from, out, at).unwrap_or(at)
}
