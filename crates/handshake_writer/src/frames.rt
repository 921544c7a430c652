ghost use Rattle.std.specs.Prelude.{◌≡◌};
ghost use Rattle.handshake.specs.Kinds.{message_end, with_message};

use super::WriteMessage;
use handshake::HEADER_LENGTH;
use octets::{lay, three_octets};

/// Writes a message of any kind over `out` from `at` on, and says where it ends.
pub fn write_message<M: WriteMessage>(message: &M, out: &mut [u8], at: usize) -> Option<usize>
    ensures end { result ≡ message_end (M.HandshakeMessage.parts message.now) out.old at }
    ensures after { out.new ≡ with_message M.HandshakeMessage.kind (M.HandshakeMessage.parts message.now) out.old at }
{
    let size = message.size()?;
    if out.len().saturating_sub(at) < HEADER_LENGTH + size {
        return None;
    }
    let [high, mid, low] = three_octets(size as u32);
    let body = lay(out, at, &[M::kind(), high, mid, low]);
    message.write_body(out, body);
    Some(body + size)
}
