ghost use Rattle.std.specs.Prelude.{◌≡◌};
ghost use Rattle.handshake.specs.Faults.{viewed, read_message};
ghost use Rattle.handshake.specs.Frames.{next, is_ready};
ghost use Rattle.handshake_reader.specs.Views.{first_of};

use super::ReadMessage;
use super::faults::{LAYOUT_FAULT, LENGTH_FAULT, TYPE_FAULT};
use handshake::{HEADER_LENGTH, MESSAGE_LIMIT};
use records::Fault;

/// The first message of the octets that came in.
#[derive(Clone, Copy, PartialEq, Eq)]
pub enum FirstMessage {
    /// Its header or its body is not all there.
    NotReady,
    /// Its body is longer than an end takes.
    TooLong,
    /// It is all there: its type and the length of its body.
    Ready { kind: u8, length: usize },
}

/// Looks at the first message of what is buffered.
pub fn first_message(buffered: &[u8]) -> FirstMessage
    ensures { result ≡ first_of (next buffered.now) }
{
    let [kind, high, mid, low, rest @ ..] = buffered else {
        return FirstMessage::NotReady;
    };
    let length = *high as usize * 65536 + *mid as usize * 256 + *low as usize;
    if length > MESSAGE_LIMIT {
        return FirstMessage::TooLong;
    }
    if length > rest.len() {
        return FirstMessage::NotReady;
    }
    FirstMessage::Ready {
        kind: *kind,
        length,
    }
}

/// Whether a message can be turned: one is all there, or longer than an end takes.
pub fn is_message_ready(buffered: &[u8]) -> bool
    ensures { result ≡ is_ready (next buffered.now) }
{
    match first_message(buffered) {
        FirstMessage::NotReady => false,
        FirstMessage::TooLong | FirstMessage::Ready { .. } => true,
    }
}

/// Reads a message of a kind that stands alone in the octets.
pub fn read_message<'a, M: ReadMessage<'a>>(octets: &'a [u8]) -> Result<M, Fault>
    ensures { viewed M.HandshakeMessage.parts result ≡ read_message M.HandshakeMessage.kind octets.now }
{
    match first_message(octets) {
        FirstMessage::NotReady => Err(LAYOUT_FAULT),
        FirstMessage::TooLong => Err(LENGTH_FAULT),
        FirstMessage::Ready { kind, length } => {
            if kind != M::kind() {
                return Err(TYPE_FAULT);
            }
            if octets.len() != HEADER_LENGTH + length {
                return Err(LAYOUT_FAULT);
            }
            M::read(&octets[HEADER_LENGTH..])
        }
    }
}
