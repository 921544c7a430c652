ghost use Rattle.std.specs.Prelude.{◌≡◌};
ghost use Rattle.handshake.specs.declared.types.HandshakeType.TheVariants.{ClientHello as ClientHelloType};
ghost use Rattle.handshake.specs.Types.{type_number};
ghost use Rattle.handshake.specs.Kinds.{client_hello_parts, body_size, with_body};
ghost use Rattle.handshake_writer.specs.Views.{seen_offer};

use super::WriteMessage;
use super::suites::lay_suites;
use handshake::{HandshakeMessage, HandshakeType, NULL_COMPRESSION, RANDOM_LENGTH, VERSION};
use octets::{lay, two_octets};

/// The most suites whose octets a length of two octets can tell.
const SUITE_LIMIT: usize = 32767;

/// The ClientHello that an end writes: no session id, and no compression but 00.
#[derive(Clone, Copy)]
pub struct ClientOffer<'a> {
    pub random: &'a [u8],
    pub suites: &'a [u16],
}

impl<'a> HandshakeMessage for ClientOffer<'a> {
    const TYPE: u8 = HandshakeType::ClientHello as u8;

    ghost kind = { ClientHelloType };

    ghost parts = { λ m. client_hello_parts (seen_offer m) };

    fn kind() -> u8
        ensures { result ≡ type_number ClientHelloType }
    {
        Self::TYPE
    }
}

impl<'a> WriteMessage for ClientOffer<'a> {
    fn size(&self) -> Option<usize>
        ensures { result ≡ body_size (client_hello_parts (seen_offer self.now)) }
    {
        let suites = self.suites.len();
        if self.random.len() != RANDOM_LENGTH || suites < 1 || suites > SUITE_LIMIT {
            return None;
        }
        Some(39 + 2 * suites)
    }

    fn write_body(&self, out: &mut [u8], at: usize)
        ensures { out.new ≡ with_body (client_hello_parts (seen_offer self.now)) out.old at }
    {
        if self.size().is_none() {
            return;
        }
        let at = lay(out, at, &VERSION);
        let at = lay(out, at, self.random);
        let at = lay(out, at, &[0]);
        let at = lay(out, at, &two_octets(2 * self.suites.len() as u16));
        let at = lay_suites(out, at, self.suites);
        lay(out, at, &[1, NULL_COMPRESSION]);
    }
}
