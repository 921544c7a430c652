ghost use Rattle.std.specs.Prelude.{◌≡◌};
ghost use Rattle.handshake.specs.Kinds.{server_hello_parts, body_size, with_body};
ghost use Rattle.handshake.specs.Views.{seen_server_hello};

use super::WriteMessage;
use handshake::{RANDOM_LENGTH, SESSION_LIMIT, ServerHello, VERSION};
use octets::{lay, two_octets};

impl<'a> WriteMessage for ServerHello<'a> {
    fn size(&self) -> Option<usize>
        ensures { result ≡ body_size (server_hello_parts (seen_server_hello self.now)) }
    {
        let session = self.session.len();
        if self.random.len() != RANDOM_LENGTH || session > SESSION_LIMIT {
            return None;
        }
        Some(38 + session)
    }

    fn write_body(&self, out: &mut [u8], at: usize)
        ensures { out.new ≡ with_body (server_hello_parts (seen_server_hello self.now)) out.old at }
    {
        if self.size().is_none() {
            return;
        }
        let at = lay(out, at, &VERSION);
        let at = lay(out, at, self.random);
        let at = lay(out, at, &[self.session.len() as u8]);
        let at = lay(out, at, self.session);
        let at = lay(out, at, &two_octets(self.suite));
        lay(out, at, &[self.compression]);
    }
}
