ghost use Rattle.std.specs.Prelude.{◌≡◌};
ghost use Rattle.handshake.specs.Kinds.{server_hello_done_parts, finished_parts, body_size, with_body};

use super::WriteMessage;
use handshake::{Finished, ServerHelloDone, VERIFY_DATA_LENGTH};
use octets::lay;

impl WriteMessage for ServerHelloDone {
    fn size(&self) -> Option<usize>
        ensures { result ≡ body_size server_hello_done_parts }
    {
        Some(0)
    }

    fn write_body(&self, out: &mut [u8], at: usize)
        ensures { out.new ≡ with_body server_hello_done_parts out.old at }
    {
        lay(out, at, &[]);
    }
}

impl<'a> WriteMessage for Finished<'a> {
    fn size(&self) -> Option<usize>
        ensures { result ≡ body_size (finished_parts self.now.verify_data.now) }
    {
        if self.verify_data.len() != VERIFY_DATA_LENGTH {
            return None;
        }
        Some(VERIFY_DATA_LENGTH)
    }

    fn write_body(&self, out: &mut [u8], at: usize)
        ensures { out.new ≡ with_body (finished_parts self.now.verify_data.now) out.old at }
    {
        if self.verify_data.len() == VERIFY_DATA_LENGTH {
            lay(out, at, self.verify_data);
        }
    }
}
