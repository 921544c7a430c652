ghost use Rattle.std.specs.Prelude.{◌≡◌};
ghost use Rattle.handshake.specs.declared.types.HandshakeType.TheVariants.{ServerHelloDone as ServerHelloDoneType, Finished as FinishedType};
ghost use Rattle.handshake.specs.Kinds.{server_hello_done_parts, finished_parts};
ghost use Rattle.handshake.specs.Faults.{viewed, read_parts};

use super::ReadMessage;
use super::faults::LAYOUT_FAULT;
use handshake::{Finished, ServerHelloDone, VERIFY_DATA_LENGTH};
use records::Fault;

impl<'a> ReadMessage<'a> for ServerHelloDone {
    fn read(body: &'a [u8]) -> Result<ServerHelloDone, Fault>
        ensures { viewed (λ _. server_hello_done_parts) result ≡ read_parts ServerHelloDoneType body.now }
    {
        if body.is_empty() {
            Ok(ServerHelloDone)
        } else {
            Err(LAYOUT_FAULT)
        }
    }
}

impl<'a> ReadMessage<'a> for Finished<'a> {
    fn read(body: &'a [u8]) -> Result<Finished<'a>, Fault>
        ensures { viewed (λ m. finished_parts m.verify_data.now) result ≡ read_parts FinishedType body.now }
    {
        if body.len() != VERIFY_DATA_LENGTH {
            return Err(LAYOUT_FAULT);
        }
        Ok(Finished { verify_data: body })
    }
}
