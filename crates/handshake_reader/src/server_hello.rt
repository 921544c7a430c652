ghost use Rattle.std.specs.Prelude.{◌≡◌};
ghost use Rattle.std.specs.Option.{option_map};
ghost use Rattle.handshake.specs.declared.types.HandshakeType.TheVariants.{ServerHello as ServerHelloType};
ghost use Rattle.handshake.specs.Hellos.{server_choice, read_server_hello};
ghost use Rattle.handshake.specs.Kinds.{server_hello_parts};
ghost use Rattle.handshake.specs.Faults.{viewed, read_parts};
ghost use Rattle.handshake.specs.Views.{seen_server_hello};

use super::ReadMessage;
use super::faults::{LAYOUT_FAULT, VERSION_FAULT};
use super::parts::{part, part1};
use super::version::{is_other_version, is_version};
use handshake::{RANDOM_LENGTH, SESSION_LIMIT, ServerHello, VERSION_LENGTH};
use records::Fault;

/// A ServerHello with what follows its session id: a suite and one compression, and no more.
fn read_choice<'a>(random: &'a [u8], session: &'a [u8], rest: &'a [u8]) -> Option<ServerHello<'a>>
    ensures { option_map seen_server_hello result ≡ server_choice random.now session.now rest.now }
{
    let [high, low, compression] = rest else {
        return None;
    };
    if session.len() > SESSION_LIMIT {
        return None;
    }
    Some(ServerHello {
        random,
        session,
        suite: *high as u16 * 256 + *low as u16,
        compression: *compression,
    })
}

/// Cuts the body of a ServerHello into its parts.
fn read_server_hello(body: &[u8]) -> Option<ServerHello<'_>>
    ensures { option_map seen_server_hello result ≡ read_server_hello body.now }
{
    let version = part(body, VERSION_LENGTH)?;
    let random = part(version.rest, RANDOM_LENGTH)?;
    let session = part1(random.rest)?;
    if !is_version(version.part) {
        return None;
    }
    read_choice(random.part, session.part, session.rest)
}

impl<'a> ReadMessage<'a> for ServerHello<'a> {
    fn read(body: &'a [u8]) -> Result<ServerHello<'a>, Fault>
        ensures { viewed (λ m. server_hello_parts (seen_server_hello m)) result ≡ read_parts ServerHelloType body.now }
    {
        if is_other_version(body) {
            return Err(VERSION_FAULT);
        }
        match read_server_hello(body) {
            Some(hello) => Ok(hello),
            None => Err(LAYOUT_FAULT),
        }
    }
}
