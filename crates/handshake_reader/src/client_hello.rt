ghost use Rattle.std.specs.Prelude.{◌≡◌};
ghost use Rattle.std.specs.Option.{option_map};
ghost use Rattle.handshake.specs.declared.types.HandshakeType.TheVariants.{ClientHello as ClientHelloType};
ghost use Rattle.handshake.specs.Types.{type_number};
ghost use Rattle.handshake.specs.Parts.{among};
ghost use Rattle.handshake.specs.Hellos.{client_hello_fits, read_client_hello};
ghost use Rattle.handshake.specs.Kinds.{client_hello_parts};
ghost use Rattle.handshake.specs.Faults.{viewed, read_parts};
ghost use Rattle.handshake_reader.specs.Views.{seen_client_hello};

use super::faults::{LAYOUT_FAULT, VERSION_FAULT};
use super::parts::{part, part1, part2};
use super::version::{is_other_version, is_version};
use super::{ReadMessage, SuiteList};
use handshake::{
    HandshakeMessage, HandshakeType, NULL_COMPRESSION, RANDOM_LENGTH, SESSION_LIMIT, VERSION_LENGTH,
};
use records::Fault;

/// A ClientHello as it was read.
#[derive(Clone, Copy)]
pub struct ClientHello<'a> {
    pub random: &'a [u8],
    pub session: &'a [u8],
    pub suites: SuiteList<'a>,
    pub compressions: &'a [u8],
}

impl<'a> ClientHello<'a> {
    /// Whether compression 00, which is none, is among those offered.
    pub fn offers_null_compression(&self) -> bool
        ensures { result ≡ among 0 self.now.compressions.now }
    {
        let compressions = self.compressions;
        for compression in compressions {
            let is_null = *compression == NULL_COMPRESSION;
            if is_null {
                return true;
            }
        }
        false
    }
}

/// Whether the parts of a ClientHello have the version and the lengths that they should.
fn fits_client_hello(
    version: &[u8],
    session: &[u8],
    suites: &[u8],
    compressions: &[u8],
    rest: &[u8],
) -> bool
    ensures { result ≡ client_hello_fits version.now session.now suites.now compressions.now rest.now }
{
    is_version(version)
        && session.len() <= SESSION_LIMIT
        && suites.len() % 2 == 0
        && suites.len() >= 2
        && compressions.len() >= 1
        && rest.is_empty()
}

/// Cuts the body of a ClientHello into its parts.
fn read_client_hello(body: &[u8]) -> Option<ClientHello<'_>>
    ensures { option_map seen_client_hello result ≡ read_client_hello body.now }
{
    let version = part(body, VERSION_LENGTH)?;
    let random = part(version.rest, RANDOM_LENGTH)?;
    let session = part1(random.rest)?;
    let suites = part2(session.rest)?;
    let compressions = part1(suites.rest)?;
    if !fits_client_hello(
        version.part,
        session.part,
        suites.part,
        compressions.part,
        compressions.rest,
    ) {
        return None;
    }
    Some(ClientHello {
        random: random.part,
        session: session.part,
        suites: SuiteList {
            octets: suites.part,
        },
        compressions: compressions.part,
    })
}

impl<'a> HandshakeMessage for ClientHello<'a> {
    const TYPE: u8 = HandshakeType::ClientHello as u8;

    ghost kind = { ClientHelloType };

    ghost parts = { λ m. client_hello_parts (seen_client_hello m) };

    fn kind() -> u8
        ensures { result ≡ type_number ClientHelloType }
    {
        Self::TYPE
    }
}

impl<'a> ReadMessage<'a> for ClientHello<'a> {
    fn read(body: &'a [u8]) -> Result<ClientHello<'a>, Fault>
        ensures { viewed (λ m. client_hello_parts (seen_client_hello m)) result ≡ read_parts ClientHelloType body.now }
    {
        if is_other_version(body) {
            return Err(VERSION_FAULT);
        }
        match read_client_hello(body) {
            Some(hello) => Ok(hello),
            None => Err(LAYOUT_FAULT),
        }
    }
}
