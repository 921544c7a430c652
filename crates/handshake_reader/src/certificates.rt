ghost use Rattle.std.specs.Prelude.{◌≡◌, length, is_some};
ghost use Rattle.std.specs.List.{slice_get};
ghost use Rattle.std.specs.Option.{option_map};
ghost use Rattle.handshake.specs.declared.types.HandshakeType.TheVariants.{Certificate as CertificateType};
ghost use Rattle.handshake.specs.Types.{type_number};
ghost use Rattle.handshake.specs.Certificates.{certificates_in, certificates_seen, read_certificate};
ghost use Rattle.handshake.specs.Kinds.{certificate_parts};
ghost use Rattle.handshake.specs.Faults.{viewed, read_parts};
ghost use Rattle.handshake.specs.Places.{spans};
ghost use Rattle.handshake_reader.specs.Views.{seen_certificates};

use super::ReadMessage;
use super::faults::LAYOUT_FAULT;
use super::parts::part3;
use handshake::{HandshakeMessage, HandshakeType, Span};
use records::Fault;

/// The octets of a Certificate message before its first certificate: the header and the length of the list.
const LIST_OFFSET: usize = 7;

/// A Certificate as it was read: certificates one after another, each behind its length.
#[derive(Clone, Copy)]
pub struct Certificate<'a> {
    list: &'a [u8],
}

/// Whether certificates fill a list, each of one octet or more.
fn is_filled(list: &[u8]) -> bool
    ensures { result ≡ is_some (certificates_in list.now list.now) }
{
    let mut left = list;
    while !left.is_empty() {
        let Some(first) = part3(left) else {
            return false;
        };
        if first.part.is_empty() {
            return false;
        }
        left = first.rest;
    }
    true
}

/// Cuts the body of a Certificate.
fn read_certificate(body: &[u8]) -> Option<Certificate<'_>>
    ensures { option_map seen_certificates result ≡ read_certificate body.now }
{
    let all = part3(body)?;
    if !all.rest.is_empty() {
        return None;
    }
    if !is_filled(all.part) {
        return None;
    }
    Some(Certificate { list: all.part })
}

impl<'a> Certificate<'a> {
    /// How many certificates there are.
    pub fn len(&self) -> usize
        ensures { result ≡ length (seen_certificates self.now) }
    {
        let mut left = self.list;
        let mut count = 0;
        while let Some(first) = part3(left) {
            left = first.rest;
            count += 1;
        }
        count
    }

    /// Where the certificate at a place stands in its message, counted from 0.
    pub fn get(&self, index: usize) -> Option<Span>
        ensures { result ≡ slice_get (spans 7 (seen_certificates self.now)) index }
    {
        let mut left = self.list;
        let mut offset = LIST_OFFSET;
        for _i in 0..index {
            let first = part3(left)?;
            left = first.rest;
            offset += 3 + first.part.len();
        }
        let first = part3(left)?;
        Some(Span {
            offset: offset + 3,
            len: first.part.len(),
        })
    }

    /// The certificate at a place, counted from 0.
    pub fn octets(&self, index: usize) -> Option<&'a [u8]>
        ensures { option_map (λ x. x.now) result ≡ slice_get (seen_certificates self.now) index }
    {
        let mut left = self.list;
        for _i in 0..index {
            let first = part3(left)?;
            left = first.rest;
        }
        let first = part3(left)?;
        Some(first.part)
    }
}

impl<'a> HandshakeMessage for Certificate<'a> {
    const TYPE: u8 = HandshakeType::Certificate as u8;

    ghost kind = { CertificateType };

    ghost parts = { λ m. certificate_parts (seen_certificates m) };

    fn kind() -> u8
        ensures { result ≡ type_number CertificateType }
    {
        Self::TYPE
    }
}

impl<'a> ReadMessage<'a> for Certificate<'a> {
    fn read(body: &'a [u8]) -> Result<Certificate<'a>, Fault>
        ensures { viewed (λ m. certificate_parts (seen_certificates m)) result ≡ read_parts CertificateType body.now }
    {
        match read_certificate(body) {
            Some(message) => Ok(message),
            None => Err(LAYOUT_FAULT),
        }
    }
}
