ghost use Rattle.std.specs.Prelude.{◌≡◌, ℕ, ◌+◌, ◌-◌, ◌≤◌, min, map, length};
ghost use Rattle.octets.specs.Laid.{laid};
ghost use Rattle.handshake.specs.declared.types.HandshakeType.TheVariants.{Certificate as CertificateType};
ghost use Rattle.handshake.specs.Types.{type_number};
ghost use Rattle.handshake.specs.Certificates.{from_certificates};
ghost use Rattle.handshake.specs.Kinds.{certificate_parts, body_size, with_body};
ghost use Rattle.handshake_writer.specs.Views.{seen_chain};

use super::WriteMessage;
use handshake::{BODY_LIMIT, HandshakeMessage, HandshakeType};
use octets::{lay, three_octets};

/// The Certificate that an end writes: certificates in their order.
#[derive(Clone, Copy)]
pub struct CertificateChain<'a> {
    pub certificates: &'a [&'a [u8]],
}

/// Lays certificates over `out` from `at` on, each behind its length, as far as there is room, and says where they end.
fn lay_certificates(out: &mut [u8], at: usize, certificates: &[&[u8]]) -> usize
    requires { length (from_certificates (map (λ x. x.now) certificates.now)) ≤ 16777215 }
    ensures end { result ≡ at + min (length (from_certificates (map (λ x. x.now) certificates.now))) (length out.old - at) }
    ensures after { out.new ≡ laid out.old at (from_certificates (map (λ x. x.now) certificates.now)) }
{
    let mut end = at;
    for certificate in certificates {
        end = lay(out, end, &three_octets(certificate.len() as u32));
        end = lay(out, end, certificate);
    }
    end
}

impl<'a> HandshakeMessage for CertificateChain<'a> {
    const TYPE: u8 = HandshakeType::Certificate as u8;

    ghost kind = { CertificateType };

    ghost parts = { λ m. certificate_parts (seen_chain m) };

    fn kind() -> u8
        ensures { result ≡ type_number CertificateType }
    {
        Self::TYPE
    }
}

impl<'a> WriteMessage for CertificateChain<'a> {
    fn size(&self) -> Option<usize>
        ensures { result ≡ body_size (certificate_parts (seen_chain self.now)) }
    {
        let mut size = 3;
        for certificate in self.certificates {
            let length = certificate.len();
            if length < 1 || length > BODY_LIMIT || size + 3 + length > BODY_LIMIT {
                return None;
            }
            size += 3 + length;
        }
        Some(size)
    }

    fn write_body(&self, out: &mut [u8], at: usize)
        ensures { out.new ≡ with_body (certificate_parts (seen_chain self.now)) out.old at }
    {
        let Some(size) = self.size() else {
            return;
        };
        let at = lay(out, at, &three_octets((size - 3) as u32));
        lay_certificates(out, at, self.certificates);
    }
}
