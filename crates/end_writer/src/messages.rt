//! The messages that ends write before their keys are in use, each on plain values.
ghost use Rattle.std.specs.Prelude.{◌≡◌, ℕ, ◌+◌, ◌≤◌, true, map, length};
ghost use Rattle.octets.specs.Laid.{laid};
ghost use Rattle.sm3.specs.Hash.{absorb};
ghost use Rattle.sm3.specs.View.{view};
ghost use Rattle.model.specs.Messages.{client_hello, server_hello, certificate, server_key_exchange, server_hello_done, client_key_exchange};
ghost use Rattle.model.specs.Refusals.{certificates_fit};
ghost use Rattle.end_writer.specs.Written.{message_record};

use crate::handshakes::write_handshake;
use handshake::{
    ClientKeyExchange, NULL_COMPRESSION, ServerHello, ServerHelloDone, ServerKeyExchange,
};
use handshake_writer::{CertificateChain, ClientOffer};
use sm3::Sm3;

/// Writes a ClientHello that offers suites, and says where its record ends.
pub fn write_client_hello<'a>(
    random: &'a [u8; 32],
    suites: &'a [u16],
    transcript: &mut Sm3,
    out: &mut [u8],
    at: usize,
) -> usize
    requires least { 1 ≤ length suites.now }
    requires most { length suites.now ≤ 8 }
    requires room { at + 64 ≤ length out.old }
    ensures end { result ≡ at + length (message_record (client_hello random.now suites.now)) }
    ensures after { out.new ≡ laid out.old at (message_record (client_hello random.now suites.now)) }
    ensures joined { view transcript.new ≡ absorb (view transcript.old) (client_hello random.now suites.now) }
{
    let offer = ClientOffer { random, suites };
    write_handshake(&offer, transcript, out, at)
}

/// Writes a ServerHello with the suite chosen, and says where its record ends.
pub(crate) fn write_server_hello<'a>(
    random: &'a [u8],
    session: &'a [u8],
    suite: u16,
    transcript: &mut Sm3,
    out: &mut [u8],
    at: usize,
) -> usize
    requires random { length random.now ≡ 32 }
    requires session { length session.now ≤ 32 }
    requires room { at + 79 ≤ length out.old }
    ensures end { result ≡ at + length (message_record (server_hello random.now session.now suite)) }
    ensures short { result ≤ at + 79 }
    ensures after { out.new ≡ laid out.old at (message_record (server_hello random.now session.now suite)) }
    ensures joined { view transcript.new ≡ absorb (view transcript.old) (server_hello random.now session.now suite) }
{
    let hello = ServerHello {
        random,
        session,
        suite,
        compression: NULL_COMPRESSION,
    };
    write_handshake(&hello, transcript, out, at)
}

/// Writes a Certificate of two certificates, and says where its record ends.
pub(crate) fn write_certificate<'a>(
    certificates: &'a [&'a [u8]],
    transcript: &mut Sm3,
    out: &mut [u8],
    at: usize,
) -> usize
    requires two { certificates_fit (map (λ x. x.now) certificates.now) ≡ true }
    requires room { at + 3018 ≤ length out.old }
    ensures end { result ≡ at + length (message_record (certificate (map (λ x. x.now) certificates.now))) }
    ensures short { result ≤ at + 3018 }
    ensures after { out.new ≡ laid out.old at (message_record (certificate (map (λ x. x.now) certificates.now))) }
    ensures joined { view transcript.new ≡ absorb (view transcript.old) (certificate (map (λ x. x.now) certificates.now)) }
{
    let chain = CertificateChain { certificates };
    write_handshake(&chain, transcript, out, at)
}

/// Writes a ServerKeyExchange with the signature, and says where its record ends.
pub(crate) fn write_server_key_exchange(
    signature: &[u8],
    transcript: &mut Sm3,
    out: &mut [u8],
    at: usize,
) -> usize
    requires least { 1 ≤ length signature.now }
    requires most { length signature.now ≤ 512 }
    requires room { at + 523 ≤ length out.old }
    ensures end { result ≡ at + length (message_record (server_key_exchange signature.now)) }
    ensures short { result ≤ at + 523 }
    ensures after { out.new ≡ laid out.old at (message_record (server_key_exchange signature.now)) }
    ensures joined { view transcript.new ≡ absorb (view transcript.old) (server_key_exchange signature.now) }
{
    let exchange = ServerKeyExchange { signature };
    write_handshake(&exchange, transcript, out, at)
}

/// Writes a ServerHelloDone, and says where its record ends.
pub(crate) fn write_server_hello_done(transcript: &mut Sm3, out: &mut [u8], at: usize) -> usize
    requires room { at + 9 ≤ length out.old }
    ensures end { result ≡ at + length (message_record (server_hello_done)) }
    ensures after { out.new ≡ laid out.old at (message_record (server_hello_done)) }
    ensures joined { view transcript.new ≡ absorb (view transcript.old) (server_hello_done) }
{
    write_handshake(&ServerHelloDone, transcript, out, at)
}

/// Writes a ClientKeyExchange with the wrapped premaster, and says where its record ends.
pub fn write_client_key_exchange(
    wrapped: &[u8],
    transcript: &mut Sm3,
    out: &mut [u8],
    at: usize,
) -> usize
    requires least { 1 ≤ length wrapped.now }
    requires most { length wrapped.now ≤ 512 }
    requires room { at + 523 ≤ length out.old }
    ensures end { result ≡ at + length (message_record (client_key_exchange wrapped.now)) }
    ensures after { out.new ≡ laid out.old at (message_record (client_key_exchange wrapped.now)) }
    ensures joined { view transcript.new ≡ absorb (view transcript.old) (client_key_exchange wrapped.now) }
{
    let exchange = ClientKeyExchange { wrapped };
    write_handshake(&exchange, transcript, out, at)
}
