ghost use Rattle.std.specs.Prelude.{◌≡◌, ℕ, List, length, if◌then◌else◌};
ghost use Rattle.records.specs.declared.fault.Layer.TheVariants.{Message as AtMessage};
ghost use Rattle.handshake.specs.Parts.{is_none, words, other_version};
ghost use Rattle.handshake.specs.Hellos.{read_client_hello, read_server_hello};
ghost use Rattle.handshake.specs.Certificates.{read_certificate};
ghost use Rattle.handshake.specs.Exchanges.{read_exchange};
ghost use Rattle.model.specs.Messages.{first_shared};
ghost use Rattle.model.specs.Deeds.{Deed, raises, takes_done, keeps_certificates};
ghost use Rattle.model.specs.Turns.{on_client_hello_at, on_server_hello_at, on_certificate, on_exchange, on_finished_at};
ghost use Rattle.end_rules.specs.Effects.{deed_of};
ghost use Rattle.end_rules.specs.Messages.{client_hello_deed, server_hello_deed, finished_deed};

use crate::suites::is_among;
use handshake::{
    ClientKeyExchange, Finished, NULL_COMPRESSION, ServerHello, ServerHelloDone, ServerKeyExchange,
};
use handshake_reader::{Certificate, ClientHello, ReadMessage, SuiteList};
use octets::{lay, same};
use records::{Alert, Fault, Layer};

/// The certificates of a server: one for signing, one for encryption.
const CERTIFICATE_COUNT: usize = 2;

/// What an end takes from the other's hello.
#[derive(Clone, Copy)]
pub struct Hello {
    pub random: [u8; 32],
    pub suite: u16,
}

/// What a ClientHello does: its random, and the first of its suites that is allowed.
pub fn judge_client_hello(body: &[u8], allowed: &[u16]) -> Result<Hello, Fault>
    ensures { (m rest : List ℕ) → client_hello_deed result m rest ≡ (if other_version body.now then raises AtMessage 70 else on_client_hello_at allowed.now (read_client_hello body.now) m rest) }
{
    let hello = ClientHello::read(body)?;
    if !hello.offers_null_compression() {
        return Err(fault(Alert::IllegalParameter, Layer::Message));
    }
    match first_shared(hello.suites, allowed) {
        Some(suite) => Ok(Hello {
            random: random_of(hello.random),
            suite,
        }),
        None => Err(fault(Alert::HandshakeFailure, Layer::Stage)),
    }
}

/// What a ServerHello does: its random and its suite, which was offered.
pub fn judge_server_hello(body: &[u8], offered: &[u16]) -> Result<Hello, Fault>
    ensures { (m rest : List ℕ) → server_hello_deed result m rest ≡ (if other_version body.now then raises AtMessage 70 else on_server_hello_at offered.now (read_server_hello body.now) m rest) }
{
    let hello = ServerHello::read(body)?;
    if !is_among(hello.suite, offered) || hello.compression != NULL_COMPRESSION {
        return Err(fault(Alert::IllegalParameter, Layer::Message));
    }
    Ok(Hello {
        random: random_of(hello.random),
        suite: hello.suite,
    })
}

/// The first suite that is allowed.
fn first_shared(suites: SuiteList<'_>, allowed: &[u16]) -> Option<u16>
    ensures { result ≡ first_shared (words suites.entry.octets.now) allowed.now }
{
    for i in 0..suites.len() {
        let suite = suites.get(i)?;
        if is_among(suite, allowed) {
            return Some(suite);
        }
    }
    None
}

/// The octets of a random, of which there are 32.
fn random_of(octets: &[u8]) -> [u8; 32]
    ensures { length octets.now ≡ 32 → result ≡ octets.now }
{
    let mut random = [0; 32];
    lay(&mut random, 0, octets);
    random
}

/// What a Certificate does: it carries two certificates.
pub fn judge_certificates(body: &[u8]) -> Result<(), Fault>
    ensures { deed_of (λ _. keeps_certificates) result ≡ on_certificate (read_certificate body.now) }
{
    let certificates = Certificate::read(body)?;
    if certificates.len() != CERTIFICATE_COUNT {
        return Err(fault(Alert::BadCertificate, Layer::Message));
    }
    Ok(())
}

/// What a ServerKeyExchange does: its layout is sound.
pub fn judge_server_key_exchange(body: &[u8]) -> Result<(), Fault>
    ensures { (d : Deed) → deed_of (λ _. d) result ≡ on_exchange (read_exchange body.now) d }
{
    ServerKeyExchange::read(body)?;
    Ok(())
}

/// What a ClientKeyExchange does: its layout is sound.
pub fn judge_client_key_exchange(body: &[u8]) -> Result<(), Fault>
    ensures { (d : Deed) → deed_of (λ _. d) result ≡ on_exchange (read_exchange body.now) d }
{
    ClientKeyExchange::read(body)?;
    Ok(())
}

/// What a ServerHelloDone does: it is empty.
pub fn judge_done(body: &[u8]) -> Result<(), Fault>
    ensures { (m rest : List ℕ) → deed_of (λ _. takes_done m rest) result ≡ (if is_none body.now then takes_done m rest else raises AtMessage 50) }
{
    ServerHelloDone::read(body)?;
    Ok(())
}

/// What a Finished does: 12 octets with `rest` octets behind the message, of which there may be none, and the value that is expected.
pub fn judge_finished(body: &[u8], rest: usize, expected: &[u8; 12]) -> Result<(), Fault>
    ensures { (d : Deed) (xs : List ℕ) → length xs ≡ rest → finished_deed result d ≡ on_finished_at expected.now d body.now xs }
{
    let finished = Finished::read(body)?;
    if rest != 0 {
        return Err(fault(Alert::UnexpectedMessage, Layer::Stage));
    }
    if !same(finished.verify_data, expected) {
        return Err(fault(Alert::DecryptError, Layer::Stage));
    }
    Ok(())
}

/// A fault that a layer finds.
fn fault(alert: Alert, layer: Layer) -> Fault
    ensures alert { result.alert ≡ alert }
    ensures layer { result.layer ≡ layer }
{
    Fault { alert, layer }
}
