//! The server's first flight: four messages in four records.
ghost use Rattle.std.specs.Prelude.{◌≡◌, ℕ, ◌≤◌, true, map, length};
ghost use Rattle.octets.specs.Laid.{laid};
ghost use Rattle.sm3.specs.View.{view};
ghost use Rattle.model.specs.Refusals.{certificates_fit};
ghost use Rattle.model.specs.Schedule.{absorbed};
ghost use Rattle.model.specs.Tlcp.{tlcp};
ghost use Rattle.end_writer.specs.Flights.{flight_of, message_records};

use crate::messages::{
    write_certificate, write_server_hello, write_server_hello_done, write_server_key_exchange,
};
use sm3::Sm3;

/// Writes ServerHello, Certificate, ServerKeyExchange and ServerHelloDone first in `out`, and says where they end.
pub fn write_server_flight(
    random: &[u8],
    session: &[u8],
    suite: u16,
    certificates: &[&[u8]],
    signature: &[u8],
    transcript: &mut Sm3,
    out: &mut [u8],
) -> usize
    requires random { length random.now ≡ 32 }
    requires session { length session.now ≡ 32 }
    requires two { certificates_fit (map (λ x. x.now) certificates.now) ≡ true }
    requires least { 1 ≤ length signature.now }
    requires most { length signature.now ≤ 512 }
    requires room { 4096 ≤ length out.old }
    ensures end { result ≡ length (message_records (flight_of random.now session.now suite (map (λ x. x.now) certificates.now) signature.now)) }
    ensures after { out.new ≡ laid out.old 0 (message_records (flight_of random.now session.now suite (map (λ x. x.now) certificates.now) signature.now)) }
    ensures joined { view transcript.new ≡ absorbed tlcp (view transcript.old) (flight_of random.now session.now suite (map (λ x. x.now) certificates.now) signature.now) }
{
    let end = write_server_hello(random, session, suite, transcript, out, 0);
    let end = write_certificate(&*certificates, transcript, out, end);
    let end = write_server_key_exchange(signature, transcript, out, end);
    write_server_hello_done(transcript, out, end)
}
