//! The call look.
ghost use Rattle.std.specs.Prelude.{◌≡◌};
ghost use Rattle.handshake.specs.Certificates.{read_certificate};
ghost use Rattle.handshake.specs.Exchanges.{read_exchange};
ghost use Rattle.handshake.specs.Frames.{next};
ghost use Rattle.model.specs.Results.{certificate_parts, exchange_parts, parts_shown, look_yields};
ghost use Rattle.endpoint.specs.View.{view};
ghost use Rattle.endpoint.specs.Shown.{parts_seen, shown_by};

use crate::end::Endpoint;
use crate::{Shown, ShownParts};
use end_rules::look_refusal;
use handshake::{ClientKeyExchange, HEADER_LENGTH, ServerKeyExchange};
use handshake_reader::{Certificate, FirstMessage, ReadMessage, first_message};
use model::{Question, Refusal};
use protection::RecordProtection;

/// The certificates of a Certificate, by its body.
fn certificates_of(body: &[u8]) -> ShownParts<'_>
    ensures { parts_seen result ≡ certificate_parts (read_certificate body.now) }
{
    match Certificate::read(body) {
        Ok(list) => ShownParts::Certificates(list),
        Err(_) => ShownParts::Nothing,
    }
}

/// The signature of a ServerKeyExchange, by its body.
fn signature_of(body: &[u8]) -> ShownParts<'_>
    ensures { parts_seen result ≡ exchange_parts (read_exchange body.now) }
{
    match ServerKeyExchange::read(body) {
        Ok(exchange) => ShownParts::Carried(exchange.signature),
        Err(_) => ShownParts::Nothing,
    }
}

/// The wrapped premaster of a ClientKeyExchange, by its body.
fn wrapped_of(body: &[u8]) -> ShownParts<'_>
    ensures { parts_seen result ≡ exchange_parts (read_exchange body.now) }
{
    match ClientKeyExchange::read(body) {
        Ok(exchange) => ShownParts::Carried(exchange.wrapped),
        Err(_) => ShownParts::Nothing,
    }
}

/// The parts of the message that a question is about, which is the first of what is buffered.
fn parts_in_question(question: Question, buffered: &[u8]) -> ShownParts<'_>
    ensures { parts_seen result ≡ parts_shown question (next buffered.now) }
{
    let FirstMessage::Ready { length, .. } = first_message(buffered) else {
        return ShownParts::Nothing;
    };
    let body = &buffered[HEADER_LENGTH..HEADER_LENGTH + length];
    match question {
        Question::CheckCertificates => certificates_of(body),
        Question::CheckSignature => signature_of(body),
        Question::UnwrapPremaster => wrapped_of(body),
        Question::ClientRandom | Question::ServerFlight | Question::WrapPremaster => {
            ShownParts::Nothing
        }
    }
}

impl<P: RecordProtection> Endpoint<P> {
    /// Shows what the open question is about.
    pub fn look(&self, question: Question) -> Result<Shown<'_>, Refusal>
        ensures { shown_by result ≡ look_yields (view P.RecordProtection.holds self.now) question }
    {
        match look_refusal(self.end.state.stage, question) {
            Some(refusal) => Err(refusal),
            None => Ok(Shown {
                client_random: &self.end.state.client_random,
                server_random: &self.end.state.server_random,
                suite: self.end.state.suite,
                parts: parts_in_question(question, self.end.state.buffer.as_slice()),
            }),
        }
    }
}
