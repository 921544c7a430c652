//! The messages with which ends greet, and the yes about a message of the other end.
ghost use Rattle.std.specs.Prelude.{◌≡◌, ℕ, ◌≤◌, true, false, List, [], ◌∷◌, length, Option};
ghost use Rattle.octets.specs.Laid.{laid};
ghost use Rattle.handshake.specs.Frames.{next};
ghost use Rattle.protection.specs.Keys.{Keying};
ghost use Rattle.model.specs.declared.stage.Stage.TheVariants.{AwaitServerHello, AwaitClientKeyExchange};
ghost use Rattle.model.specs.Messages.{client_hello};
ghost use Rattle.model.specs.Stages.{over};
ghost use Rattle.model.specs.Endpoint.{with_stage, with_hello};
ghost use Rattle.model.specs.Outcomes.{writing};
ghost use Rattle.model.specs.Deeds.{perform, greets, offers, flight, hearing};
ghost use Rattle.model.specs.Refusals.{certificates_fit};
ghost use Rattle.model.specs.Tlcp.{tlcp};
ghost use Rattle.end_rules.specs.Views.{seen_parts};
ghost use Rattle.end_state.specs.Fronts.{passed_front};
ghost use Rattle.end_state.specs.View.{state_view, suites_view, buffer_view};
ghost use Rattle.end_writer.specs.Flights.{message_records};
ghost use Rattle.end_writer.specs.Kind.{kind_of};
ghost use Rattle.end_state.specs.View.{view};
ghost use Rattle.end_reports.specs.Reports.{done, done_by};

use end_reports::Report;
use end_rules::AnswerParts;
use end_state::{LineEnd, State};
use end_writer::{write_client_hello, write_server_flight};
use model::Stage;
use protection::RecordProtection;

/// Writes a ClientHello with a random and the suites of the end, and says where it ends.
fn write_greeting(state: &mut State, random: &[u8], out: &mut [u8]) -> usize
    requires running { over state.old.stage ≡ false }
    requires random { length random.now ≡ 32 }
    requires room { 4096 ≤ length out.old }
    ensures written { result ≡ length (message_records (client_hello random.now (suites_view state.old.suites) ∷ [])) }
    ensures after { out.new ≡ laid out.old 0 (message_records (client_hello random.now (suites_view state.old.suites) ∷ [])) }
    ensures end { (held : Option Keying) → state_view held state.new ≡ hearing tlcp (client_hello random.now (suites_view state.old.suites) ∷ []) (with_stage AwaitServerHello (with_hello random.now state.old.server_random state.old.suite (state_view held state.old))) }
{
    state.stage = Stage::AwaitServerHello;
    state.client_random.copy_from_slice(random);
    let list: &[u16] = &state.suites.list;
    let suites = &list[0..state.suites.count];
    write_client_hello(&state.client_random, suites, &mut state.transcript, out, 0)
}

/// Writes the server's first flight, and says where it ends.
fn write_offer(state: &mut State, parts: AnswerParts<'_>, out: &mut [u8]) -> usize
    requires running { over state.old.stage ≡ false }
    requires random { length (seen_parts parts).random ≡ 32 }
    requires session { length (seen_parts parts).session ≡ 32 }
    requires two { certificates_fit (seen_parts parts).certificates ≡ true }
    requires least { 1 ≤ length (seen_parts parts).signature }
    requires most { length (seen_parts parts).signature ≤ 512 }
    requires room { 4096 ≤ length out.old }
    ensures written { result ≡ length (message_records (flight (seen_parts parts.entry) state.old.suite)) }
    ensures after { out.new ≡ laid out.old 0 (message_records (flight (seen_parts parts.entry) state.old.suite)) }
    ensures end { (held : Option Keying) → state_view held state.new ≡ hearing tlcp (flight (seen_parts parts.entry) state.old.suite) (with_stage AwaitClientKeyExchange (with_hello state.old.client_random (seen_parts parts.entry).random state.old.suite (state_view held state.old))) }
{
    state.stage = Stage::AwaitClientKeyExchange;
    state.server_random.copy_from_slice(parts.random);
    write_server_flight(
        parts.random,
        parts.session,
        state.suite,
        parts.certificates,
        parts.signature,
        &mut state.transcript,
        out,
    )
}

/// A yes to the first question: the client greets.
pub fn greet<P: RecordProtection>(end: &mut LineEnd<P>, random: &[u8], out: &mut [u8]) -> Report
    requires running { over end.old.state.stage ≡ false }
    requires random { length random.now ≡ 32 }
    requires room { 4096 ≤ length out.old }
    ensures { (fresh : List ℕ) → done_by result (view P.RecordProtection.holds end.new) out.new ≡ done (kind_of P.RecordProtection.serves P.RecordProtection.size P.RecordProtection.sealing P.RecordProtection.opening) (perform tlcp (kind_of P.RecordProtection.serves P.RecordProtection.size P.RecordProtection.sealing P.RecordProtection.opening) fresh (view P.RecordProtection.holds end.old) (greets random.now)) out.old }
{
    let written = write_greeting(&mut end.state, random, out);
    Report {
        stage: end.state.stage,
        written,
        fault: None,
    }
}

/// A yes to the second question: the server offers what the client asked for.
pub fn offer<P: RecordProtection>(
    end: &mut LineEnd<P>,
    parts: AnswerParts<'_>,
    out: &mut [u8],
) -> Report
    requires running { over end.old.state.stage ≡ false }
    requires random { length (seen_parts parts).random ≡ 32 }
    requires session { length (seen_parts parts).session ≡ 32 }
    requires two { certificates_fit (seen_parts parts).certificates ≡ true }
    requires least { 1 ≤ length (seen_parts parts).signature }
    requires most { length (seen_parts parts).signature ≤ 512 }
    requires room { 4096 ≤ length out.old }
    ensures { (fresh : List ℕ) → done_by result (view P.RecordProtection.holds end.new) out.new ≡ done (kind_of P.RecordProtection.serves P.RecordProtection.size P.RecordProtection.sealing P.RecordProtection.opening) (perform tlcp (kind_of P.RecordProtection.serves P.RecordProtection.size P.RecordProtection.sealing P.RecordProtection.opening) fresh (view P.RecordProtection.holds end.old) (offers (seen_parts parts.entry))) out.old }
{
    let written = write_offer(&mut end.state, parts, out);
    Report {
        stage: end.state.stage,
        written,
        fault: None,
    }
}

/// A yes about the message at the front of the buffer: the end goes on to `stage`.
pub fn trust<P: RecordProtection>(end: &mut LineEnd<P>, stage: Stage) -> Report
    requires next { over stage ≡ false }
    requires running { over end.old.state.stage ≡ false }
    ensures { (out : List ℕ) → done_by result (view P.RecordProtection.holds end.new) out ≡ done (kind_of P.RecordProtection.serves P.RecordProtection.size P.RecordProtection.sealing P.RecordProtection.opening) (writing [] (passed_front stage (next (buffer_view end.old.state.buffer)) (view P.RecordProtection.holds end.old))) out }
{
    end.state.pass_front(stage);
    Report {
        stage: end.state.stage,
        written: 0,
        fault: None,
    }
}
