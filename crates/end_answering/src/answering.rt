//! The call answer: what the key card says to an open question.
ghost use Rattle.std.specs.Prelude.{◌≡◌, ◌≤◌, true, false, length};
ghost use Rattle.records.specs.declared.fault.Layer.TheVariants.{Card as AtCard};
ghost use Rattle.records.specs.Faults.{alert_number};
ghost use Rattle.model.specs.Stages.{over};
ghost use Rattle.model.specs.Deeds.{perform, raises};
ghost use Rattle.model.specs.Answers.{answered, said_yes, said_no};
ghost use Rattle.model.specs.Refusals.{lengths_fit, takes_answer, parts_fit, takes_no};
ghost use Rattle.model.specs.Tlcp.{tlcp};
ghost use Rattle.end_rules.specs.Views.{seen_parts, seen_answer};
ghost use Rattle.end_writer.specs.Kind.{kind_of};
ghost use Rattle.end_state.specs.View.{view};
ghost use Rattle.end_reports.specs.Reports.{done, done_by};

use crate::greeting::{greet, offer, trust};
use crate::keying::{exchange, unwrap};
use end_reports::{Report, raise};
use end_rules::{Answer, AnswerParts};
use end_state::LineEnd;
use model::{Question, Stage};
use protection::RecordProtection;
use records::{Alert, Fault, Layer};

/// The alert that a no raises, where the question takes it.
fn alert_of_no(question: Question, number: u8) -> Alert
    requires { takes_no question number ≡ true }
    ensures { raises AtCard (alert_number result) ≡ said_no question number }
{
    match question {
        Question::ServerFlight | Question::WrapPremaster => Alert::InternalError,
        Question::UnwrapPremaster => Alert::HandshakeFailure,
        Question::ClientRandom | Question::CheckCertificates | Question::CheckSignature => {
            Alert::from_number(number).unwrap_or(Alert::InternalError)
        }
    }
}

/// Takes an answer that fits its question.
pub fn take_answer<P: RecordProtection>(
    end: &mut LineEnd<P>,
    question: Question,
    answer: Answer<'_>,
    fresh: &[u8],
    out: &mut [u8],
) -> Report
    requires running { over end.old.state.stage ≡ false }
    requires fresh { length fresh.now ≡ 16 }
    requires room { 4096 ≤ length out.old }
    requires lengths { lengths_fit question (seen_answer answer) ≡ true }
    requires taken { takes_answer question (seen_answer answer) ≡ true }
    ensures { done_by result (view P.RecordProtection.holds end.new) out.new ≡ done (kind_of P.RecordProtection.serves P.RecordProtection.size P.RecordProtection.sealing P.RecordProtection.opening) (perform tlcp (kind_of P.RecordProtection.serves P.RecordProtection.size P.RecordProtection.sealing P.RecordProtection.opening) fresh.now (view P.RecordProtection.holds end.old) (answered (view P.RecordProtection.holds end.old) question (seen_answer answer.entry))) out.old }
{
    match answer {
        Answer::Yes(parts) => take_yes(end, question, parts, fresh, out),
        Answer::No(number) => take_no(end, question, number, fresh, out),
    }
}

/// Takes a no: its alert is raised.
pub fn take_no<P: RecordProtection>(
    end: &mut LineEnd<P>,
    question: Question,
    number: u8,
    fresh: &[u8],
    out: &mut [u8],
) -> Report
    requires running { over end.old.state.stage ≡ false }
    requires fresh { length fresh.now ≡ 16 }
    requires room { 4096 ≤ length out.old }
    requires taken { takes_no question number ≡ true }
    ensures { done_by result (view P.RecordProtection.holds end.new) out.new ≡ done (kind_of P.RecordProtection.serves P.RecordProtection.size P.RecordProtection.sealing P.RecordProtection.opening) (perform tlcp (kind_of P.RecordProtection.serves P.RecordProtection.size P.RecordProtection.sealing P.RecordProtection.opening) fresh.now (view P.RecordProtection.holds end.old) (said_no question number)) out.old }
{
    let fault = Fault {
        alert: alert_of_no(question, number),
        layer: Layer::Card,
    };
    raise(end, fault, fresh, out)
}

/// Takes a yes whose parts fit the question.
pub fn take_yes<P: RecordProtection>(
    end: &mut LineEnd<P>,
    question: Question,
    parts: AnswerParts<'_>,
    fresh: &[u8],
    out: &mut [u8],
) -> Report
    requires running { over end.old.state.stage ≡ false }
    requires fresh { length fresh.now ≡ 16 }
    requires room { 4096 ≤ length out.old }
    requires lengths { parts_fit question (seen_parts parts) ≡ true }
    ensures { done_by result (view P.RecordProtection.holds end.new) out.new ≡ done (kind_of P.RecordProtection.serves P.RecordProtection.size P.RecordProtection.sealing P.RecordProtection.opening) (perform tlcp (kind_of P.RecordProtection.serves P.RecordProtection.size P.RecordProtection.sealing P.RecordProtection.opening) fresh.now (view P.RecordProtection.holds end.old) (said_yes (view P.RecordProtection.holds end.old) question (seen_parts parts.entry))) out.old }
{
    match question {
        Question::ClientRandom => greet(end, parts.random, out),
        Question::ServerFlight => offer(end, parts, out),
        Question::CheckCertificates => trust(end, Stage::AwaitServerKeyExchange),
        Question::CheckSignature => trust(end, Stage::AwaitServerHelloDone),
        Question::WrapPremaster => exchange(end, parts.premaster, parts.wrapped, fresh, out),
        Question::UnwrapPremaster => unwrap(end, parts.premaster, fresh, out),
    }
}
