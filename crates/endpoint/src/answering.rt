//! The call answer: what the key card says to an open question.
ghost use Rattle.std.specs.Prelude.{◌≡◌};
ghost use Rattle.model.specs.Results.{answer_yields};
ghost use Rattle.model.specs.Tlcp.{tlcp};
ghost use Rattle.end_rules.specs.Views.{seen_answer};
ghost use Rattle.end_writer.specs.Kind.{kind_of};
ghost use Rattle.end_reports.specs.Reports.{seen_by, Kept};
ghost use Rattle.endpoint.specs.View.{view};

use crate::end::Endpoint;
use end_answering::take_answer;
use end_reports::Report;
use end_rules::{Answer, answer_refusal, lengths_fit, takes_answer};
use model::{Question, Refusal};
use protection::RecordProtection;

impl<P: RecordProtection> Endpoint<P> {
    /// Answers the open question: yes with what it asks for, or no with a number.
    pub fn answer(
        &mut self,
        question: Question,
        answer: Answer<'_>,
        fresh: &[u8],
        out: &mut [u8],
    ) -> Result<Report, Refusal>
        ensures yields { seen_by result (view P.RecordProtection.holds self.new) out.new ≡ answer_yields tlcp (kind_of P.RecordProtection.serves P.RecordProtection.size P.RecordProtection.sealing P.RecordProtection.opening) (view P.RecordProtection.holds self.old) question (seen_answer answer.entry) fresh.now out.old }
        ensures kept { Kept result self.old self.new }
    {
        let fits = lengths_fit(question, answer);
        let taken = takes_answer(question, answer);
        let stage = self.end.state.stage;
        match answer_refusal(stage, question, fits, taken, fresh.len(), out.len()) {
            Some(refusal) => Err(refusal),
            None => Ok(take_answer(&mut self.end, question, answer, fresh, out)),
        }
    }
}
