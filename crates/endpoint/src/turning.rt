//! The call turn.
ghost use Rattle.std.specs.Prelude.{◌≡◌};
ghost use Rattle.model.specs.Results.{turn_yields};
ghost use Rattle.model.specs.Tlcp.{tlcp};
ghost use Rattle.end_writer.specs.Kind.{kind_of};
ghost use Rattle.end_reports.specs.Reports.{seen_by, Kept};
ghost use Rattle.endpoint.specs.View.{view};

use crate::end::Endpoint;
use end_reports::Report;
use end_rules::turn_refusal;
use end_turning::turn_first;
use model::Refusal;
use protection::RecordProtection;

impl<P: RecordProtection> Endpoint<P> {
    /// Turns the first message of the buffer.
    pub fn turn(&mut self, fresh: &[u8], out: &mut [u8]) -> Result<Report, Refusal>
        ensures yields { seen_by result (view P.RecordProtection.holds self.new) out.new ≡ turn_yields tlcp (kind_of P.RecordProtection.serves P.RecordProtection.size P.RecordProtection.sealing P.RecordProtection.opening) (view P.RecordProtection.holds self.old) fresh.now out.old }
        ensures kept { Kept result self.old self.new }
    {
        let ready = self.end.state.is_message_ready();
        match turn_refusal(self.end.state.stage, ready, fresh.len(), out.len()) {
            Some(refusal) => Err(refusal),
            None => Ok(turn_first(&mut self.end, fresh, out)),
        }
    }
}
