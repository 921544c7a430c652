//! The call close.
ghost use Rattle.std.specs.Prelude.{◌≡◌};
ghost use Rattle.model.specs.Results.{close_yields};
ghost use Rattle.model.specs.Tlcp.{tlcp};
ghost use Rattle.end_writer.specs.Kind.{kind_of};
ghost use Rattle.endpoint.specs.View.{view};
ghost use Rattle.end_reports.specs.Reports.{seen_by, Kept};

use crate::end::Endpoint;
use end_reports::{Report, say_goodbye};
use end_rules::close_refusal;
use model::Refusal;
use protection::RecordProtection;

impl<P: RecordProtection> Endpoint<P> {
    /// Closes the line: writes close_notify.
    pub fn close(&mut self, fresh: &[u8], out: &mut [u8]) -> Result<Report, Refusal>
        ensures yields { seen_by result (view P.RecordProtection.holds self.new) out.new ≡ close_yields tlcp (kind_of P.RecordProtection.serves P.RecordProtection.size P.RecordProtection.sealing P.RecordProtection.opening) (view P.RecordProtection.holds self.old) fresh.now out.old }
        ensures kept { Kept result self.old self.new }
    {
        match close_refusal(self.end.state.stage, fresh.len(), out.len()) {
            Some(refusal) => Err(refusal),
            None => Ok(say_goodbye(&mut self.end, fresh, out)),
        }
    }
}
