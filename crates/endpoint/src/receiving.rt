//! The call hand in.
ghost use Rattle.std.specs.Prelude.{◌≡◌};
ghost use Rattle.model.specs.Results.{hand_in_yields};
ghost use Rattle.model.specs.Tlcp.{tlcp};
ghost use Rattle.end_writer.specs.Kind.{kind_of};
ghost use Rattle.end_reports.specs.Reports.{seen_by_hand_in, Kept};
ghost use Rattle.endpoint.specs.View.{view};

use crate::end::Endpoint;
use end_receiving::take_first;
use end_reports::HandInReport;
use end_rules::hand_in_refusal;
use model::Refusal;
use protection::RecordProtection;

impl<P: RecordProtection> Endpoint<P> {
    /// Takes received octets, and does what their first record does.
    pub fn hand_in(
        &mut self,
        octets: &[u8],
        fresh: &[u8],
        out: &mut [u8],
        place: &mut [u8],
    ) -> Result<HandInReport, Refusal>
        ensures yields { seen_by_hand_in result (view P.RecordProtection.holds self.new) out.new place.new ≡ hand_in_yields tlcp (kind_of P.RecordProtection.serves P.RecordProtection.size P.RecordProtection.sealing P.RecordProtection.opening) (view P.RecordProtection.holds self.old) octets.now fresh.now out.old place.old }
        ensures kept { Kept result self.old self.new }
    {
        let ready = self.end.state.is_message_ready();
        match hand_in_refusal(
            self.end.state.stage,
            ready,
            fresh.len(),
            out.len(),
            place.len(),
        ) {
            Some(refusal) => Err(refusal),
            None => Ok(take_first(&mut self.end, octets, fresh, out, place)),
        }
    }
}
