//! The call send: one reading, sealed.
ghost use Rattle.std.specs.Prelude.{◌≡◌, ℕ, ◌+◌, ◌<◌, ◌≤◌, length};
ghost use Rattle.model.specs.Deeds.{perform, sends};
ghost use Rattle.model.specs.Results.{send_yields};
ghost use Rattle.model.specs.Tlcp.{tlcp};
ghost use Rattle.end_writer.specs.Kind.{kind_of};
ghost use Rattle.end_state.specs.View.{view as end_view};
ghost use Rattle.endpoint.specs.View.{view};
ghost use Rattle.end_reports.specs.Reports.{done, done_by, seen_by, Kept};

use crate::end::Endpoint;
use end_reports::Report;
use end_rules::send_refusal;
use end_state::LineEnd;
use end_writer::write_one;
use model::Refusal;
use protection::RecordProtection;
use records::ContentKind;

/// Writes a reading as one record of application data.
fn write_reading<P: RecordProtection>(
    end: &mut LineEnd<P>,
    reading: &[u8],
    fresh: &[u8],
    out: &mut [u8],
) -> Report
    requires numbers { end.old.state.writes < 16777215 }
    requires least { 1 ≤ length reading.now }
    requires most { length reading.now ≤ 16384 }
    requires fresh { length fresh.now ≡ 16 }
    requires room { length reading.now + 2053 ≤ length out.old }
    ensures { done_by result (end_view P.RecordProtection.holds end.new) out.new ≡ done (kind_of P.RecordProtection.serves P.RecordProtection.size P.RecordProtection.sealing P.RecordProtection.opening) (perform tlcp (kind_of P.RecordProtection.serves P.RecordProtection.size P.RecordProtection.sealing P.RecordProtection.opening) fresh.now (end_view P.RecordProtection.holds end.old) (sends reading.now)) out.old }
{
    let protected = end.state.writes_protected;
    let number = end.state.writes;
    let kind = ContentKind::ApplicationData.octet();
    let written = write_one(
        &end.protection,
        protected,
        number,
        kind,
        reading,
        fresh,
        out,
        0,
    );
    end.state.count_record();
    Report {
        stage: end.state.stage,
        written,
        fault: None,
    }
}

impl<P: RecordProtection> Endpoint<P> {
    /// Seals one reading of 1 to 16,384 octets on an open line.
    pub fn send(&mut self, reading: &[u8], fresh: &[u8], out: &mut [u8]) -> Result<Report, Refusal>
        ensures yields { seen_by result (view P.RecordProtection.holds self.new) out.new ≡ send_yields tlcp (kind_of P.RecordProtection.serves P.RecordProtection.size P.RecordProtection.sealing P.RecordProtection.opening) (view P.RecordProtection.holds self.old) reading.now fresh.now out.old }
        ensures kept { Kept result self.old self.new }
    {
        let state = &self.end.state;
        match send_refusal(
            state.stage,
            state.writes,
            reading.len(),
            fresh.len(),
            out.len(),
        ) {
            Some(refusal) => Err(refusal),
            None => Ok(write_reading(&mut self.end, reading, fresh, out)),
        }
    }
}
