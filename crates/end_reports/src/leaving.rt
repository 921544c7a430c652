//! How an end leaves the line: closed or dead.
ghost use Rattle.std.specs.Prelude.{◌≡◌, ℕ, ◌+◌, ◌≤◌, true, false, List, [], ◌∷◌, length};
ghost use Rattle.octets.specs.Laid.{laid};
ghost use Rattle.records.specs.Faults.{alert_number};
ghost use Rattle.model.specs.Stages.{over};
ghost use Rattle.model.specs.Endpoint.{numbered, gone};
ghost use Rattle.model.specs.Outcomes.{put, flat};
ghost use Rattle.model.specs.Deeds.{perform, raises, closes, halts};
ghost use Rattle.model.specs.Tlcp.{tlcp};
ghost use Rattle.end_writer.specs.Kind.{kind_of};
ghost use Rattle.end_state.specs.View.{view};
ghost use Rattle.end_reports.specs.Reports.{done, done_by};

use crate::Report;
use end_state::LineEnd;
use end_writer::write_one;
use model::Stage;
use protection::RecordProtection;
use records::{AlertMessage, ContentKind, Fault};

/// Writes an alert first in the output and leaves for `stage`; says how many octets were written.
fn leave_with_alert<P: RecordProtection>(
    end: &mut LineEnd<P>,
    stage: Stage,
    alert: [u8; 2],
    fresh: &[u8],
    out: &mut [u8],
) -> usize
    requires over { over stage ≡ true }
    requires running { over end.old.state.stage ≡ false }
    requires fresh { length fresh.now ≡ 16 }
    requires room { 4096 ≤ length out.old }
    ensures written { result ≡ length (flat (kind_of P.RecordProtection.serves P.RecordProtection.size P.RecordProtection.sealing P.RecordProtection.opening) (P.RecordProtection.holds end.old.protection) (put fresh.now (view P.RecordProtection.holds end.old) 21 alert ∷ [])) }
    ensures after { out.new ≡ laid out.old 0 (flat (kind_of P.RecordProtection.serves P.RecordProtection.size P.RecordProtection.sealing P.RecordProtection.opening) (P.RecordProtection.holds end.old.protection) (put fresh.now (view P.RecordProtection.holds end.old) 21 alert ∷ [])) }
    ensures end { view P.RecordProtection.holds end.new ≡ gone stage (numbered (view P.RecordProtection.holds end.old)) }
{
    let protected = end.state.writes_protected;
    let number = end.state.writes;
    let kind = ContentKind::Alert.octet();
    let written = write_one(
        &end.protection,
        protected,
        number,
        kind,
        &alert,
        fresh,
        out,
        0,
    );
    end.state.leave_after_record(stage);
    written
}

/// Raises the alert of a fault: writes it at level 2, and dies.
pub fn raise<P: RecordProtection>(
    end: &mut LineEnd<P>,
    fault: Fault,
    fresh: &[u8],
    out: &mut [u8],
) -> Report
    requires running { over end.old.state.stage ≡ false }
    requires fresh { length fresh.now ≡ 16 }
    requires room { 4096 ≤ length out.old }
    ensures { done_by result (view P.RecordProtection.holds end.new) out.new ≡ done (kind_of P.RecordProtection.serves P.RecordProtection.size P.RecordProtection.sealing P.RecordProtection.opening) (perform tlcp (kind_of P.RecordProtection.serves P.RecordProtection.size P.RecordProtection.sealing P.RecordProtection.opening) fresh.now (view P.RecordProtection.holds end.old) (raises fault.layer (alert_number fault.alert))) out.old }
{
    let alert = AlertMessage::fatal(fault.alert).to_octets();
    let written = leave_with_alert(end, Stage::Dead, alert, fresh, out);
    Report {
        stage: Stage::Dead,
        written,
        fault: Some(fault),
    }
}

/// Writes close_notify and closes.
pub fn say_goodbye<P: RecordProtection>(
    end: &mut LineEnd<P>,
    fresh: &[u8],
    out: &mut [u8],
) -> Report
    requires running { over end.old.state.stage ≡ false }
    requires fresh { length fresh.now ≡ 16 }
    requires room { 4096 ≤ length out.old }
    ensures { done_by result (view P.RecordProtection.holds end.new) out.new ≡ done (kind_of P.RecordProtection.serves P.RecordProtection.size P.RecordProtection.sealing P.RecordProtection.opening) (perform tlcp (kind_of P.RecordProtection.serves P.RecordProtection.size P.RecordProtection.sealing P.RecordProtection.opening) fresh.now (view P.RecordProtection.holds end.old) closes) out.old }
{
    let alert = AlertMessage::close_notify().to_octets();
    let written = leave_with_alert(end, Stage::Closed, alert, fresh, out);
    Report {
        stage: Stage::Closed,
        written,
        fault: None,
    }
}
