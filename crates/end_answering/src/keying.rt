//! The premaster: the client's exchange of it, and the server's unwrapping.
ghost use Rattle.std.specs.Prelude.{◌≡◌, ℕ, ◌≤◌, true, false, List, [], ◌∷◌, length, if◌then◌else◌};
ghost use Rattle.handshake.specs.Frames.{next};
ghost use Rattle.handshake.specs.Parts.{versioned};
ghost use Rattle.records.specs.declared.fault.Layer.TheVariants.{Card as AtCard};
ghost use Rattle.model.specs.Stages.{over};
ghost use Rattle.model.specs.Answers.{about};
ghost use Rattle.model.specs.Deeds.{perform, raises, exchanges, unwraps};
ghost use Rattle.model.specs.Tlcp.{tlcp};
ghost use Rattle.end_state.specs.View.{buffer_view};
ghost use Rattle.end_writer.specs.Kind.{kind_of};
ghost use Rattle.end_state.specs.View.{view};
ghost use Rattle.end_reports.specs.Reports.{done, done_by};

use end_reports::{Report, raise};
use end_rules::is_versioned;
use end_state::LineEnd;
use end_writer::{write_change, write_client_key_exchange, write_finished};
use model::Stage;
use octets::Role;
use protection::RecordProtection;
use records::{Alert, Fault, Layer};

/// A yes to the fifth question: keys are made, and the client writes ClientKeyExchange, change and Finished.
pub fn exchange<P: RecordProtection>(
    end: &mut LineEnd<P>,
    premaster: &[u8],
    wrapped: &[u8],
    fresh: &[u8],
    out: &mut [u8],
) -> Report
    requires premaster { length premaster.now ≡ 48 }
    requires least { 1 ≤ length wrapped.now }
    requires most { length wrapped.now ≤ 512 }
    requires fresh { length fresh.now ≡ 16 }
    requires room { 4096 ≤ length out.old }
    ensures { done_by result (view P.RecordProtection.holds end.new) out.new ≡ done (kind_of P.RecordProtection.serves P.RecordProtection.size P.RecordProtection.sealing P.RecordProtection.opening) (perform tlcp (kind_of P.RecordProtection.serves P.RecordProtection.size P.RecordProtection.sealing P.RecordProtection.opening) fresh.now (view P.RecordProtection.holds end.old) (exchanges premaster.now wrapped.now)) out.old }
{
    end.state.key(premaster, &mut end.protection);
    let at = write_client_key_exchange(wrapped, &mut end.state.transcript, out, 0);
    let at = write_change(out, at);
    let verify_data = end.state.verify_data(Role::Client);
    let written = write_finished(
        &end.protection,
        &verify_data,
        &mut end.state.transcript,
        fresh,
        out,
        at,
    );
    end.state.begin_sealing(Stage::ClientAwaitChange);
    Report {
        stage: end.state.stage,
        written,
        fault: None,
    }
}

/// Takes a premaster that begins with the version: keys are made, and the message that wraps it leaves the buffer.
pub fn take_premaster<P: RecordProtection>(end: &mut LineEnd<P>, premaster: &[u8]) -> Report
    requires running { over end.old.state.stage ≡ false }
    requires premaster { length premaster.now ≡ 48 }
    ensures { (fresh out : List ℕ) → done_by result (view P.RecordProtection.holds end.new) out ≡ done (kind_of P.RecordProtection.serves P.RecordProtection.size P.RecordProtection.sealing P.RecordProtection.opening) (perform tlcp (kind_of P.RecordProtection.serves P.RecordProtection.size P.RecordProtection.sealing P.RecordProtection.opening) fresh (view P.RecordProtection.holds end.old) (about (unwraps premaster.now) (next (buffer_view end.old.state.buffer)))) out }
{
    if end.state.pass_front(Stage::ServerAwaitChange) {
        end.state.key(premaster, &mut end.protection);
    }
    Report {
        stage: end.state.stage,
        written: 0,
        fault: None,
    }
}

/// A yes to the sixth question: the premaster is taken if it begins with the version, else an alert is raised.
pub fn unwrap<P: RecordProtection>(
    end: &mut LineEnd<P>,
    premaster: &[u8],
    fresh: &[u8],
    out: &mut [u8],
) -> Report
    requires running { over end.old.state.stage ≡ false }
    requires premaster { length premaster.now ≡ 48 }
    requires fresh { length fresh.now ≡ 16 }
    requires room { 4096 ≤ length out.old }
    ensures { done_by result (view P.RecordProtection.holds end.new) out.new ≡ done (kind_of P.RecordProtection.serves P.RecordProtection.size P.RecordProtection.sealing P.RecordProtection.opening) (perform tlcp (kind_of P.RecordProtection.serves P.RecordProtection.size P.RecordProtection.sealing P.RecordProtection.opening) fresh.now (view P.RecordProtection.holds end.old) (if versioned premaster.now then about (unwraps premaster.now) (next (buffer_view end.old.state.buffer)) else raises AtCard 40)) out.old }
{
    if is_versioned(premaster) {
        take_premaster(end, premaster)
    } else {
        let fault = Fault {
            alert: Alert::HandshakeFailure,
            layer: Layer::Card,
        };
        raise(end, fault, fresh, out)
    }
}
