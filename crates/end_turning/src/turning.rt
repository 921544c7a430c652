//! The call turn.
ghost use Rattle.std.specs.Prelude.{◌≡◌, ℕ, ◌≤◌, true, false, List, length, take};
ghost use Rattle.handshake.specs.Frames.{next};
ghost use Rattle.model.specs.Stages.{over};
ghost use Rattle.model.specs.Deeds.{perform, client_opens, server_opens};
ghost use Rattle.model.specs.Turns.{turned};
ghost use Rattle.model.specs.Tlcp.{tlcp};
ghost use Rattle.end_state.specs.View.{buffer_view};
ghost use Rattle.end_writer.specs.Kind.{kind_of};
ghost use Rattle.end_state.specs.View.{view};
ghost use Rattle.end_reports.specs.Reports.{done, done_by};
ghost use Rattle.end_turning.specs.Turns.{front_deed};

use crate::judging::{Turn, TurnEffect, judge_first};
use end_receiving::report;
use end_reports::{Report, raise};
use end_state::{LineEnd, join_front};
use end_writer::{write_change, write_finished};
use model::Stage;
use octets::Role;
use protection::RecordProtection;

/// Turns the last message: the client opens.
fn open_client<P: RecordProtection>(end: &mut LineEnd<P>, size: usize) -> Report
    requires running { over end.old.state.stage ≡ false }
    requires fits { size ≤ end.old.state.buffer.len }
    ensures { (f out : List ℕ) → done_by result (view P.RecordProtection.holds end.new) out ≡ done (kind_of P.RecordProtection.serves P.RecordProtection.size P.RecordProtection.sealing P.RecordProtection.opening) (perform tlcp (kind_of P.RecordProtection.serves P.RecordProtection.size P.RecordProtection.sealing P.RecordProtection.opening) f (view P.RecordProtection.holds end.old) (client_opens (take size (buffer_view end.old.state.buffer)))) out }
{
    join_front(&mut end.state.transcript, &end.state.buffer, size);
    end.state.open();
    report(end)
}

/// Turns the last message: the server writes change and its own Finished, and opens.
fn open_server<P: RecordProtection>(
    end: &mut LineEnd<P>,
    size: usize,
    fresh: &[u8],
    out: &mut [u8],
) -> Report
    requires running { over end.old.state.stage ≡ false }
    requires fits { size ≤ end.old.state.buffer.len }
    requires fresh { length fresh.now ≡ 16 }
    requires room { 4096 ≤ length out.old }
    ensures { done_by result (view P.RecordProtection.holds end.new) out.new ≡ done (kind_of P.RecordProtection.serves P.RecordProtection.size P.RecordProtection.sealing P.RecordProtection.opening) (perform tlcp (kind_of P.RecordProtection.serves P.RecordProtection.size P.RecordProtection.sealing P.RecordProtection.opening) fresh.now (view P.RecordProtection.holds end.old) (server_opens (take size (buffer_view end.old.state.buffer)))) out.old }
{
    join_front(&mut end.state.transcript, &end.state.buffer, size);
    let verify_data = end.state.verify_data(Role::Server);
    let at = write_change(out, 0);
    let transcript = &mut end.state.transcript;
    let written = write_finished(&end.protection, &verify_data, transcript, fresh, out, at);
    end.state.open();
    end.state.protect_writes();
    Report {
        stage: Stage::Open,
        written,
        fault: None,
    }
}

/// Does what the first message of the buffer is judged to do.
fn do_turn<P: RecordProtection>(
    end: &mut LineEnd<P>,
    turn: Turn,
    fresh: &[u8],
    out: &mut [u8],
) -> Report
    requires running { over end.old.state.stage ≡ false }
    requires fits { turn.size ≤ end.old.state.buffer.len }
    requires fresh { length fresh.now ≡ 16 }
    requires room { 4096 ≤ length out.old }
    ensures { done_by result (view P.RecordProtection.holds end.new) out.new ≡ done (kind_of P.RecordProtection.serves P.RecordProtection.size P.RecordProtection.sealing P.RecordProtection.opening) (perform tlcp (kind_of P.RecordProtection.serves P.RecordProtection.size P.RecordProtection.sealing P.RecordProtection.opening) fresh.now (view P.RecordProtection.holds end.old) (front_deed (buffer_view end.old.state.buffer) turn)) out.old }
{
    let size = turn.size;
    match turn.effect {
        TurnEffect::Nothing => {}
        TurnEffect::TakeClientHello(hello) => {
            end.state.take_client_hello(hello.random, hello.suite, size);
        }
        TurnEffect::TakeServerHello(hello) => {
            end.state.take_server_hello(hello.random, hello.suite, size);
        }
        TurnEffect::TakeDone => end.state.take_message_to(Stage::AskWrapping, size),
        TurnEffect::KeepCertificates => end.state.go_on(Stage::AskCertificates),
        TurnEffect::KeepSignature => end.state.go_on(Stage::AskSignature),
        TurnEffect::KeepWrapped => end.state.go_on(Stage::AskUnwrapping),
        TurnEffect::ClientOpens => return open_client(end, size),
        TurnEffect::ServerOpens => return open_server(end, size, fresh, out),
    }
    report(end)
}

/// Turns the first message of the buffer, or raises the alert of its fault.
pub fn turn_first<P: RecordProtection>(end: &mut LineEnd<P>, fresh: &[u8], out: &mut [u8]) -> Report
    requires running { over end.old.state.stage ≡ false }
    requires fresh { length fresh.now ≡ 16 }
    requires room { 4096 ≤ length out.old }
    ensures { done_by result (view P.RecordProtection.holds end.new) out.new ≡ done (kind_of P.RecordProtection.serves P.RecordProtection.size P.RecordProtection.sealing P.RecordProtection.opening) (perform tlcp (kind_of P.RecordProtection.serves P.RecordProtection.size P.RecordProtection.sealing P.RecordProtection.opening) fresh.now (view P.RecordProtection.holds end.old) (turned tlcp (view P.RecordProtection.holds end.old) (next (buffer_view end.old.state.buffer)))) out.old }
{
    match judge_first(&end.state) {
        Ok(turn) => do_turn(end, turn, fresh, out),
        Err(fault) => raise(end, fault, fresh, out),
    }
}
