//! The call hand in: what the first record received does.
ghost use Rattle.std.specs.Prelude.{◌≡◌, ℕ, ◌+◌, ◌-◌, ◌≤◌, true, false, List, [], ◌∷◌, ◌++◌, length, take, Ok};
ghost use Rattle.model.specs.Stages.{over};
ghost use Rattle.records.specs.Records.{received, whole, limit_of};
ghost use Rattle.model.specs.Results.{zeros, seen};
ghost use Rattle.model.specs.Tlcp.{tlcp};
ghost use Rattle.model.specs.Deeds.{perform};
ghost use Rattle.model.specs.Steps.{on_record, taken};
ghost use Rattle.records.specs.Kinds.{known_kind};
ghost use Rattle.end_rules.specs.Effects.{effect_deed};
ghost use Rattle.end_reports.specs.Reports.{done, done_by, quiet, handed, seen_by_hand_in};
ghost use Rattle.end_writer.specs.Kind.{kind_of};
ghost use Rattle.end_state.specs.View.{view};
ghost use Rattle.end_receiving.specs.Contents.{record_fault, content_at, after_content, content_length, content_placed, kept_by, Takes};

use crate::receipt::Receipt;
use end_reports::{HandInReport, Report, raise, say_goodbye};
use end_rules::{ContentEffect, READ_LIMIT, judge_content};
use end_state::LineEnd;
use model::Stage;
use octets::{lay, wipe};
use protection::RecordProtection;
use records::{Alert, ContentKind, Fault, HEADER_SIZE, Incoming, Layer, read_record, record_limit};

/// A fault that a record shows.
fn fault(alert: Alert) -> Fault
    ensures { result ≡ record_fault alert }
{
    Fault {
        alert,
        layer: Layer::Record,
    }
}

/// Whether the kind of a record is one that is looked at.
fn is_known(kind: u8) -> bool
    ensures { result ≡ known_kind kind }
{
    ContentKind::from_octet(kind).is_some()
}

/// The report of a hand in that consumed a record.
fn handed_in(report: Report, consumed: usize, released: usize) -> HandInReport
    ensures { result ≡ handed report consumed released }
{
    HandInReport {
        stage: report.stage,
        written: report.written,
        fault: report.fault,
        consumed,
        released,
        more: false,
    }
}

/// Leaves nothing but what is released in the opening place, whose first `n` octets are a content and the others
/// zeros, and says how long that is.
fn keep_released(effect: ContentEffect, n: usize, place: &mut [u8]) -> usize
    requires least { n ≤ length place.old }
    requires clean { place.old ≡ take n place.old ++ zeros (length place.old - n) }
    ensures kept { result ≡ length (kept_by effect (take n place.old)) }
    ensures place { place.new ≡ kept_by effect (take n place.old) ++ zeros (length place.old - length (kept_by effect (take n place.old))) }
{
    match effect {
        ContentEffect::Release => n,
        ContentEffect::PassBy
        | ContentEffect::Close
        | ContentEffect::Die
        | ContentEffect::ClientChange
        | ContentEffect::ServerChange
        | ContentEffect::Buffer => {
            wipe(place);
            0
        }
    }
}

/// Brings a record's content into the opening place, which holds zeros, and says how long it is.
/// Where reading is protected, the record is opened and counted.
fn unprotect<P: RecordProtection>(
    end: &mut LineEnd<P>,
    kind: u8,
    content: &[u8],
    place: &mut [u8],
) -> Result<usize, Fault>
    requires room { 18432 ≤ length place.old }
    requires clean { place.old ≡ zeros (length place.old) }
    requires fits { length content.now ≤ 18432 }
    requires running { over end.old.state.stage ≡ false }
    ensures answer { result ≡ content_length (content_at end.old.state.reads_protected (kind_of P.RecordProtection.serves P.RecordProtection.size P.RecordProtection.sealing P.RecordProtection.opening) (view P.RecordProtection.holds end.old) kind content.now) }
    ensures place { place.new ≡ content_placed (content_at end.old.state.reads_protected (kind_of P.RecordProtection.serves P.RecordProtection.size P.RecordProtection.sealing P.RecordProtection.opening) (view P.RecordProtection.holds end.old) kind content.now) (length place.old) }
    ensures end { view P.RecordProtection.holds end.new ≡ after_content end.old.state.reads_protected (content_at end.old.state.reads_protected (kind_of P.RecordProtection.serves P.RecordProtection.size P.RecordProtection.sealing P.RecordProtection.opening) (view P.RecordProtection.holds end.old) kind content.now) (view P.RecordProtection.holds end.old) }
    ensures buffer { end.new.state.buffer ≡ end.old.state.buffer }
{
    if !end.state.reads_protected {
        return Ok(lay(place, 0, content));
    }
    let number = end.state.reads;
    if number >= READ_LIMIT {
        return Err(fault(Alert::UnexpectedMessage));
    }
    match end.protection.open(number, kind, content, place) {
        Ok(n) => {
            end.state.reads = number + 1;
            Ok(n)
        }
        Err(_) => Err(fault(Alert::BadRecordMac)),
    }
}

/// A report of nothing written and no fault.
pub fn report<P: RecordProtection>(end: &LineEnd<P>) -> Report
    ensures { result ≡ quiet end.now.state.stage }
{
    Report {
        stage: end.state.stage,
        written: 0,
        fault: None,
    }
}

/// Does what a content is judged to do; what is released stays where it is.
fn apply<P: RecordProtection>(
    end: &mut LineEnd<P>,
    effect: ContentEffect,
    content: &[u8],
    fresh: &[u8],
    out: &mut [u8],
) -> Report
    requires running { over end.old.state.stage ≡ false }
    requires fresh { length fresh.now ≡ 16 }
    requires room { 4096 ≤ length out.old }
    requires fits { end.old.state.buffer.len + length content.now ≤ 20480 }
    ensures { done_by result (view P.RecordProtection.holds end.new) out.new ≡ done (kind_of P.RecordProtection.serves P.RecordProtection.size P.RecordProtection.sealing P.RecordProtection.opening) (perform tlcp (kind_of P.RecordProtection.serves P.RecordProtection.size P.RecordProtection.sealing P.RecordProtection.opening) fresh.now (view P.RecordProtection.holds end.old) (effect_deed content.now effect)) out.old }
{
    match effect {
        ContentEffect::PassBy => report(end),
        ContentEffect::Release => report(end),
        ContentEffect::Close => say_goodbye(end, fresh, out),
        ContentEffect::Die => {
            end.state.leave(Stage::Dead);
            report(end)
        }
        ContentEffect::ClientChange => {
            end.state.protect_reads(Stage::ClientAwaitFinished);
            report(end)
        }
        ContentEffect::ServerChange => {
            end.state.protect_reads(Stage::ServerAwaitFinished);
            report(end)
        }
        ContentEffect::Buffer => {
            end.state.buffer.append(content);
            report(end)
        }
    }
}

/// Takes a record of a known kind: opened if reading is protected, judged, and done.
fn receive<P: RecordProtection>(
    end: &mut LineEnd<P>,
    kind: u8,
    content: &[u8],
    fresh: &[u8],
    out: &mut [u8],
    place: &mut [u8],
) -> Result<Receipt, Fault>
    requires running { over end.old.state.stage ≡ false }
    requires short { end.old.state.buffer.len ≤ 4095 }
    requires fresh { length fresh.now ≡ 16 }
    requires room { 4096 ≤ length out.old }
    requires space { 18432 ≤ length place.old }
    requires clean { place.old ≡ zeros (length place.old) }
    requires fits { length content.now ≤ 18432 }
    ensures { Takes (kind_of P.RecordProtection.serves P.RecordProtection.size P.RecordProtection.sealing P.RecordProtection.opening) fresh.now (on_record tlcp (kind_of P.RecordProtection.serves P.RecordProtection.size P.RecordProtection.sealing P.RecordProtection.opening) fresh.now (view P.RecordProtection.holds end.old) end.old.state.reads_protected kind content.now) out.old (length place.old) result (view P.RecordProtection.holds end.new) out.new place.new }
{
    let n = unprotect(end, kind, content, place)?;
    let plain = &place[0..n];
    let effect = judge_content(end.state.stage, end.state.buffer.is_empty(), kind, plain)?;
    let report = apply(end, effect, plain, fresh, out);
    let released = keep_released(effect, n, place);
    Ok(Receipt { report, released })
}

/// Takes a whole record; one of an unknown kind is dropped.
fn take_whole<P: RecordProtection>(
    end: &mut LineEnd<P>,
    kind: u8,
    content: &[u8],
    fresh: &[u8],
    out: &mut [u8],
    place: &mut [u8],
) -> HandInReport
    requires running { over end.old.state.stage ≡ false }
    requires short { end.old.state.buffer.len ≤ 4095 }
    requires fresh { length fresh.now ≡ 16 }
    requires room { 4096 ≤ length out.old }
    requires space { 18432 ≤ length place.old }
    requires clean { place.old ≡ zeros (length place.old) }
    requires fits { length content.now ≤ 18432 }
    ensures { seen_by_hand_in (Ok result) (view P.RecordProtection.holds end.new) out.new place.new ≡ seen (kind_of P.RecordProtection.serves P.RecordProtection.size P.RecordProtection.sealing P.RecordProtection.opening) (taken tlcp (kind_of P.RecordProtection.serves P.RecordProtection.size P.RecordProtection.sealing P.RecordProtection.opening) fresh.now (view P.RecordProtection.holds end.old) (whole kind content.now)) out.old place.old }
{
    let consumed = content.len() + HEADER_SIZE;
    if !is_known(kind) {
        return handed_in(report(end), consumed, 0);
    }
    match receive(end, kind, content, fresh, out, place) {
        Ok(receipt) => handed_in(receipt.report, consumed, receipt.released),
        Err(fault) => {
            wipe(place);
            handed_in(raise(end, fault, fresh, out), consumed, 0)
        }
    }
}

/// Takes the first record of what was received.
pub fn take_first<P: RecordProtection>(
    end: &mut LineEnd<P>,
    octets: &[u8],
    fresh: &[u8],
    out: &mut [u8],
    place: &mut [u8],
) -> HandInReport
    requires running { over end.old.state.stage ≡ false }
    requires short { end.old.state.buffer.len ≤ 4095 }
    requires fresh { length fresh.now ≡ 16 }
    requires room { 4096 ≤ length out.old }
    requires space { 18432 ≤ length place.old }
    ensures { seen_by_hand_in (Ok result) (view P.RecordProtection.holds end.new) out.new place.new ≡ seen (kind_of P.RecordProtection.serves P.RecordProtection.size P.RecordProtection.sealing P.RecordProtection.opening) (taken tlcp (kind_of P.RecordProtection.serves P.RecordProtection.size P.RecordProtection.sealing P.RecordProtection.opening) fresh.now (view P.RecordProtection.holds end.old) (received (limit_of end.old.state.reads_protected) octets.now)) out.old place.old }
{
    wipe(place);
    let incoming = match read_record(octets, record_limit(end.state.reads_protected)) {
        Ok(incoming) => incoming,
        Err(fault) => return handed_in(raise(end, fault, fresh, out), 0, 0),
    };
    match incoming {
        Incoming::More => HandInReport {
            stage: end.state.stage,
            written: 0,
            fault: None,
            consumed: 0,
            released: 0,
            more: true,
        },
        Incoming::Whole(first) => { take_whole(end, first.kind, first.content, fresh, out, place) }
    }
}
