ghost use Rattle.std.specs.Prelude.{◌≡◌, ℕ, cond, List, length, if◌then◌else◌, nat_le};
ghost use Rattle.records.specs.declared.fault.Layer.TheVariants.{Record as AtRecord, Content as AtContent};
ghost use Rattle.records.specs.Alerts.{content_fault};
ghost use Rattle.protection.specs.Limits.{content_limit};
ghost use Rattle.handshake.specs.Parts.{is_none};
ghost use Rattle.model.specs.Stages.{is_open};
ghost use Rattle.model.specs.Deeds.{Deed, raises, buffers, releases};
ghost use Rattle.model.specs.Contents.{is_one, on_change, on_alert, on_kind_at, on_content_at};
ghost use Rattle.end_rules.specs.Effects.{deed_of, content_deed};

use model::Stage;
use protection::CONTENT_LIMIT;
use records::{Alert, AlertEffect, ContentKind, Fault, Layer, receive_alert};

/// What the content of a record does to the end that receives it.
#[derive(Clone, Copy)]
pub enum ContentEffect {
    /// Nothing.
    PassBy,
    /// The end closes and writes its own close_notify.
    Close,
    /// The end dies and writes nothing.
    Die,
    /// From here on the client reads protected records.
    ClientChange,
    /// From here on the server reads protected records.
    ServerChange,
    /// The content joins the handshake octets that are not yet turned.
    Buffer,
    /// The content is application data.
    Release,
}

/// What the content of a record of a kind does, at a stage and with nothing buffered or something.
pub fn judge_content(
    stage: Stage,
    nothing_buffered: bool,
    kind: u8,
    content: &[u8],
) -> Result<ContentEffect, Fault>
    ensures { content_deed result content.now ≡ on_content_at stage nothing_buffered kind content.now }
{
    check_length(content)?;
    judge_kind(stage, nothing_buffered, kind, content)
}

/// What a content of sound length does, by its kind. A kind of no meaning passes by.
fn judge_kind(
    stage: Stage,
    nothing_buffered: bool,
    kind: u8,
    content: &[u8],
) -> Result<ContentEffect, Fault>
    ensures { content_deed result content.now ≡ on_kind_at stage nothing_buffered kind content.now }
{
    let Some(known) = ContentKind::from_octet(kind) else {
        return Ok(ContentEffect::PassBy);
    };
    match known {
        ContentKind::ChangeCipherSpec => judge_change(stage, nothing_buffered, content),
        ContentKind::Alert => judge_alert_record(content),
        ContentKind::Handshake => judge_handshake(stage),
        ContentKind::ApplicationData => judge_data(stage),
    }
}

/// A content has 1 to 16,384 octets.
fn check_length(content: &[u8]) -> Result<(), Fault>
    ensures { (d : Deed) → deed_of (λ _. d) result ≡ (if is_none content.now then raises AtRecord 50 else (if nat_le (length content.now) content_limit then d else raises AtRecord 22)) }
{
    let alert = if content.is_empty() {
        Alert::DecodeError
    } else if content.len() > CONTENT_LIMIT {
        Alert::RecordOverflow
    } else {
        return Ok(());
    };
    Err(Fault {
        alert,
        layer: Layer::Record,
    })
}

/// A change is the octet 01, comes with nothing buffered, and only where it is awaited.
fn judge_change(
    stage: Stage,
    nothing_buffered: bool,
    content: &[u8],
) -> Result<ContentEffect, Fault>
    ensures { content_deed result content.now ≡ (if is_one content.now then cond nothing_buffered (on_change stage) (raises AtContent 10) else raises AtContent 50) }
{
    let [1] = content else {
        return Err(fault(Alert::DecodeError));
    };
    if !nothing_buffered {
        return Err(fault(Alert::UnexpectedMessage));
    }
    match stage {
        Stage::ClientAwaitChange => Ok(ContentEffect::ClientChange),
        Stage::ServerAwaitChange => Ok(ContentEffect::ServerChange),
        Stage::AskClientRandom
        | Stage::AwaitServerHello
        | Stage::AwaitCertificate
        | Stage::AskCertificates
        | Stage::AwaitServerKeyExchange
        | Stage::AskSignature
        | Stage::AwaitServerHelloDone
        | Stage::AskWrapping
        | Stage::ClientAwaitFinished
        | Stage::AwaitClientHello
        | Stage::AskServerFlight
        | Stage::AwaitClientKeyExchange
        | Stage::AskUnwrapping
        | Stage::ServerAwaitFinished
        | Stage::Open
        | Stage::Closed
        | Stage::Dead => Err(fault(Alert::UnexpectedMessage)),
    }
}

/// An alert passes by, closes or kills.
fn judge_alert_record(content: &[u8]) -> Result<ContentEffect, Fault>
    ensures { content_deed result content.now ≡ on_alert content.now }
{
    match receive_alert(content)? {
        AlertEffect::PassBy => Ok(ContentEffect::PassBy),
        AlertEffect::Close => Ok(ContentEffect::Close),
        AlertEffect::Die => Ok(ContentEffect::Die),
    }
}

/// Handshake octets are buffered until the line is open.
fn judge_handshake(stage: Stage) -> Result<ContentEffect, Fault>
    ensures { (x : List ℕ) → content_deed result x ≡ (if is_open stage then raises AtContent 10 else buffers x) }
{
    if stage.is_open() {
        Err(fault(Alert::UnexpectedMessage))
    } else {
        Ok(ContentEffect::Buffer)
    }
}

/// Application data come only on an open line.
fn judge_data(stage: Stage) -> Result<ContentEffect, Fault>
    ensures { (x : List ℕ) → content_deed result x ≡ (if is_open stage then releases x else raises AtContent 10) }
{
    if stage.is_open() {
        Ok(ContentEffect::Release)
    } else {
        Err(fault(Alert::UnexpectedMessage))
    }
}

/// A fault that the content of a record shows.
fn fault(alert: Alert) -> Fault
    ensures { result ≡ content_fault alert }
{
    Fault {
        alert,
        layer: Layer::Content,
    }
}
