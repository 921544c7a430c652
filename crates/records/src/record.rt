ghost use Rattle.std.specs.Prelude.{◌≡◌, ◌+◌, ◌*◌, ◌&&◌, length, ◌==◌};
ghost use Rattle.records.specs.Records.{received, bounded, limit_of, framed, record_end, with_record, with_header};
ghost use Rattle.records.specs.Seen.{seen, FoundBy};

use crate::fault::{Alert, Fault, Layer};
use octets::{lay, two_octets};

/// The longest content of a record that is not protected.
pub const CONTENT_LIMIT: usize = 16_384;
/// The longest content of a protected record.
pub const PROTECTED_LIMIT: usize = 18_432;
/// The octets before a record's content.
pub const HEADER_SIZE: usize = 5;
/// The longest content that a two-octet length can tell.
const LENGTH_LIMIT: usize = 65_535;
/// The first octet of the version.
const MAJOR: u8 = 1;
/// The second octet of the version.
const MINOR: u8 = 1;

/// A record: its kind, which may be any octet, and its content.
#[derive(Clone, Copy)]
pub struct Record<'a> {
    pub kind: u8,
    pub content: &'a [u8],
}

impl Record<'_> {
    /// How many octets the record has on the wire, its header included.
    pub fn size(self) -> usize
        ensures { result ≡ length (framed self.entry.kind self.entry.content.now) }
    {
        HEADER_SIZE + self.content.len()
    }
}

/// The first record of what was received.
#[derive(Clone, Copy)]
pub enum Incoming<'a> {
    /// It is not whole yet.
    More,
    /// It is whole.
    Whole(Record<'a>),
}

/// The longest content that may be read.
pub fn record_limit(protected: bool) -> usize
    ensures { result ≡ limit_of protected }
{
    if protected {
        PROTECTED_LIMIT
    } else {
        CONTENT_LIMIT
    }
}

/// The first record of `octets`, whose content may have up to `limit` octets.
pub fn read_record(octets: &[u8], limit: usize) -> Result<Incoming<'_>, Fault>
    ensures says { seen result ≡ received limit octets.now }
    ensures layer { FoundBy Layer.Record result }
{
    let [kind, major, minor, high, low, rest @ ..] = octets else {
        return Ok(Incoming::More);
    };
    if !is_version(*major, *minor) {
        return Err(Fault {
            alert: Alert::ProtocolVersion,
            layer: Layer::Record,
        });
    }
    take_content(*kind, content_length(*high, *low), rest, limit)
}

/// Whether the two octets are the version.
fn is_version(major: u8, minor: u8) -> bool
    ensures { result ≡ (major == 1) && (minor == 1) }
{
    major == MAJOR && minor == MINOR
}

/// The length that two octets tell.
fn content_length(high: u8, low: u8) -> usize
    ensures { result ≡ high * 256 + low }
{
    high as usize * 256 + low as usize
}

/// The record of a sound header: a content of `n` octets, first in `rest`.
fn take_content(kind: u8, n: usize, rest: &[u8], limit: usize) -> Result<Incoming<'_>, Fault>
    ensures says { seen result ≡ bounded limit kind n rest.now }
    ensures layer { FoundBy Layer.Record result }
{
    if n > limit {
        return Err(Fault {
            alert: Alert::RecordOverflow,
            layer: Layer::Record,
        });
    }
    if n > rest.len() {
        return Ok(Incoming::More);
    }
    Ok(Incoming::Whole(Record {
        kind,
        content: &rest[..n],
    }))
}

/// Where a record with `size` octets of content ends that begins at `at`, if its length can be told and there is room.
fn record_end(out: &[u8], at: usize, size: usize) -> Option<usize>
    ensures { result ≡ record_end out.now at size }
{
    if size > LENGTH_LIMIT || out.len().saturating_sub(at) < HEADER_SIZE + size {
        return None;
    }
    Some(at + HEADER_SIZE + size)
}

/// Writes at `at` the header of a record whose content of `size` octets stands behind it, and says where the record ends.
/// Where the length cannot be told or there is no room for the record, nothing is written.
pub fn write_header(kind: u8, size: usize, out: &mut [u8], at: usize) -> Option<usize>
    ensures end { result ≡ record_end out.old at size }
    ensures after { out.new ≡ with_header out.old at kind size }
{
    let end = record_end(out, at, size)?;
    let [high, low] = two_octets(size as u16);
    lay(out, at, &[kind, MAJOR, MINOR, high, low]);
    Some(end)
}

/// Writes a record at `at`, and says where it ends.
/// Where the content's length cannot be told or there is no room for the record, nothing is written.
pub fn write_record(kind: u8, content: &[u8], out: &mut [u8], at: usize) -> Option<usize>
    ensures end { result ≡ record_end out.old at (length content.now) }
    ensures after { out.new ≡ with_record out.old at kind content.now }
{
    let end = write_header(kind, content.len(), out, at)?;
    lay(out, at + HEADER_SIZE, content);
    Some(end)
}
