//! Records that an end writes, laid one after another over its output.
ghost use Rattle.std.specs.Prelude.{◌≡◌, ℕ, ◌+◌, ◌≤◌, true, length};
ghost use Rattle.octets.specs.Laid.{laid};
ghost use Rattle.records.specs.Records.{framed};
ghost use Rattle.end_writer.specs.Kind.{kind_of};
ghost use Rattle.end_writer.specs.Written.{record_octets};

use protection::{GROWTH, RecordProtection};
use records::{HEADER_SIZE, write_header, write_record};

/// Writes a bare record at `at`, and says where it ends.
pub fn write_bare(kind: u8, content: &[u8], out: &mut [u8], at: usize) -> usize
    requires most { length content.now ≤ 65535 }
    requires room { at + (5 + length content.now) ≤ length out.old }
    ensures end { result ≡ at + length (framed kind content.now) }
    ensures after { out.new ≡ laid out.old at (framed kind content.now) }
{
    write_record(kind, content, out, at).unwrap_or(at)
}

/// Writes at `at` a record that is sealed at `number`, and says where it ends.
pub fn write_sealed<P: RecordProtection>(
    protection: &P,
    number: u64,
    kind: u8,
    content: &[u8],
    fresh: &[u8],
    out: &mut [u8],
    at: usize,
) -> usize
    requires least { 1 ≤ length content.now }
    requires most { length content.now ≤ 16384 }
    requires fresh { length fresh.now ≡ 16 }
    requires room { at + (length content.now + 2053) ≤ length out.old }
    ensures end { result ≡ at + length (record_octets (kind_of P.RecordProtection.serves P.RecordProtection.size P.RecordProtection.sealing P.RecordProtection.opening) (P.RecordProtection.holds protection.now) true number kind content.now fresh.now) }
    ensures after { out.new ≡ laid out.old at (record_octets (kind_of P.RecordProtection.serves P.RecordProtection.size P.RecordProtection.sealing P.RecordProtection.opening) (P.RecordProtection.holds protection.now) true number kind content.now fresh.now) }
{
    let from = at + HEADER_SIZE;
    let to = from + content.len() + GROWTH;
    let sealed = protection.seal(number, kind, content, fresh, &mut out[from..to]);
    let n = sealed.unwrap_or(0);
    write_header(kind, n, out, at).unwrap_or(at)
}

/// Writes one record at `at`, sealed at `number` if writing is protected, and says where it ends.
pub fn write_one<P: RecordProtection>(
    protection: &P,
    protected: bool,
    number: u64,
    kind: u8,
    content: &[u8],
    fresh: &[u8],
    out: &mut [u8],
    at: usize,
) -> usize
    requires least { 1 ≤ length content.now }
    requires most { length content.now ≤ 16384 }
    requires fresh { length fresh.now ≡ 16 }
    requires room { at + (length content.now + 2053) ≤ length out.old }
    ensures end { result ≡ at + length (record_octets (kind_of P.RecordProtection.serves P.RecordProtection.size P.RecordProtection.sealing P.RecordProtection.opening) (P.RecordProtection.holds protection.now) protected number kind content.now fresh.now) }
    ensures after { out.new ≡ laid out.old at (record_octets (kind_of P.RecordProtection.serves P.RecordProtection.size P.RecordProtection.sealing P.RecordProtection.opening) (P.RecordProtection.holds protection.now) protected number kind content.now fresh.now) }
{
    if protected {
        write_sealed(protection, number, kind, content, fresh, out, at)
    } else {
        write_bare(kind, content, out, at)
    }
}
