//! The end of a side's handshake: the change record, and the Finished that is sealed first.
ghost use Rattle.std.specs.Prelude.{◌≡◌, ℕ, ◌+◌, ◌≤◌, true, [], ◌∷◌, length};
ghost use Rattle.octets.specs.Laid.{laid};
ghost use Rattle.records.specs.Kinds.{change_kind, handshake_kind};
ghost use Rattle.records.specs.Records.{framed};
ghost use Rattle.sm3.specs.Hash.{absorb};
ghost use Rattle.sm3.specs.View.{view};
ghost use Rattle.model.specs.Messages.{finished};
ghost use Rattle.end_writer.specs.Kind.{kind_of};
ghost use Rattle.end_writer.specs.Written.{record_octets};

use crate::handshakes::HANDSHAKE;
use crate::writing::{write_bare, write_sealed};
use handshake::Finished;
use handshake_writer::write_message;
use protection::RecordProtection;
use sm3::Sm3;

/// The kind of a change record.
const CHANGE: u8 = 20;

/// The content of a change record.
const CHANGED: [u8; 1] = [1];

/// The number of the first record that is sealed.
const FIRST: u64 = 0;

/// Writes the change record at `at`, and says where it ends.
pub fn write_change(out: &mut [u8], at: usize) -> usize
    requires { at + 6 ≤ length out.old }
    ensures end { result ≡ at + length (framed change_kind (1 ∷ [])) }
    ensures after { out.new ≡ laid out.old at (framed change_kind (1 ∷ [])) }
{
    write_bare(CHANGE, &CHANGED, out, at)
}

/// The Finished that carries a check value.
pub fn finished_message(verify_data: &[u8; 12]) -> [u8; 16]
    ensures { result ≡ finished verify_data.now }
{
    let mut message = [0; 16];
    write_message(&Finished { verify_data }, &mut message, 0);
    message
}

/// Writes the Finished at `at`, sealed as the first record, lets it join the running hash, and says where it ends.
pub fn write_finished<P: RecordProtection>(
    protection: &P,
    verify_data: &[u8; 12],
    transcript: &mut Sm3,
    fresh: &[u8],
    out: &mut [u8],
    at: usize,
) -> usize
    requires fresh { length fresh.now ≡ 16 }
    requires room { at + 2069 ≤ length out.old }
    ensures end { result ≡ at + length (record_octets (kind_of P.RecordProtection.serves P.RecordProtection.size P.RecordProtection.sealing P.RecordProtection.opening) (P.RecordProtection.holds protection.now) true 0 handshake_kind (finished verify_data.now) fresh.now) }
    ensures after { out.new ≡ laid out.old at (record_octets (kind_of P.RecordProtection.serves P.RecordProtection.size P.RecordProtection.sealing P.RecordProtection.opening) (P.RecordProtection.holds protection.now) true 0 handshake_kind (finished verify_data.now) fresh.now) }
    ensures joined { view transcript.new ≡ absorb (view transcript.old) (finished verify_data.now) }
{
    let message = finished_message(verify_data);
    transcript.update(&message);
    write_sealed(protection, FIRST, HANDSHAKE, &message, fresh, out, at)
}
