ghost use Rattle.std.specs.Prelude.{◌≡◌, length};
ghost use Rattle.key_schedule.specs.Schedule.{master_secret, key_material, finished_label, verify_data};

use hmac_sm3::prf;
use octets::Role;

/// The label of the master secret.
const MASTER_SECRET: &[u8] = b"master secret";

/// The label of the key material.
const KEY_EXPANSION: &[u8] = b"key expansion";

/// The label of the client's verify data.
const CLIENT_FINISHED: &[u8] = b"client finished";

/// The label of the server's verify data.
const SERVER_FINISHED: &[u8] = b"server finished";

/// Writes the master secret, made from the premaster secret and both randoms, into `out`.
pub fn master_secret(
    premaster: &[u8; 48],
    client_random: &[u8; 32],
    server_random: &[u8; 32],
    out: &mut [u8; 48],
)
    ensures { out.new ≡ master_secret premaster.now client_random.now server_random.now }
{
    prf(
        premaster,
        MASTER_SECRET,
        &[client_random, server_random],
        out,
    );
}

/// Fills `out` with key material, made from the master secret and both randoms, the server's first.
pub fn key_material(
    master: &[u8; 48],
    client_random: &[u8; 32],
    server_random: &[u8; 32],
    out: &mut [u8],
)
    ensures { out.new ≡ key_material master.now client_random.now server_random.now (length out.old) }
{
    prf(master, KEY_EXPANSION, &[server_random, client_random], out);
}

/// The label of who sends a Finished.
fn label_of(sender: Role) -> &'static [u8]
    ensures { result.now ≡ finished_label sender }
{
    match sender {
        Role::Client => CLIENT_FINISHED,
        Role::Server => SERVER_FINISHED,
    }
}

/// What the Finished of `sender` carries, over the digest of the messages before it.
pub fn verify_data(master: &[u8; 48], sender: Role, transcript_digest: &[u8; 32]) -> [u8; 12]
    ensures { result ≡ verify_data master.now sender transcript_digest.now }
{
    let mut out = [0u8; 12];
    prf(master, label_of(sender), &[transcript_digest], &mut out);
    out
}
