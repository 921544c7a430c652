//! How the steps of an end change its state.
ghost use Rattle.std.specs.Prelude.{◌≡◌, ℕ, ◌+◌, ◌<◌, ◌≤◌, true, false, List, [], ◌∷◌, length, take, drop, Option};
ghost use Rattle.protection.specs.Keys.{Keying};
ghost use Rattle.handshake.specs.Frames.{next, is_ready};
ghost use Rattle.model.specs.declared.stage.Stage.TheVariants.{AwaitCertificate, AskServerFlight};
ghost use Rattle.model.specs.Stages.{over, first_stage};
ghost use Rattle.model.specs.Endpoint.{new_end, gone, numbered, opened_end, with_buffer, with_hello, with_in, with_out, with_stage};
ghost use Rattle.model.specs.Deeds.{hearing};
ghost use Rattle.model.specs.Tlcp.{tlcp};
ghost use Rattle.key_schedule.specs.Schedule.{verify_data};
ghost use Rattle.sm3.specs.Hash.{absorb, finished};
ghost use Rattle.sm3.specs.View.{view as hash_view};
ghost use Rattle.end_state.specs.View.{state_view, buffer_view};

use crate::state::{HandshakeBuffer, KeyScratch, State, SuiteList};
use handshake_reader::is_message_ready;
use key_schedule::verify_data;
use model::Stage;
use octets::Role;
use sm3::Sm3;

/// The master secret of an end that has none.
const NO_MASTER: [u8; 48] = [0; 48];

/// The stage at which a role begins.
fn first_stage(role: Role) -> Stage
    ensures { result ≡ first_stage role }
{
    match role {
        Role::Client => Stage::AskClientRandom,
        Role::Server => Stage::AwaitClientHello,
    }
}

/// The first `size` octets of the buffer join the transcript.
pub fn join_front(transcript: &mut Sm3, buffer: &HandshakeBuffer, size: usize)
    requires { size ≤ buffer.now.len }
    ensures { hash_view transcript.new ≡ absorb (hash_view transcript.old) (take size (buffer_view buffer.now)) }
{
    transcript.update(buffer.front(size));
}

impl State {
    /// The state of a new end: all but role, stage and suites is zero or empty.
    pub fn new(role: Role, suites: &[u16]) -> State
        requires { (1 ≤ length suites.now) × (length suites.now ≤ 8) }
        ensures { (held : Option Keying) → state_view held result ≡ new_end tlcp role held suites.now }
    {
        State {
            role,
            stage: first_stage(role),
            suites: SuiteList::new(suites),
            client_random: [0; 32],
            server_random: [0; 32],
            suite: 0,
            master: NO_MASTER,
            transcript: Sm3::new(),
            keys: KeyScratch {
                premaster: [0; 48],
                material: [0; 96],
            },
            reads: 0,
            writes: 0,
            reads_protected: false,
            writes_protected: false,
            buffer: HandshakeBuffer {
                octets: [0; 20480],
                len: 0,
            },
        }
    }

    /// A message stands ready to be turned. While none does, a longest content still finds room in the buffer.
    pub fn is_message_ready(&self) -> bool
        ensures ready { result ≡ is_ready (next (buffer_view self.now.buffer)) }
        ensures short { result ≡ false → self.now.buffer.len ≤ 4095 }
    {
        is_message_ready(self.buffer.as_slice())
    }

    /// Goes to a stage from which no call leads on: nothing is buffered any more, and there is no master secret.
    pub fn leave(&mut self, stage: Stage)
        requires { over stage ≡ true }
        ensures { (held : Option Keying) → state_view held self.new ≡ gone stage (state_view held self.old) }
    {
        self.stage = stage;
        self.master = NO_MASTER;
        self.buffer.len = 0;
    }

    /// Leaves after one more record, which has a number if writing is protected.
    pub fn leave_after_record(&mut self, stage: Stage)
        requires over { over stage ≡ true }
        requires running { over self.old.stage ≡ false }
        ensures { (held : Option Keying) → state_view held self.new ≡ gone stage (numbered (state_view held self.old)) }
    {
        let protected = self.writes_protected;
        self.stage = stage;
        self.master = NO_MASTER;
        self.buffer.len = 0;
        if protected {
            self.writes += 1;
        }
    }

    /// One more record is written, which has a number if writing is protected.
    pub fn count_record(&mut self)
        requires { self.old.writes < 16777215 }
        ensures { (held : Option Keying) → state_view held self.new ≡ numbered (state_view held self.old) }
    {
        if self.writes_protected {
            self.writes += 1;
        }
    }

    /// Goes on to a stage with reading protected from number 0.
    pub fn protect_reads(&mut self, stage: Stage)
        requires onward { over stage ≡ false }
        requires running { over self.old.stage ≡ false }
        ensures { (held : Option Keying) → state_view held self.new ≡ with_in true 0 (with_stage stage (state_view held self.old)) }
    {
        self.stage = stage;
        self.reads = 0;
        self.reads_protected = true;
    }

    /// Opens: the last message has left the buffer, and there is no master secret.
    pub fn open(&mut self)
        requires { over self.old.stage ≡ false }
        ensures { (held : Option Keying) → state_view held self.new ≡ opened_end (state_view held self.old) }
    {
        self.stage = Stage::Open;
        self.master = NO_MASTER;
        self.buffer.len = 0;
    }

    /// The message at the front of the buffer, `size` octets long, joins the transcript and leaves the buffer.
    pub fn take_message(&mut self, size: usize)
        requires { size ≤ self.old.buffer.len }
        ensures { (held : Option Keying) → state_view held self.new ≡ with_buffer (drop size (buffer_view self.old.buffer)) (hearing tlcp (take size (buffer_view self.old.buffer) ∷ []) (state_view held self.old)) }
    {
        join_front(&mut self.transcript, &self.buffer, size);
        self.buffer.remove_front(size);
    }

    /// Goes on to a stage.
    pub fn go_on(&mut self, to: Stage)
        requires onward { over to ≡ false }
        requires running { over self.old.stage ≡ false }
        ensures { (held : Option Keying) → state_view held self.new ≡ with_stage to (state_view held self.old) }
    {
        self.stage = to;
    }

    /// Writing is protected, with the record of number 0 written.
    pub fn protect_writes(&mut self)
        ensures { (held : Option Keying) → state_view held self.new ≡ with_out true 1 (state_view held self.old) }
    {
        self.writes = 1;
        self.writes_protected = true;
    }

    /// Goes on to a stage with the message at the front of the buffer taken, `size` octets long.
    pub fn take_message_to(&mut self, stage: Stage, size: usize)
        requires onward { over stage ≡ false }
        requires running { over self.old.stage ≡ false }
        requires fits { size ≤ self.old.buffer.len }
        ensures { (held : Option Keying) → state_view held self.new ≡ with_buffer (drop size (buffer_view self.old.buffer)) (hearing tlcp (take size (buffer_view self.old.buffer) ∷ []) (with_stage stage (state_view held self.old))) }
    {
        self.stage = stage;
        self.take_message(size);
    }

    /// Takes the client's hello at the front of the buffer, with its random and the suite chosen.
    pub fn take_client_hello(&mut self, random: [u8; 32], suite: u16, size: usize)
        requires running { over self.old.stage ≡ false }
        requires fits { size ≤ self.old.buffer.len }
        ensures { (held : Option Keying) → state_view held self.new ≡ with_buffer (drop size (buffer_view self.old.buffer)) (hearing tlcp (take size (buffer_view self.old.buffer) ∷ []) (with_stage AskServerFlight (with_hello random self.old.server_random suite (state_view held self.old)))) }
    {
        self.client_random = random;
        self.suite = suite;
        self.take_message_to(Stage::AskServerFlight, size);
    }

    /// Takes the server's hello at the front of the buffer, with its random and its suite.
    pub fn take_server_hello(&mut self, random: [u8; 32], suite: u16, size: usize)
        requires running { over self.old.stage ≡ false }
        requires fits { size ≤ self.old.buffer.len }
        ensures { (held : Option Keying) → state_view held self.new ≡ with_buffer (drop size (buffer_view self.old.buffer)) (hearing tlcp (take size (buffer_view self.old.buffer) ∷ []) (with_stage AwaitCertificate (with_hello self.old.client_random random suite (state_view held self.old)))) }
    {
        self.server_random = random;
        self.suite = suite;
        self.take_message_to(Stage::AwaitCertificate, size);
    }

    /// The check value of a sender over the messages so far.
    pub fn verify_data(&self, sender: Role) -> [u8; 12]
        ensures { result ≡ verify_data self.now.master sender (finished (hash_view self.now.transcript)) }
    {
        verify_data(&self.master, sender, &self.transcript.digest())
    }
}
