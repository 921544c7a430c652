//! How an end goes on to its next stage: past a message, with keys, with sealed records.
ghost use Rattle.std.specs.Prelude.{◌≡◌, true, false, length, Option};
ghost use Rattle.protection.specs.Keys.{Keying};
ghost use Rattle.handshake.specs.Frames.{next};
ghost use Rattle.model.specs.Stages.{over};
ghost use Rattle.model.specs.Endpoint.{with_stage, with_out};
ghost use Rattle.end_state.specs.Fronts.{is_whole, passed_front};
ghost use Rattle.end_state.specs.Keys.{keyed_end};
ghost use Rattle.end_state.specs.View.{state_view, buffer_view};

use crate::keys::make_keys;
use crate::state::State;
use handshake::HEADER_LENGTH;
use handshake_reader::{FirstMessage, first_message};
use model::Stage;
use protection::RecordProtection;

/// The number of the record after the first that is sealed.
const SECOND: u64 = 1;

impl State {
    /// The message at the front of the buffer joins the transcript and leaves the buffer, and the end goes on to `stage`.
    /// Says whether there was such a message; if not, nothing changes.
    pub fn pass_front(&mut self, stage: Stage) -> bool
        requires next { over stage ≡ false }
        requires running { over self.old.stage ≡ false }
        ensures whole { result ≡ is_whole (next (buffer_view self.old.buffer)) }
        ensures after { (held : Option Keying) → state_view held self.new ≡ passed_front stage (next (buffer_view self.old.buffer)) (state_view held self.old) }
    {
        match first_message(self.buffer.as_slice()) {
            FirstMessage::NotReady | FirstMessage::TooLong => false,
            FirstMessage::Ready { length, .. } => {
                self.stage = stage;
                self.take_message(HEADER_LENGTH + length);
                true
            }
        }
    }

    /// Makes keys from a premaster: there is a master secret, and the protection is keyed.
    pub fn key<P: RecordProtection>(&mut self, premaster: &[u8], protection: &mut P)
        requires { length premaster.now ≡ 48 }
        ensures { state_view (P.RecordProtection.holds protection.new) self.new ≡ keyed_end P.RecordProtection.serves P.RecordProtection.size premaster.now (state_view (P.RecordProtection.holds protection.old) self.old) }
    {
        make_keys(
            premaster,
            &self.client_random,
            &self.server_random,
            self.suite,
            self.role,
            &mut self.keys,
            &mut self.master,
            protection,
        );
    }

    /// One record has been sealed, the first: writing is protected from now on, and the end goes on to `stage`.
    pub fn begin_sealing(&mut self, stage: Stage)
        requires { over stage ≡ false }
        ensures { (held : Option Keying) → state_view held self.new ≡ with_out true 1 (with_stage stage (state_view held self.old)) }
    {
        self.writes = SECOND;
        self.writes_protected = true;
        self.stage = stage;
    }
}
