//! The parts of an end.
ghost use Rattle.std.specs.Prelude.{◌+◌, ◌≤◌, if◌then◌else◌};
ghost use Rattle.model.specs.Stages.{over};

use model::Stage;
use octets::Role;
use sm3::Sm3;

/// The handshake octets that an end can hold: what may be there with no message ready, and a longest content more.
pub const BUFFER_SIZE: usize = 20_480;

/// The suites that an end offers or allows, the first `count` of the list: one to eight.
#[derive(Clone, Copy)]
pub struct SuiteList {
    pub list: [u16; 8],
    pub count: usize,
    ghost some: { 1 ≤ count },
    ghost few: { count ≤ 8 },
}

/// The place for keys while they are made: zeros after every call.
#[derive(Clone, Copy)]
pub struct KeyScratch {
    pub premaster: [u8; 48],
    pub material: [u8; 96],
}

/// Handshake octets not yet turned, the first `len`.
#[derive(Clone, Copy)]
pub struct HandshakeBuffer {
    pub octets: [u8; 20480],
    pub len: usize,
    ghost fit: { len ≤ 20480 },
}

/// All that an end holds beside its protection.
#[derive(Clone, Copy)]
pub struct State {
    pub role: Role,
    pub stage: Stage,
    pub suites: SuiteList,
    pub client_random: [u8; 32],
    pub server_random: [u8; 32],
    /// The suite chosen, 0 before.
    pub suite: u16,
    pub master: [u8; 48],
    /// The running hash of the messages.
    pub transcript: Sm3,
    pub keys: KeyScratch,
    /// The number of the next record opened.
    pub reads: u64,
    /// The number of the next record sealed.
    pub writes: u64,
    pub reads_protected: bool,
    pub writes_protected: bool,
    pub buffer: HandshakeBuffer,
    ghost reading: { reads ≤ 16777216 },
    ghost writing: { writes ≤ 16777215 + (if over stage then 1 else 0) },
}
