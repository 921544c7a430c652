ghost use Rattle.std.specs.Prelude.{◌≡◌};
ghost use Rattle.model.specs.Stages.{stage_number, asks, awaits, is_open, over};

use crate::Question;

/// What an end awaits or asks.
#[derive(Clone, Copy)]
pub enum Stage {
    /// The client asks for its random.
    AskClientRandom,
    AwaitServerHello,
    AwaitCertificate,
    /// The client asks whether the certificates are good.
    AskCertificates,
    AwaitServerKeyExchange,
    /// The client asks whether the signature is good.
    AskSignature,
    AwaitServerHelloDone,
    /// The client asks for a premaster and its wrapping.
    AskWrapping,
    ClientAwaitChange,
    ClientAwaitFinished,
    AwaitClientHello,
    /// The server asks for random, session id, certificates and signature.
    AskServerFlight,
    AwaitClientKeyExchange,
    /// The server asks for the premaster that was wrapped.
    AskUnwrapping,
    ServerAwaitChange,
    ServerAwaitFinished,
    Open,
    Closed,
    Dead,
}

impl Stage {
    /// The stage's number.
    pub fn number(self) -> u8
        ensures { result ≡ stage_number self }
    {
        match self {
            Stage::AskClientRandom => 1,
            Stage::AwaitServerHello => 2,
            Stage::AwaitCertificate => 3,
            Stage::AskCertificates => 4,
            Stage::AwaitServerKeyExchange => 5,
            Stage::AskSignature => 6,
            Stage::AwaitServerHelloDone => 7,
            Stage::AskWrapping => 8,
            Stage::ClientAwaitChange => 9,
            Stage::ClientAwaitFinished => 10,
            Stage::AwaitClientHello => 21,
            Stage::AskServerFlight => 22,
            Stage::AwaitClientKeyExchange => 23,
            Stage::AskUnwrapping => 24,
            Stage::ServerAwaitChange => 25,
            Stage::ServerAwaitFinished => 26,
            Stage::Open => 11,
            Stage::Closed => 12,
            Stage::Dead => 13,
        }
    }

    /// The question that is open.
    pub fn question(self) -> Option<Question>
        ensures { result ≡ asks self }
    {
        match self {
            Stage::AskClientRandom => Some(Question::ClientRandom),
            Stage::AskServerFlight => Some(Question::ServerFlight),
            Stage::AskCertificates => Some(Question::CheckCertificates),
            Stage::AskSignature => Some(Question::CheckSignature),
            Stage::AskWrapping => Some(Question::WrapPremaster),
            Stage::AskUnwrapping => Some(Question::UnwrapPremaster),
            _ => None,
        }
    }

    /// The line is open.
    pub fn is_open(self) -> bool
        ensures { result ≡ is_open self }
    {
        match self {
            Stage::Open => true,
            _ => false,
        }
    }

    /// The line is over: closed or dead.
    pub fn is_over(self) -> bool
        ensures { result ≡ over self }
    {
        match self {
            Stage::Closed | Stage::Dead => true,
            _ => false,
        }
    }
}
