ghost use Rattle.std.specs.Prelude.{◌≡◌};
ghost use Rattle.model.specs.Stages.{question_number};

/// A question to the key card.
#[derive(Clone, Copy)]
pub enum Question {
    /// The client's random.
    ClientRandom,
    /// The server's random, session id, certificates and signature.
    ServerFlight,
    /// Whether the server's certificates are good.
    CheckCertificates,
    /// Whether the server's signature is good.
    CheckSignature,
    /// A premaster and its wrapping for the server.
    WrapPremaster,
    /// The premaster in the client's wrapping.
    UnwrapPremaster,
}

impl Question {
    /// The question's number.
    pub fn number(self) -> u8
        ensures { result ≡ question_number self }
    {
        match self {
            Question::ClientRandom => 1,
            Question::ServerFlight => 2,
            Question::CheckCertificates => 3,
            Question::CheckSignature => 4,
            Question::WrapPremaster => 5,
            Question::UnwrapPremaster => 6,
        }
    }
}
