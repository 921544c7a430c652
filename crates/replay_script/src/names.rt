use octets::Role;

/// An end of the line, as scripts name it.
#[derive(Clone, Copy)]
pub enum EndName {
    /// The gauge: the client.
    Gauge,
    /// The office: the server.
    Office,
}

impl EndName {
    /// The end of this name.
    pub fn named(word: &str) -> Option<EndName> {
        match word {
            "gauge" => Some(EndName::Gauge),
            "office" => Some(EndName::Office),
            _ => None,
        }
    }

    /// The end's name.
    pub fn word(self) -> &'static str {
        match self {
            EndName::Gauge => "gauge",
            EndName::Office => "office",
        }
    }

    /// The part that the end has in a handshake.
    pub fn role(self) -> Role {
        match self {
            EndName::Gauge => Role::Client,
            EndName::Office => Role::Server,
        }
    }

    /// Whether two names are of one end.
    pub fn is(self, other: EndName) -> bool {
        match (self, other) {
            (EndName::Gauge, EndName::Gauge) | (EndName::Office, EndName::Office) => true,
            _ => false,
        }
    }
}

/// The kinds of record protection that an end is set up with.
#[derive(Clone, Copy)]
pub enum ProtectionKind {
    Cbc,
    Gcm,
    /// CBC first, then GCM.
    Pair,
}

impl ProtectionKind {
    /// The kind of this name.
    pub fn named(word: &str) -> Option<ProtectionKind> {
        match word {
            "cbc" => Some(ProtectionKind::Cbc),
            "gcm" => Some(ProtectionKind::Gcm),
            "pair" => Some(ProtectionKind::Pair),
            _ => None,
        }
    }
}

/// The calls that a script names.
#[derive(Clone, Copy)]
pub enum CallName {
    SetUp,
    HandIn,
    Turn,
    Look,
    Answer,
    Send,
    Close,
}

impl CallName {
    /// The call of this name.
    pub fn named(word: &str) -> Option<CallName> {
        match word {
            "setup" => Some(CallName::SetUp),
            "hand-in" => Some(CallName::HandIn),
            "turn" => Some(CallName::Turn),
            "look" => Some(CallName::Look),
            "answer" => Some(CallName::Answer),
            "send" => Some(CallName::Send),
            "close" => Some(CallName::Close),
            _ => None,
        }
    }
}
