ghost use Rattle.std.specs.Prelude.{◌≡◌};
ghost use Rattle.records.specs.Faults.{alert_number, alert_of, level_number, level_of, layer_number};

/// The alerts of GB/T 38636-2020, each with its number on the wire.
#[derive(Clone, Copy)]
pub enum Alert {
    CloseNotify = 0,
    UnexpectedMessage = 10,
    BadRecordMac = 20,
    DecryptionFailed = 21,
    RecordOverflow = 22,
    DecompressionFailure = 30,
    HandshakeFailure = 40,
    BadCertificate = 42,
    UnsupportedCertificate = 43,
    CertificateRevoked = 44,
    CertificateExpired = 45,
    CertificateUnknown = 46,
    IllegalParameter = 47,
    UnknownCa = 48,
    AccessDenied = 49,
    DecodeError = 50,
    DecryptError = 51,
    ProtocolVersion = 70,
    InsufficientSecurity = 71,
    InternalError = 80,
    UserCanceled = 90,
    NoRenegotiation = 100,
    UnsupportedSite2site = 200,
    NoArea = 201,
    UnsupportedAreatype = 202,
    BadIbcparam = 203,
    UnsupportedIbcparam = 204,
    IdentityNeed = 205,
}

impl Alert {
    /// The alert's number.
    pub fn number(self) -> u8
        ensures { result ≡ alert_number self }
    {
        self as u8
    }

    /// The alert of a number, if the standard lists it.
    pub fn from_number(number: u8) -> Option<Alert>
        ensures { result ≡ alert_of number }
    {
        let alert = match number {
            0 => Alert::CloseNotify,
            10 => Alert::UnexpectedMessage,
            20 => Alert::BadRecordMac,
            21 => Alert::DecryptionFailed,
            22 => Alert::RecordOverflow,
            30 => Alert::DecompressionFailure,
            40 => Alert::HandshakeFailure,
            42 => Alert::BadCertificate,
            43 => Alert::UnsupportedCertificate,
            44 => Alert::CertificateRevoked,
            45 => Alert::CertificateExpired,
            46 => Alert::CertificateUnknown,
            47 => Alert::IllegalParameter,
            48 => Alert::UnknownCa,
            49 => Alert::AccessDenied,
            50 => Alert::DecodeError,
            51 => Alert::DecryptError,
            70 => Alert::ProtocolVersion,
            71 => Alert::InsufficientSecurity,
            80 => Alert::InternalError,
            90 => Alert::UserCanceled,
            100 => Alert::NoRenegotiation,
            200 => Alert::UnsupportedSite2site,
            201 => Alert::NoArea,
            202 => Alert::UnsupportedAreatype,
            203 => Alert::BadIbcparam,
            204 => Alert::UnsupportedIbcparam,
            205 => Alert::IdentityNeed,
            _ => return None,
        };
        Some(alert)
    }
}

/// How grave an alert is.
#[derive(Clone, Copy)]
pub enum AlertLevel {
    Warning = 1,
    Fatal = 2,
}

impl AlertLevel {
    /// The level's number.
    pub fn number(self) -> u8
        ensures { result ≡ level_number self }
    {
        self as u8
    }

    /// The level of a number, if there is one.
    pub fn from_number(number: u8) -> Option<AlertLevel>
        ensures { result ≡ level_of number }
    {
        match number {
            1 => Some(AlertLevel::Warning),
            2 => Some(AlertLevel::Fatal),
            _ => None,
        }
    }
}

/// Where a fault was found, from the outermost layer inwards.
#[derive(Clone, Copy)]
pub enum Layer {
    /// A record's header, its protection, or the length of its content.
    Record = 1,
    /// A content that its kind does not allow, or not now.
    Content = 2,
    /// A handshake message's length, version, layout or parameters.
    Message = 3,
    /// A message that is not awaited, shares no suite, or fails the check of the handshake.
    Stage = 4,
    /// What the key card answered.
    Card = 5,
}

impl Layer {
    /// The layer's number.
    pub fn number(self) -> u8
        ensures { result ≡ layer_number self }
    {
        self as u8
    }
}

/// What the far end or the wire did wrong: the alert that it raises and the layer that found it.
#[derive(Clone, Copy)]
pub struct Fault {
    pub alert: Alert,
    pub layer: Layer,
}
