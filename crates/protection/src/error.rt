ghost use Rattle.std.specs.Prelude.{◌≡◌};
ghost use Rattle.protection.specs.Errors.{alert_of};

/// The alert bad_record_mac.
const BAD_RECORD_MAC: u8 = 20;

/// Why octets do not open.
#[derive(Clone, Copy, PartialEq, Eq)]
pub enum OpenError {
    /// They are not what the peer sealed at this number and kind, or could not be taken at all.
    Refused,
}

impl OpenError {
    /// The number of the alert that tells the peer.
    pub fn alert(self) -> u8
        ensures { result ≡ alert_of self }
    {
        match self {
            OpenError::Refused => BAD_RECORD_MAC,
        }
    }
}
