ghost use Rattle.std.specs.Prelude.{◌≡◌};
ghost use Rattle.records.specs.Kinds.{kind_number, kind_of};

/// What a record's content is.
#[derive(Clone, Copy)]
pub enum ContentKind {
    ChangeCipherSpec = 20,
    Alert = 21,
    Handshake = 22,
    ApplicationData = 23,
}

impl ContentKind {
    /// The kind's octet.
    pub fn octet(self) -> u8
        ensures { result ≡ kind_number self }
    {
        self as u8
    }

    /// The kind of an octet, if it is one that is looked at.
    pub fn from_octet(octet: u8) -> Option<ContentKind>
        ensures { result ≡ kind_of octet }
    {
        match octet {
            20 => Some(ContentKind::ChangeCipherSpec),
            21 => Some(ContentKind::Alert),
            22 => Some(ContentKind::Handshake),
            23 => Some(ContentKind::ApplicationData),
            _ => None,
        }
    }
}
