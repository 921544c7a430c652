ghost use Rattle.std.specs.Prelude.{◌≡◌, length};
ghost use Rattle.std.specs.List.{slice_get};
ghost use Rattle.handshake.specs.Parts.{words, among};

/// The suites of a ClientHello as they stand in it, two octets each.
#[derive(Clone, Copy)]
pub struct SuiteList<'a> {
    pub octets: &'a [u8],
}

impl<'a> SuiteList<'a> {
    /// How many suites there are.
    pub fn len(&self) -> usize
        ensures { result ≡ length (words self.now.octets.now) }
    {
        self.octets.len() / 2
    }

    /// The suite at a place, counted from 0.
    pub fn get(&self, index: usize) -> Option<u16>
        ensures { result ≡ slice_get (words self.now.octets.now) index }
    {
        let octets = self.octets;
        if index >= octets.len() / 2 {
            return None;
        }
        Some(octets[2 * index] as u16 * 256 + octets[2 * index + 1] as u16)
    }

    /// Whether a suite is in the list.
    pub fn contains(&self, suite: u16) -> bool
        ensures { result ≡ among suite (words self.now.octets.now) }
    {
        let octets = self.octets;
        for i in 0..octets.len() / 2 {
            if octets[2 * i] as u16 * 256 + octets[2 * i + 1] as u16 == suite {
                return true;
            }
        }
        false
    }
}
