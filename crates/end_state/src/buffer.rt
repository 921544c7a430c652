//! The buffer of handshake octets.
ghost use Rattle.std.specs.Prelude.{◌≡◌, ◌+◌, ◌≤◌, ◌++◌, length, take, drop};
ghost use Rattle.handshake.specs.Parts.{is_none};
ghost use Rattle.end_state.specs.View.{buffer_view};

use crate::state::HandshakeBuffer;
use octets::lay;

/// Moves the `count` octets behind the first `n` to the front.
fn move_down(octets: &mut [u8], n: usize, count: usize)
    requires { n + count ≤ length octets.old }
    ensures { take count octets.new ≡ take count (drop n octets.old) }
{
    for i in 0..count {
        octets[i] = octets[n + i];
    }
}

impl HandshakeBuffer {
    /// The octets.
    pub fn as_slice(&self) -> &[u8]
        ensures octets { result.now ≡ buffer_view self.now }
        ensures len { length result.now ≡ self.now.len }
    {
        let octets: &[u8] = &self.octets;
        &octets[0..self.len]
    }

    /// The first `n` octets.
    pub fn front(&self, n: usize) -> &[u8]
        requires { n ≤ self.now.len }
        ensures { result.now ≡ take n (buffer_view self.now) }
    {
        let octets: &[u8] = &self.octets;
        &octets[0..n]
    }

    /// Nothing is buffered.
    pub fn is_empty(&self) -> bool
        ensures { result ≡ is_none (buffer_view self.now) }
    {
        self.as_slice().is_empty()
    }

    /// Octets join at the end.
    pub fn append(&mut self, content: &[u8])
        requires { self.old.len + length content.now ≤ 20480 }
        ensures { buffer_view self.new ≡ buffer_view self.old ++ content.now }
    {
        self.len = lay(&mut self.octets, self.len, content);
    }

    /// The first `n` octets leave.
    pub fn remove_front(&mut self, n: usize)
        requires { n ≤ self.old.len }
        ensures { buffer_view self.new ≡ drop n (buffer_view self.old) }
    {
        let left = self.len - n;
        move_down(&mut self.octets, n, left);
        self.len = left;
    }
}
