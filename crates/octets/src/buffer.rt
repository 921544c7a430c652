ghost use Rattle.std.specs.Prelude.{◌≡◌, ℕ, ◌+◌, ◌-◌, min, length, replicate};
ghost use Rattle.octets.specs.Octets.{same as alike};
ghost use Rattle.octets.specs.Laid.{laid};

/// Lays the list over `out` from `from` on, as far as there is room, and says where it ends.
pub fn lay(out: &mut [u8], from: usize, list: &[u8]) -> usize
    ensures end { result ≡ from + min (length list.now) (length out.old - from) }
    ensures after { out.new ≡ laid out.old from list.now }
{
    let n = list.len().min(out.len().saturating_sub(from));
    if n == 0 {
        return from;
    }
    let end = from + n;
    out[from..end].copy_from_slice(&list[0..n]);
    end
}

/// Zeros in every place.
pub fn wipe(place: &mut [u8])
    ensures { place.new ≡ replicate (length place.old) 0 }
{
    place.fill(0);
}

/// Whether two lists are the same. Of lists of one length every octet is looked at, whatever the earlier ones are.
pub fn same(a: &[u8], b: &[u8]) -> bool
    ensures { result ≡ alike a.now b.now }
{
    if a.len() != b.len() {
        return false;
    }
    let mut differing = 0u8;
    for i in 0..a.len() {
        differing |= a[i] ^ b[i];
    }
    differing == 0
}
