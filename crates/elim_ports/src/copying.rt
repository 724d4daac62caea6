ghost use Rattle.std.specs.Prelude.{◌≡◌, ◌≤◌, ◌++◌, length, take, drop};

/// How many bytes are moved at once.
pub(crate) const PIECE: usize = 4096;

/// Copies the first `n` bytes of `from` to the front of `to`.
pub(crate) fn copy_front(from: &[u8], to: &mut [u8], n: usize)
    requires given { n ≤ length from.now }
    requires room { n ≤ length to.old }
    ensures { to.new ≡ take n from.now ++ drop n to.old }
{
    to[..n].copy_from_slice(&from[..n]);
}
