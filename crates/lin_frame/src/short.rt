//! Few bytes in a place of their own.

ghost use Rattle.std.specs.Prelude.{◌≡◌, ◌≤◌, length};
ghost use Rattle.lin_frame.specs.Short.{with_zeros};

/// These bytes, and zeros after them up to the size of the place.
pub(crate) fn with_zeros<const N: usize>(bytes: &[u8]) -> [u8; N]
    requires { length bytes.now ≤ N }
    ensures { result ≡ with_zeros N bytes.now }
{
    let mut place = [0; N];
    place[..bytes.len()].copy_from_slice(bytes);
    place
}
