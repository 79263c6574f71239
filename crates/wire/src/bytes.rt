// Numbers in a run of bytes: unsigned, the highest byte first.
ghost use Rattle.std.specs.Prelude.{◌≡◌, ℕ, ◌+◌, ◌<◌, ◌≤◌, length, slice_index};

// So many bytes from an offset on, for a number of that size.
pub(crate) fn bytes_at<const SIZE: usize>(bytes: &[u8], at: usize) -> [u8; SIZE]
    requires { at + SIZE ≤ length bytes.now }
    ensures { (i : ℕ) → i < SIZE → slice_index result i ≡ slice_index bytes.now (at + i) }
{
    let mut part = [0; SIZE];
    part.copy_from_slice(&bytes[at..at + SIZE]);
    part
}
