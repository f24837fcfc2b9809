//! Letting go of bytes that were read.
ghost use Rattle.std.specs.Prelude.{◌≡◌, ◌≤◌, drop, vec_len};

/// Drops the first elements. O(n) for n bytes that stay.
pub fn drop_front(bytes: &mut Vec<u8>, count: usize)
    requires { count ≤ vec_len bytes.old }
    ensures { bytes.new.items ≡ drop count bytes.old.items }
{
    let len = bytes.len();
    bytes.copy_within(count..len, 0);
    bytes.truncate(len - count);
}
