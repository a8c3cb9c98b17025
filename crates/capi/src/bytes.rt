ghost use Rattle.std.specs.Prelude.{◌≡◌, ◌+◌, ◌≤◌, length, slice_range};
ghost use Rattle.capi.specs.Bytes.{word_at, double_at, quad_at};

// The N bytes from a place on.
pub(crate) fn bytes_at<const N: usize>(bytes: &[u8], at: usize) -> [u8; N]
    requires { at + N ≤ length bytes.now }
    ensures { result ≡ slice_range bytes.now at (at + N) }
{
    let mut copy = [0; N];
    copy.copy_from_slice(&bytes[at..at + N]);
    copy
}

// Numbers of two, four and eight bytes, low bytes first: each names its width in its contract.
pub(crate) fn word_at(bytes: &[u8], at: usize) -> u16
    requires { at + 2 ≤ length bytes.now }
    ensures { result ≡ word_at bytes.now at }
{
    u16::from_le_bytes(bytes_at(bytes, at))
}

pub(crate) fn double_at(bytes: &[u8], at: usize) -> u32
    requires { at + 4 ≤ length bytes.now }
    ensures { result ≡ double_at bytes.now at }
{
    u32::from_le_bytes(bytes_at(bytes, at))
}

pub(crate) fn quad_at(bytes: &[u8], at: usize) -> u64
    requires { at + 8 ≤ length bytes.now }
    ensures { result ≡ quad_at bytes.now at }
{
    u64::from_le_bytes(bytes_at(bytes, at))
}
