//! Bytes of big-endian numbers.

ghost use Rattle.std.specs.Prelude.{◌≡◌, ◌<◌, slice_index, slice_set};
ghost use Rattle.vt_base.specs.Numbers.{number, long};

/// A number of four bytes, of which one is changed.
pub fn number_with(n: u32, k: usize, byte: u8) -> u32
    requires { k < 4 }
    ensures { number result ≡ slice_set (number n) k byte }
{
    let mut bytes = n.to_be_bytes();
    bytes[k] = byte;
    u32::from_be_bytes(bytes)
}

/// The same of a number of eight bytes.
pub fn long_with(n: u64, k: usize, byte: u8) -> u64
    requires { k < 8 }
    ensures { long result ≡ slice_set (long n) k byte }
{
    let mut bytes = n.to_be_bytes();
    bytes[k] = byte;
    u64::from_be_bytes(bytes)
}

/// A byte of a number of eight.
pub fn long_byte(n: u64, k: usize) -> u8
    requires { k < 8 }
    ensures { result ≡ slice_index (long n) k }
{
    n.to_be_bytes()[k]
}
