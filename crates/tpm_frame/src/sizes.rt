//! Lengths of frames, and the field of the header that names them.

ghost use Rattle.std.specs.Prelude.{◌≡◌, ◌≤◌, ◌↔◌, IsTrue, length};
ghost use Rattle.tpm_frame.specs.Sizes.{IsLength, IsWellSized, is_well_sized};

use crate::{HEADER_SIZE, LARGEST_FRAME};
use vt_base::u32_at;

/// Where the size field of a header begins.
pub const SIZE_FIELD: usize = 2;

/// How many bytes the size field of a header has, the highest first.
pub const SIZE_FIELD_LENGTH: usize = 4;

/// Whether a command or a response can have this length: it has a header, and the buffer has room for it.
pub fn is_length(count: usize) -> bool
    ensures { IsTrue result ↔ IsLength count }
{
    (HEADER_SIZE..=LARGEST_FRAME).contains(&count)
}

/// Whether the bytes have a length of commands and responses, and their size field names it.
pub fn is_well_sized(bytes: &[u8]) -> bool
    ensures exact { IsTrue result ↔ IsWellSized bytes.now }
    ensures test { result ≡ is_well_sized bytes.now }
{
    is_length(bytes.len()) && u32_at(bytes, SIZE_FIELD) as usize == bytes.len()
}
