//! The numbers of the format. Its numbers are big-endian. Those of a part are of the crate that has its format.

/// What a stream begins with.
pub const MAGIC: [u8; 4] = *b"CRBS";

/// How many bytes a magic has.
pub const MAGIC_SIZE: usize = 4;

/// The version of a stream, which stands behind its magic. That of a record is the same; that of a blob says which banks its
/// TPM has.
pub const VERSION: u8 = 1;

/// Where the version stands.
pub const VERSION_PLACE: u32 = 4;

/// Where the length stands, in four bytes: the number of bytes that follow it.
pub const LENGTH_PLACE: usize = 5;

/// How many bytes stand before the parts, and before the body of each: a magic, the version and the length.
pub const HEADER_SIZE: usize = 9;

/// How many bytes a part has at most, as it is given to be written.
pub const PART_ROOM: usize = 4096;

/// How many parts there are.
pub const PART_COUNT: usize = 4;

/// How many bytes are written at most.
pub const STREAM_ROOM: usize = HEADER_SIZE + PART_COUNT * PART_ROOM;
