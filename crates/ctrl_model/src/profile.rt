//! The numbers of the emulator's profile.

/// The result of a request that was done.
pub const SUCCESS: u32 = 0;

/// TPM_BAD_PARAMETER: a field has a value that the request can't have, or a blob is malformed.
pub const BAD_PARAMETER: u32 = 3;

/// TPM_BAD_ORDINAL: the emulator isn't in a state for the request, or its profile doesn't have it.
pub const BAD_ORDINAL: u32 = 0x0A;

/// What GET_CAPABILITY answers: a bit for each group of requests that the profile has.
pub const CAPABILITIES: u64 = 0x2FEF;

/// The flag of INIT by which the volatile state is deleted.
pub const DELETE_VOLATILE: u32 = 1;

/// The type of the permanent state.
pub const PERMANENT_BLOB: u32 = 1;

/// The type of the volatile state.
pub const VOLATILE_BLOB: u32 = 2;

/// The type of the saved state.
pub const SAVED_BLOB: u32 = 3;

/// The least size of the buffer of commands and responses.
pub const LEAST_BUFFER: u32 = 1024;

/// Its greatest size, which it has at first.
pub const GREATEST_BUFFER: u32 = 4096;

/// How many bytes of a blob go with one request or one reply at most.
pub const LARGEST_PIECE: usize = 4096;

/// Where the flags stand in a reply to GET_STATEBLOB.
pub const FLAGS_PLACE: u32 = 4;

/// Where the length of the whole blob stands in it.
pub const TOTAL_PLACE: u32 = 8;

/// Where the length of the piece stands in it.
pub const LENGTH_PLACE: u32 = 12;
