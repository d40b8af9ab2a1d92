//! The numbers of the format: what stands where in a record. Its numbers are big-endian.

/// What a record begins with.
pub const MAGIC: [u8; 4] = *b"CRBD";

/// The version that stands behind the magic.
pub const VERSION: u8 = 1;

/// Where the version stands.
pub const VERSION_PLACE: u32 = 4;

/// Where the length stands, in four bytes: the number of bytes that follow it.
pub const LENGTH_PLACE: u32 = 5;

/// Where the flag stands that says whether access is granted.
pub const GRANTED_PLACE: u32 = 9;

/// Where the flag stands that says whether CANCEL is set.
pub const CANCEL_PLACE: u32 = 10;

/// Where the code of the phase stands.
pub const PHASE_PLACE: u32 = 11;

/// Where the flag stands that says whether the job that waits is cancelled; behind it stands the number of the last
/// job, in eight bytes.
pub const CANCELLED_PLACE: u32 = 12;

/// Where the number of content bytes stands, in two bytes.
pub const COUNT_PLACE: u32 = 21;

/// How many bytes stand before the content.
pub const HEADER_SIZE: usize = 23;

/// The last byte of the content stands behind this place, as many bytes as the content has.
pub const BEFORE_CONTENT: u32 = 22;

/// How many bytes follow the length at least: as many as where there is no content.
pub const SMALLEST_LENGTH: u32 = 14;

/// How many follow it at most: as many as where the whole buffer is content.
pub const LARGEST_LENGTH: u32 = 3982;

/// How many bytes are lent for a record, which needs 3991 at most.
pub const RECORD_ROOM: usize = 4096;

/// A flag that isn't set.
pub const CLEAR: u8 = 0;

/// A flag that is set.
pub const SET: u8 = 1;

/// The code of `Phase::Idle`.
pub const IDLE: u8 = 0;

/// The code of `Phase::Ready`.
pub const READY: u8 = 1;

/// The code of `Phase::Reception`.
pub const RECEPTION: u8 = 2;

/// The code of `Phase::Execution`.
pub const EXECUTION: u8 = 3;

/// The code of `Phase::Completion`.
pub const COMPLETION: u8 = 4;

/// The code of `Phase::Lost`, which stands in no record.
pub const LOST: u8 = 5;
