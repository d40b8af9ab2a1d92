//! The numbers of the format of blobs, and the table of its places.

use tpm_core::SEED_SIZE;

/// The version of the blobs of a TPM with one bank.
pub const ONE_BANK_VERSION: u8 = 1;

/// The version of the blobs of a TPM with two banks.
pub const TWO_BANKS_VERSION: u8 = 2;

/// Where the version stands.
pub const VERSION_PLACE: usize = 4;

/// Where the length stands: the number of bytes that follow it.
pub const LENGTH_PLACE: usize = 5;

/// How many bytes stand before the body: a magic, the version and the length.
pub const HEADER_SIZE: usize = 9;

/// Where the flag of a volatile or a saved blob stands, the first byte of its body.
pub const FLAG_PLACE: usize = HEADER_SIZE;

/// Where the count of boots stands in a permanent body, behind the seed.
pub const BOOTS_PLACE: usize = SEED_SIZE;

/// Where the count of draws stands in a volatile body, behind the flag.
pub const DRAWS_PLACE: usize = 1;

/// Where the counter stands in a volatile body, behind the eight bytes of draws; its registers follow it.
pub const RUNNING_PLACE: usize = DRAWS_PLACE + 8;

/// Where the counter stands in a saved body, behind the flag; its registers follow it.
pub const KEPT_PLACE: usize = 1;

/// How many bytes a counter has.
pub const COUNTER_SIZE: usize = 4;

/// How many bytes of body a permanent blob has: the seed and the count of boots.
pub const PERMANENT_LENGTH: u32 = 40;

/// How many bytes of body there are where nothing stands behind the flag.
pub const FLAG_ALONE: u32 = 1;

/// How many bytes of body the volatile blob of a started TPM with one bank has: flag, draws, counter and 24 registers.
pub const VOLATILE_LENGTH: u32 = 781;

/// The same with two banks: 24 registers of 48 bytes more.
pub const TWO_BANKS_VOLATILE_LENGTH: u32 = 1933;

/// How many bytes of body the blob of a saved state with one bank has: flag, counter and 16 registers.
pub const SAVED_LENGTH: u32 = 517;

/// The same with two banks: 16 registers of 48 bytes more.
pub const TWO_BANKS_SAVED_LENGTH: u32 = 1285;

/// How many bytes a blob has at most: the volatile one of a started TPM with two banks.
pub const LARGEST_BLOB: usize = 1942;
