//! Lengths and places in replies.

/// How many bytes stand before the data in a reply to GET_STATEBLOB, and how many a reply to SET_BUFFERSIZE has.
pub(crate) const FIXED_LENGTH: usize = 16;

/// Where the size that was taken stands in a reply to SET_BUFFERSIZE.
pub(crate) const SIZE_PLACE: usize = 4;
