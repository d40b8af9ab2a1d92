//! Words of the answers.

use std::fmt;
use vt_base::{Kind, Malformed};

/// What was given of a blob.
#[derive(Clone, Copy, Debug, PartialEq, Eq)]
pub struct Piece {
    /// How many bytes the whole blob has.
    pub total: u32,
    /// How many of them stand at the start of the buffer now.
    pub length: u32,
}

/// Why gathers don't make a TPM.
#[derive(Clone, Copy, Debug, PartialEq, Eq)]
pub struct BlobFault {
    /// Whose blob is at fault.
    pub kind: Kind,
    /// What is wrong with it, at a place counted from its first byte.
    pub fault: Malformed,
}

impl fmt::Display for BlobFault {
    fn fmt<W: fmt::Write>(&self, f: &mut fmt::Formatter<W>) -> fmt::Result {
        let blob = match self.kind {
            Kind::Permanent => "permanent",
            Kind::Volatile => "volatile",
            Kind::Saved => "saved",
        };
        let place = self.fault.place;
        write!(f, "the {blob} blob is malformed at byte {place}")
    }
}
