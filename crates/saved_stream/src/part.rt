//! The parts of a stream, and what their headers may be.

ghost use Rattle.std.specs.Prelude.{◌≡◌};
ghost use Rattle.saved_stream.specs.Headers.{part_magic, may_follow};

use crate::format::VERSION;
use device_record::{LARGEST_LENGTH, SMALLEST_LENGTH};
use vt_base::Kind;

/// A part of a stream.
#[derive(Clone, Copy, Debug, PartialEq, Eq)]
pub enum Part {
    /// The record of the device.
    Record,
    /// A blob of the TPM.
    Blob(Kind),
}

impl Part {
    /// What it begins with.
    pub fn magic(self) -> [u8; 4]
        ensures { result ≡ part_magic self }
    {
        match self {
            Part::Record => device_record::MAGIC,
            Part::Blob(kind) => state_blobs::magic(kind),
        }
    }

    /// Whether so many bytes may follow its header, if that has this version.
    pub fn may_have(self, version: u8, count: u32) -> bool
        ensures { result ≡ may_follow self version count }
    {
        match self {
            Part::Record => {
                version == VERSION && SMALLEST_LENGTH <= count && count <= LARGEST_LENGTH
            }
            Part::Blob(kind) => match state_blobs::banks_named(version) {
                Some(banks) => state_blobs::is_length(kind, banks, count),
                None => false,
            },
        }
    }
}
