// Names that stand in a message as one byte. The number of each is written at its name.
ghost use Rattle.std.specs.Prelude.{◌≡◌, ℕ, List};
ghost use Rattle.move_codec.specs.Names.{named, host_byte, hosts, part_byte, parts, reason_byte, reasons, kind_byte, kinds, fits};

use crate::format::{BARE_LENGTH, OFFER_LENGTH, PIECE_LENGTH, SHORT_LENGTH};
use vt_base::{HostName, Reason};

/// A name that stands in a message as one byte.
pub(crate) trait Named: Copy + 'static {
    ghost byte: { Self → ℕ };

    ghost all: { List Self };

    /// All names of this type.
    fn all() -> &'static [Self]
        ensures names { result.now ≡ all };

    fn to_byte(self) -> u8
        ensures value { result ≡ byte self };

    /// The name that has this byte, if there is one.
    fn from_byte(number: u8) -> Option<Self>
        ensures found { result ≡ named byte all number }
    {
        Self::all()
            .iter()
            .copied()
            .find(|name| name.to_byte() == number)
    }
}

impl Named for HostName {
    ghost byte = { host_byte };

    ghost all = { hosts };

    fn all() -> &'static [Self] {
        &[HostName::A, HostName::B]
    }

    fn to_byte(self) -> u8 {
        self as u8
    }
}

/// A part of what is moved, in the order in which the parts go.
#[derive(Clone, Copy, Debug, PartialEq, Eq)]
pub enum Part {
    /// The record of the device.
    Record = 0,
    /// The TPM's permanent state.
    Permanent = 1,
    /// Its volatile state.
    Volatile = 2,
    /// Its saved state.
    Saved = 3,
}

impl Named for Part {
    ghost byte = { part_byte };

    ghost all = { parts };

    fn all() -> &'static [Self] {
        &[Part::Record, Part::Permanent, Part::Volatile, Part::Saved]
    }

    fn to_byte(self) -> u8 {
        self as u8
    }
}

impl Named for Reason {
    ghost byte = { reason_byte };

    ghost all = { reasons };

    fn all() -> &'static [Self] {
        &[
            Reason::Busy,
            Reason::Totals,
            Reason::Record,
            Reason::Blob,
            Reason::Link,
            Reason::Reply,
        ]
    }

    fn to_byte(self) -> u8 {
        self as u8
    }
}

/// The kinds of messages.
#[derive(Clone, Copy, Debug, PartialEq, Eq)]
pub(crate) enum Kind {
    Offer = 1,
    Need = 2,
    Piece = 3,
    Prepared = 4,
    Commit = 5,
    Abort = 6,
    Refuse = 7,
}

impl Named for Kind {
    ghost byte = { kind_byte };

    ghost all = { kinds };

    fn all() -> &'static [Self] {
        &[
            Kind::Offer,
            Kind::Need,
            Kind::Piece,
            Kind::Prepared,
            Kind::Commit,
            Kind::Abort,
            Kind::Refuse,
        ]
    }

    fn to_byte(self) -> u8 {
        self as u8
    }
}

impl Kind {
    /// Whether a message of this kind may have this length, where any message may.
    pub(crate) fn fits(self, length: u32) -> bool
        ensures fits { result ≡ fits self length }
    {
        match self {
            Kind::Offer => length == OFFER_LENGTH,
            Kind::Need | Kind::Refuse => length == SHORT_LENGTH,
            Kind::Piece => length > PIECE_LENGTH,
            Kind::Prepared | Kind::Commit | Kind::Abort => length == BARE_LENGTH,
        }
    }
}
