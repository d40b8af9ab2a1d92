// Words that the crates above share.
use std::error::Error;
use std::fmt;

/// One of the two channels of a link to an emulator.
#[derive(Clone, Copy, Debug, PartialEq, Eq)]
pub enum Chan {
    /// Commands of the guest and their responses.
    Data,
    /// Requests of the host to the emulator, and its replies.
    Ctrl,
}

/// One of the two hosts between which a guest moves.
#[derive(Clone, Copy, Debug, PartialEq, Eq)]
pub enum HostName {
    A = 0,
    B = 1,
}

/// Why a host refuses an offer or a piece.
#[derive(Clone, Copy, Debug, PartialEq, Eq)]
pub enum Reason {
    /// It runs, or has an offer of its own open.
    Busy = 1,
    /// A part is empty or too long.
    Totals = 2,
    /// The record of the device is malformed.
    Record = 3,
    /// The emulator refused a blob.
    Blob = 4,
    /// The link to the emulator failed.
    Link = 5,
    /// The emulator's reply has a byte that can't stand there.
    Reply = 6,
}

/// A part of the state of a TPM, as it is saved and moved.
#[derive(Clone, Copy, Debug, PartialEq, Eq)]
pub enum Kind {
    /// What outlives every power cycle, as the seeds.
    Permanent,
    /// What a running TPM holds, and loses with its power.
    Volatile,
    /// What an orderly shutdown saved for the next start.
    Saved,
}

/// A read, a write or a connection failed. The object at fault counted it.
#[derive(Clone, Copy, Debug, PartialEq, Eq)]
pub struct Failed;

/// What is wrong with bytes that encode no message.
#[derive(Clone, Copy, Debug, PartialEq, Eq)]
pub enum Why {
    /// They don't begin with the format's magic number.
    Magic,
    /// They are of a version that isn't known here.
    Version,
    /// A length or a total doesn't fit its field or its message.
    Length,
    /// A field has a value that its format doesn't give it.
    Value,
    /// They end before the message does.
    Cut,
    /// They go on after the message.
    Extra,
}

/// Bytes that encode no message: why not, and at which byte, counted from 0.
#[derive(Clone, Copy, Debug, PartialEq, Eq)]
pub struct Malformed {
    pub why: Why,
    pub place: u32,
}

impl fmt::Display for Failed {
    fn fmt<W: fmt::Write>(&self, f: &mut fmt::Formatter<W>) -> fmt::Result {
        f.write_str("a read, a write or a connection failed")
    }
}

impl Error for Failed {}

impl fmt::Display for Why {
    fn fmt<W: fmt::Write>(&self, f: &mut fmt::Formatter<W>) -> fmt::Result {
        f.write_str(match self {
            Why::Magic => "magic",
            Why::Version => "version",
            Why::Length => "length",
            Why::Value => "value",
            Why::Cut => "cut",
            Why::Extra => "extra",
        })
    }
}

impl fmt::Display for Malformed {
    fn fmt<W: fmt::Write>(&self, f: &mut fmt::Formatter<W>) -> fmt::Result {
        write!(f, "{} at {}", self.why, self.place)
    }
}

impl Error for Malformed {}
