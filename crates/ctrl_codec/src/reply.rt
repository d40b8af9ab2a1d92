// Replies to control requests.
use std::fmt;

/// A reply to a control request, without the data that goes with it. The bodies are our own.
#[derive(Clone, Copy, Debug, PartialEq, Eq)]
pub enum Reply {
    /// To GET_CAPABILITY: a bit for each thing that the emulator can do.
    Capability {
        value: u64,
    },
    /// To INIT, SHUTDOWN, SET_LOCALITY, CANCEL_TPM_CMD, STORE_VOLATILE, RESET_TPMESTABLISHED, SET_STATEBLOB and STOP:
    /// 0, or why the request failed. It stands first in each of the replies that follow, too.
    Result {
        result: u32,
    },
    /// To GET_TPMESTABLISHED: the flag. Three zero bytes follow it.
    Established {
        result: u32,
        bit: u8,
    },
    /// To GET_STATEBLOB: how many bytes the blob has, and how many of them follow as data, at most 4096.
    Blob {
        result: u32,
        flags: u32,
        total: u32,
        length: u32,
    },
    /// To GET_CONFIG.
    Config {
        result: u32,
        flags: u32,
    },
    /// To SET_BUFFERSIZE: the size of the buffer, and the range that it may have.
    Buffer {
        result: u32,
        size: u32,
        least: u32,
        greatest: u32,
    },
}

/// Why bytes begin no reply to the request that was sent.
#[derive(Clone, Copy, Debug, PartialEq, Eq)]
pub enum ReplyFault {
    /// The data would have so many bytes, more than 4096.
    Length(u32),
    /// The byte at this place, counted from 0, has to be 0 and isn't.
    Value(u32),
}

impl fmt::Display for ReplyFault {
    fn fmt<W: fmt::Write>(&self, f: &mut fmt::Formatter<W>) -> fmt::Result {
        match self {
            ReplyFault::Length(length) => write!(
                f,
                "a reply with {length} bytes of data is too long"
            ),
            ReplyFault::Value(place) => write!(f, "byte {place} of the reply has to be 0"),
        }
    }
}
