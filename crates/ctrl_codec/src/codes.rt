//! The codes of control requests, by their names in swtpm's manual without the start `CMD_`, and the sizes of our own
//! messages.

/// What the emulator can do.
pub const GET_CAPABILITY: u32 = 1;

/// Switch the TPM on.
pub const INIT: u32 = 2;

/// Switch the TPM off and end.
pub const SHUTDOWN: u32 = 3;

/// Whether the flag tpmEstablished is set.
pub const GET_TPMESTABLISHED: u32 = 4;

/// The locality of the commands that follow.
pub const SET_LOCALITY: u32 = 5;

/// Give up the command that is executed.
pub const CANCEL_TPM_CMD: u32 = 9;

/// Store the volatile state.
pub const STORE_VOLATILE: u32 = 10;

/// Clear the flag tpmEstablished.
pub const RESET_TPMESTABLISHED: u32 = 11;

/// A piece of a blob of state.
pub const GET_STATEBLOB: u32 = 12;

/// A piece of a blob of state, to be taken.
pub const SET_STATEBLOB: u32 = 13;

/// Switch the TPM off.
pub const STOP: u32 = 14;

/// How the emulator was configured.
pub const GET_CONFIG: u32 = 15;

/// The size of the buffer of commands and responses.
pub const SET_BUFFERSIZE: u32 = 17;

/// How many bytes of data go with a message at most.
pub const LARGEST_DATA: usize = 4096;

/// How many bytes stand before the data, in a request and in a reply.
pub const DATA_PLACE: usize = 16;

/// How many bytes a message has at most: those before its data, and the data.
pub const LARGEST_MESSAGE: usize = 4112;

/// How many bytes behind a locality are ignored.
pub const IGNORED: usize = 3;

/// The place of the first zero byte of the reply to GET_TPMESTABLISHED.
pub const FIRST_ZERO: u32 = 5;

/// The place of the second.
pub const SECOND_ZERO: u32 = 6;

/// The place of the third.
pub const THIRD_ZERO: u32 = 7;
