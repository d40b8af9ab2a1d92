// The commands of the profile.
ghost use Rattle.std.specs.Prelude.{◌≡◌, Some};
ghost use Rattle.ctrl_codec.specs.Commands.{code_of, command_at};

use crate::codes::{
    CANCEL_TPM_CMD, GET_CAPABILITY, GET_CONFIG, GET_STATEBLOB, GET_TPMESTABLISHED, INIT,
    RESET_TPMESTABLISHED, SET_BUFFERSIZE, SET_LOCALITY, SET_STATEBLOB, SHUTDOWN, STOP,
    STORE_VOLATILE,
};

/// The command of a control request. The profile has thirteen; the codes 6, 7, 8 and 16, swtpm's HASH_START, HASH_DATA,
/// HASH_END and SET_DATAFD, are outside it.
#[derive(Clone, Copy, Debug, PartialEq, Eq)]
pub enum RequestCode {
    /// What the emulator can do.
    GetCapability,
    /// Switch the TPM on.
    Init,
    /// Switch the TPM off and end.
    Shutdown,
    /// Whether the flag tpmEstablished is set.
    GetEstablished,
    /// The locality of the commands that follow.
    SetLocality,
    /// Give up the command that is executed.
    CancelCommand,
    /// Store the volatile state.
    StoreVolatile,
    /// Clear the flag tpmEstablished.
    ResetEstablished,
    /// A piece of a blob of state.
    GetStateBlob,
    /// A piece of a blob of state, to be taken.
    SetStateBlob,
    /// Switch the TPM off.
    Stop,
    /// How the emulator was configured.
    GetConfig,
    /// The size of the buffer of commands and responses.
    SetBufferSize,
}

impl RequestCode {
    /// The command of this code, if the profile has one.
    pub fn from_code(code: u32) -> Option<RequestCode>
        ensures { result ≡ command_at code }
    {
        Some(match code {
            GET_CAPABILITY => RequestCode::GetCapability,
            INIT => RequestCode::Init,
            SHUTDOWN => RequestCode::Shutdown,
            GET_TPMESTABLISHED => RequestCode::GetEstablished,
            SET_LOCALITY => RequestCode::SetLocality,
            CANCEL_TPM_CMD => RequestCode::CancelCommand,
            STORE_VOLATILE => RequestCode::StoreVolatile,
            RESET_TPMESTABLISHED => RequestCode::ResetEstablished,
            GET_STATEBLOB => RequestCode::GetStateBlob,
            SET_STATEBLOB => RequestCode::SetStateBlob,
            STOP => RequestCode::Stop,
            GET_CONFIG => RequestCode::GetConfig,
            SET_BUFFERSIZE => RequestCode::SetBufferSize,
            _ => return None,
        })
    }

    /// The code that the first four bytes of a request with this command encode.
    pub fn code(self) -> u32
        ensures code { result ≡ code_of self }
        ensures command { command_at result ≡ Some self }
    {
        match self {
            RequestCode::GetCapability => GET_CAPABILITY,
            RequestCode::Init => INIT,
            RequestCode::Shutdown => SHUTDOWN,
            RequestCode::GetEstablished => GET_TPMESTABLISHED,
            RequestCode::SetLocality => SET_LOCALITY,
            RequestCode::CancelCommand => CANCEL_TPM_CMD,
            RequestCode::StoreVolatile => STORE_VOLATILE,
            RequestCode::ResetEstablished => RESET_TPMESTABLISHED,
            RequestCode::GetStateBlob => GET_STATEBLOB,
            RequestCode::SetStateBlob => SET_STATEBLOB,
            RequestCode::Stop => STOP,
            RequestCode::GetConfig => GET_CONFIG,
            RequestCode::SetBufferSize => SET_BUFFERSIZE,
        }
    }
}
