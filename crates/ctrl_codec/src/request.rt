// Control requests.
ghost use Rattle.std.specs.Prelude.{◌≡◌};

use crate::request_code::RequestCode;
use std::fmt;

/// A control request, without the data that goes with it. The commands are swtpm's, the bodies our own.
#[derive(Clone, Copy, Debug, PartialEq, Eq)]
pub enum Request {
    /// Asks what the emulator can do.
    GetCapability,
    /// Switches the TPM on; bit 0 of the flags deletes the volatile state.
    Init { flags: u32 },
    /// Switches the TPM off and ends.
    Shutdown,
    /// Asks whether the flag tpmEstablished is set.
    GetEstablished,
    /// Sets the locality of the commands that follow. Three ignored bytes follow it.
    SetLocality { locality: u8 },
    /// Gives up the command that is executed.
    CancelCommand,
    /// Stores the volatile state.
    StoreVolatile,
    /// Clears the flag tpmEstablished, from this locality. Three ignored bytes follow it.
    ResetEstablished { locality: u8 },
    /// Asks for a piece of a blob of state, from this offset on.
    GetStateBlob { flags: u32, kind: u32, offset: u32 },
    /// Gives a piece of a blob of state, as so many bytes of data, at most 4096.
    SetStateBlob { flags: u32, kind: u32, length: u32 },
    /// Switches the TPM off.
    Stop,
    /// Asks how the emulator was configured.
    GetConfig,
    /// Sets the size of the buffer of commands and responses, or asks for it by 0.
    SetBufferSize { size: u32 },
}

impl Request {
    ghost use Rattle.ctrl_codec.specs.Requests.{command_of};

    /// The command of this request.
    pub fn command(&self) -> RequestCode
        ensures { result ≡ command_of self.now }
    {
        match self {
            Request::GetCapability => RequestCode::GetCapability,
            Request::Init { .. } => RequestCode::Init,
            Request::Shutdown => RequestCode::Shutdown,
            Request::GetEstablished => RequestCode::GetEstablished,
            Request::SetLocality { .. } => RequestCode::SetLocality,
            Request::CancelCommand => RequestCode::CancelCommand,
            Request::StoreVolatile => RequestCode::StoreVolatile,
            Request::ResetEstablished { .. } => RequestCode::ResetEstablished,
            Request::GetStateBlob { .. } => RequestCode::GetStateBlob,
            Request::SetStateBlob { .. } => RequestCode::SetStateBlob,
            Request::Stop => RequestCode::Stop,
            Request::GetConfig => RequestCode::GetConfig,
            Request::SetBufferSize { .. } => RequestCode::SetBufferSize,
        }
    }
}

/// Why bytes begin no request.
#[derive(Clone, Copy, Debug, PartialEq, Eq)]
pub enum RequestFault {
    /// The profile has no command of this code.
    Code(u32),
    /// The data would have so many bytes, more than 4096.
    Length(u32),
}

impl fmt::Display for RequestFault {
    fn fmt<W: fmt::Write>(&self, f: &mut fmt::Formatter<W>) -> fmt::Result {
        match self {
            RequestFault::Code(code) => write!(f, "no request has the code {code}"),
            RequestFault::Length(length) => write!(
                f,
                "a request with {length} bytes of data is too long"
            ),
        }
    }
}
