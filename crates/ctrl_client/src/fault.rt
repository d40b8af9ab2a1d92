//! Why a request has no good reply.
use thiserror::Error;

/// Why a request to an emulator had no good reply.
#[derive(Clone, Copy, Debug, PartialEq, Eq, Error)]
pub enum ClientFault {
    /// A call on the wires failed. Whether the request was obeyed isn't known.
    #[error("the link to the emulator failed")]
    Link,
    /// The emulator refused the request with this result, which isn't 0.
    #[error("the emulator answered result {0}")]
    Result(u32),
    /// The field of the reply that begins at this byte, counted from 0, can't stand there. The control channel was cut.
    #[error("the reply of the emulator is malformed at byte {0}")]
    Reply(u32),
}
