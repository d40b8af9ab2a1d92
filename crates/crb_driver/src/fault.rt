//! Why the driver gave up.
use thiserror::Error;

/// Why a call of the driver gave up, with the number that shows it.
#[derive(Clone, Copy, Debug, PartialEq, Eq, Error)]
pub enum DriverFault {
    /// The command's length, up to `u32::MAX`: it isn't that of a command, or not the one that its size field names.
    #[error("a command of {0} bytes has another size or can't be sent")]
    Size(u32),
    /// The LOC_STS that was read: it grants no access.
    #[error("access was not granted: LOC_STS is {0:#x}")]
    NotGranted(u32),
    /// The CTRL_STS that was read: the interface is idle after cmdReady.
    #[error("the interface is not ready: CTRL_STS is {0:#x}")]
    NotReady(u32),
    /// How many times START was read and was not 0. The command goes on.
    #[error("no response after {0} polls")]
    TimedOut(u32),
    /// The CTRL_STS that was read: the TPM can't be used.
    #[error("the TPM can't be used: CTRL_STS is {0:#x}")]
    Fatal(u32),
    /// The size field that was read: no response has this length, or it has no room.
    #[error("a response of {0} bytes can't be taken")]
    BadResponse(u32),
}
