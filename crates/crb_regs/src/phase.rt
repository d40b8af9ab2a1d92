//! The phases of the interface.

/// What the interface is doing. The names are those of the PC Client Platform TPM Profile, but for `Lost`.
#[derive(Clone, Copy, Debug, PartialEq, Eq)]
pub enum Phase {
    /// No command is prepared; the buffer isn't shown.
    Idle,
    /// The buffer is zeros and a command may be written.
    Ready,
    /// A part of a command was written.
    Reception,
    /// A command was started and hasn't ended.
    Execution,
    /// The buffer holds a response.
    Completion,
    /// The TPM behind the device was lost; the device stays so.
    Lost,
}
