//! What a write of the guest asks for.
ghost use Rattle.std.specs.Prelude.{◌≡◌, IsSome, unwrap_or};
ghost use Rattle.crb_regs.specs.Effects.{effect};

use crate::access::Access;
use crate::registers::{
    CANCEL, CMD_READY, CTRL_CANCEL, CTRL_REQ, CTRL_START, DATA_BUFFER, GO_IDLE, LOC_CTRL,
    NO_CANCEL, REGISTER_SIZE, RELINQUISH, REQUEST_ACCESS, START,
};

/// What a write asks for. Whether it is done depends on the phase.
#[derive(Clone, Copy, Debug, PartialEq, Eq)]
pub enum Effect {
    /// Bytes of the data buffer are set.
    Buffer,
    /// The buffer is cleared for a new command.
    CmdReady,
    /// The interface goes idle.
    GoIdle,
    /// The command in the buffer is started.
    Start,
    /// CANCEL is set to this value.
    Cancel(bool),
    /// Access is asked for.
    Request,
    /// Access is given back.
    Relinquish,
    /// Nothing at all.
    Nothing,
}

/// What a write asks for, by its place, size and value. The values are the profile's bits; that a register takes
/// exactly these values, each alone, in a write of at most four bytes at its first byte, is our own rule.
pub fn decode(a: &Access) -> Effect
    requires { IsSome a.now.write }
    ensures { result ≡ effect a.now.offset a.now.size (unwrap_or a.now.write 0) }
{
    if a.offset() >= DATA_BUFFER {
        return Effect::Buffer;
    }
    if a.size() > REGISTER_SIZE {
        return Effect::Nothing;
    }
    let value = a.write().unwrap_or(0) as u32;
    match (a.offset(), value) {
        (LOC_CTRL, REQUEST_ACCESS) => Effect::Request,
        (LOC_CTRL, RELINQUISH) => Effect::Relinquish,
        (CTRL_REQ, CMD_READY) => Effect::CmdReady,
        (CTRL_REQ, GO_IDLE) => Effect::GoIdle,
        (CTRL_CANCEL, NO_CANCEL) => Effect::Cancel(false),
        (CTRL_CANCEL, CANCEL) => Effect::Cancel(true),
        (CTRL_START, START) => Effect::Start,
        _ => Effect::Nothing,
    }
}
