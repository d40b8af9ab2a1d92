//! The register page of the Command Response Buffer at locality 0, as the TCG PC Client Platform TPM Profile lays it
//! out: which accesses a guest can make, what the registers read, and what a write asks for.
//!
//! An [`Access`] is made by [`Access::new`], which refuses what leaves the page. [`Regs::byte`] gives one byte of the
//! registers; [`decode`] names the [`Effect`] of a write. What an effect does in each phase, and the bytes of the
//! data buffer, are the device's and stand in `crb_machine`.
#![tactic(auto)]

mod access;
mod effect;
mod phase;
mod registers;

pub use access::{Access, PAGE_SIZE};
pub use effect::{Effect, decode};
pub use phase::Phase;
pub use registers::{
    CANCEL, CMD_READY, CTRL_CANCEL, CTRL_REQ, CTRL_START, CTRL_STS, DATA_BUFFER, GO_IDLE, GRANTED,
    LOC_CTRL, LOC_STATE, LOC_STS, NO_CANCEL, REGISTER_SIZE, RELINQUISH, REQUEST_ACCESS, Regs,
    START, TPM_IDLE, TPM_STS, byte_at,
};
