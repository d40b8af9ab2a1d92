//! The CRB device as its guest sees it, over a port that carries one job at a time.
//!
//! A [`Device`] keeps the registers and one buffer. A START makes the buffer a job in the device's port; whoever executes
//! commands claims it at the port's other end and brings the buffer back in an answer, which the guest sees at its next
//! access. Over a port that is both ends, the device is itself the worker's end. The device knows no TPM: what the answer
//! holds is the worker's.
//!
//! For a suspension or a move the device is stopped: held, it has its buffer, gives its values and can be given
//! others. A command that nobody claimed waits in it, and is queued again when the device goes on.
#![tactic(auto)]

mod bytes;
mod device;
mod held;
mod laws;
mod parts;
mod phases;
mod state;

pub use device::{Device, NotYet};
pub use laws::{held_devices_go_on, stopped_devices_go_on};
pub use state::HeldState;
