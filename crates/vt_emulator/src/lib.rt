//! The emulator: a TPM behind control messages and commands.
//!
//! ```text
//! let mut emulator = Emulator::new(alloc, seed, Banks::Two, 4096)?;
//! let mut out = Out::new();
//! let heard = emulator.control(&request, &mut out);
//! // send out.bytes(); where heard.closed, nothing more is heard
//!
//! let took = emulator.data(&command);
//! if took.whole {
//!     let size = emulator.run_held(&mut into);
//!     // send into.bytes()[..size]
//! }
//! ```
//!
//! What each whole message does is defined in `ctrl_model`, beside what a host may expect of it: each call here is one
//! step of those definitions, or none while no message is whole. The messages are after swtpm's manual; their bodies, the
//! states and the results are our own. All memory is taken when an emulator is made. Who brings the bytes, and in which
//! order the two channels are served, is left to others.
#![tactic(auto)]

mod blobs;
mod commands;
mod desk;
mod emulator;
mod emulator_core;
mod held_command;
pub mod laws;
mod power;
mod state_blob;

pub use desk::{Desk, Heard};
pub use emulator::Emulator;
