//! A seat: one host, its worker, and an emulator behind wires in memory.
//!
//! A [`Seat`] does what its guest, its worker and a script ask of it: an access, a step of the worker, a cancel over
//! the control channel of the emulator, a reset, or a fault to inject that lets one of the next calls on the wires
//! fail. Each call's contract says that its replies are those of one device over one TPM, whatever is known of the host
//! before: the history, the call that is to fail, and how many calls there were. A [`MemWires`] is the link by itself:
//! the emulator, the bytes that wait on its two channels, and the call that is to fail.
//!
//! ```
//! let mut seat = Seat::fresh(alloc, HostName::A, [0; SEED_SIZE], Banks::Two, 4096)?;
//! let reply = seat.step(&Event::Work);
//! let mut stream = Vec::new(alloc);
//! let saved = seat.save(&mut stream)?;
//! ```
//!
//! [`Seat::save`] appends all that a running host is to bytes, unless the worker has a pending command, and leaves it
//! as it was; [`Seat::load`] makes a host of such bytes that goes on where the saved one was, or says why they are
//! none. The layout is that of [`saved_stream`].
//!
//! When the worker takes a step is left to the caller, and so is which of two hosts runs.
#![tactic(auto)]

mod blobs;
pub mod laws;
mod messages;
mod moves;
mod pending;
mod saving;
mod seat;
mod wires;

pub use saving::Saved;
pub use seat::Seat;
pub use wires::MemWires;
