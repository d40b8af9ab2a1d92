//! The worker between a port and an emulator behind wires: it has one job at a time, and takes it on in steps.
//!
//! [`Worker::step`] claims a job, sends its command, receives the header of the response, and then receives the rest and
//! posts the answer, one of these a call. A job that was cancelled before its claim is answered without the emulator. No
//! command is sent twice: a job whose call on the wires fails is lost, and its answer says so.
//!
//! ```
//! let mut worker = Worker::new();
//! loop {
//!     match worker.step(&mut port, &mut wires) {
//!         Step::Idle => break,
//!         Step::Done(number) => println!(rt; "{number} was executed")?,
//!         _ => {}
//!     }
//! }
//! ```
//!
//! Whether the worker runs, and when, is left to its caller, and so is what becomes of a device whose job is lost.
#![tactic(auto)]

pub mod laws;
mod progress;
mod receiving;
mod worker;

pub use progress::{Progress, Step};
pub use worker::Worker;
