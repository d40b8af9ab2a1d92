//! The record of a held device: its values as bytes that outlive it, or go to another host.
//!
//! ```text
//! // Where the device is: its guest stands still, and its values are written.
//! device.stop()?;
//! let mut record = [0; RECORD_ROOM];
//! let count = write_record(&device, &mut record);
//!
//! // Where it goes to: a device over a free port gets the values, and its guest goes on.
//! device.stop()?;
//! load_record(&mut device, &record[..count])?;
//! device.go_on();
//! ```
//!
//! The format is our own, and each value has one encoding: the magic `CRBD`, a version, the number of bytes that
//! follow, the registers, the job that waits, and the buffer without the zeros at its end. Bytes that are no record are
//! refused from the left, each field when all its bytes are there, and the device is left as it was. [`check_record`]
//! refuses the same with no device. None of the calls takes memory. Where the bytes are kept, and when a device may be
//! taken apart, is left to others.
#![tactic(auto)]

mod fields;
mod format;
pub mod laws;
mod parse;
mod reading;
mod record;
mod writing;

pub use format::{LARGEST_LENGTH, MAGIC, RECORD_ROOM, SMALLEST_LENGTH};
pub use record::{check_record, load_record, write_record};
