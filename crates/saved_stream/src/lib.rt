//! The stream of a suspension: the values of a stopped device and of its TPM as one run of bytes, from which both go on
//! later or elsewhere.
//!
//! ```text
//! // Where they are: the device is stopped, and its record and the blobs of its TPM are written one after the other.
//! device.stop()?;
//! let count = write_record(&device, &mut record);
//! let got = piece(&tpm, Kind::Permanent, 0, &mut permanent);
//! ..
//! write_stream(&record[..count], permanent, volatile, saved, &mut stream)?;
//!
//! // Where they go on: no byte past the stream is taken from its source ..
//! loop {
//!     let count = wanted(&stream);
//!     if count == 0 { break; }
//!     ..
//! }
//! // .. and a device that is held gets the values.
//! let Ok(tpm) = read_stream(alloc, &stream, &mut device)? else { .. };
//! device.go_on();
//! ```
//!
//! The format is our own: the magic `CRBS`, a version, how many bytes follow, and then the record of the device and the
//! permanent, the volatile and the saved blob of the TPM, each by its own format and whole. Each value has one
//! encoding. Bytes that are no stream are refused at their first fault from the left; what only the whole shows is
//! checked after that: the length in the head, a saved state that isn't that of a running TPM, and bytes behind the
//! stream.
//!
//! Where the bytes are kept, and when a device and its TPM may be taken apart, is left to others.
#![tactic(auto)]

mod bytes_needed;
mod format;
mod head;
pub mod laws;
mod part;
mod reading;
mod writing;

pub use bytes_needed::wanted;
pub use reading::read_stream;
pub use writing::write_stream;
