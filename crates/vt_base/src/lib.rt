//! The base of the virtual TPM: what its device, its emulator and its programs share.
//!
//! - A program reads its input by [`read_all`] from a [`Source`], writes by [`write_all`] to a [`Sink`], and ends with
//!   a [`Status`]. Over the real thing these are [`StdSource`] and [`StdSink`]; in a test they are [`MemSource`] and
//!   [`MemSink`], whose calls fail by a [`FaultSchedule`]. Each keeps a count of its faults, so that a caller can
//!   promise to report a fault only where one happened.
//! - A command or a response stands in a [`Buf`], and a list of bytes of any length in [`Bytes`].
//! - A reader of a binary format implements [`Grammar`]: one parser, written with [`field_of`], [`number_of`] and their
//!   like, against a layout parsed field by field. [`ByteBuf::feed`] then reads a message from pieces of any size,
//!   never past its end; what encodes no message is [`Malformed`]. That the pieces make no difference is said once, for
//!   every layout, by [`encodings_are_prefix_free`] and [`decoding_is_unique`].
#![tactic(auto)]

mod buf;
mod byte_buf;
mod bytes;
mod fault_schedule;
mod fields;
mod grammar;
mod laws;
mod memory;
mod refusing;
mod sink;
mod source;
mod standard;
mod status;
mod types;

pub use buf::{BUFFER_LENGTH, Buf};
pub use byte_buf::ByteBuf;
pub use bytes::Bytes;
pub use fault_schedule::FaultSchedule;
pub use fields::{byte_of, field_of, long_of, number_of, short_of, u16_at, u32_at, u64_at};
pub use grammar::{Grammar, Missing};
pub use laws::{decoding_is_unique, encodings_are_prefix_free};
pub use memory::{MemSink, MemSource};
pub use refusing::{Parsed, behind_magic, refused};
pub use sink::{Sink, write_all};
pub use source::{Input, Source, read_all};
pub use standard::{Adapter, StdSink, StdSource};
pub use status::Status;
pub use types::{Chan, Failed, HostName, Kind, Malformed, Reason, Why};
