//! The drive lines of `bulk N COUNT`, and the summary that is written of their output.
//!
//! [`BulkLines`] makes the lines one at a time, each from a draw of a generator of numbers, and keeps none of them.
//! [`Summary`] counts the lines and hashes what they write, and keeps none of it. What a line does is left to others.
//!
//! ```text
//! let mut lines = BulkLines::new(seed, count);
//! let mut summary = Summary::new();
//! while let Some(line) = lines.next(alloc)? {
//!     ..
//!     summary.add(&line, &text);
//! }
//! summary.print(alloc, &mut output)?;
//! ```
#![tactic(auto)]

mod commands;
mod generator;
pub mod laws;
mod summary;

pub use generator::BulkLines;
pub use summary::Summary;
