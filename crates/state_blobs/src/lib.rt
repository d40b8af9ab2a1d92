//! A TPM's state as three blobs: what outlives every power cycle, what it loses with its power, and what a shutdown kept
//! for the next start. They are given in pieces of any size from any place on, gathered from pieces that come in their
//! order, and assembled to a TPM.
//!
//! ```text
//! // Where the TPM is: the next piece of a blob.
//! let Some(got) = piece(&tpm, Kind::Volatile, offset, &mut into) else { .. };
//! let bytes = &into[..got.length as usize];
//!
//! // Where it goes to: a gather for each kind, and then the TPM.
//! let mut volatile = Gather::new(alloc, Kind::Volatile)?;
//! let whole = volatile.push(bytes)?;
//! let tpm = assemble(&permanent, &volatile, &saved)?;
//! ```
//!
//! The format is our own, and each value has one encoding. The version of a blob says which banks its TPM has: 1 for one
//! bank, 2 for two. What the bytes are sent over, and when a TPM may be taken apart, is left to others.
#![tactic(auto)]

mod assembly;
mod blobs;
mod body_fields;
mod counted;
mod encode;
mod format;
mod gather;
pub mod laws;
mod numbers;
mod pieces;
mod read;
mod reading;
mod types;

pub use assembly::assemble;
pub use blobs::{banks_named, is_length, magic};
pub use format::LARGEST_BLOB;
pub use gather::Gather;
pub use pieces::piece;
pub use types::{BlobFault, Piece};
